// Whether a block fits its place.
ghost use Rattle.std.specs.Prelude.{◌≡◌, ◌≤◌, length, IsSome, IsSomeAnd};
ghost use Rattle.std.specs.Option.{is_some};
ghost use Rattle.btr_node.specs.Node.{node_of};
ghost use Rattle.btr_read.specs.Store.{IsLiveIn, block_of};
ghost use Rattle.btr_walk.specs.BlockPointer.{fits_ends, is_below, judged};

use crate::block_pointer::BlockPointer;
use btr_base::Key;
use btr_node::Node;
use btr_read::{Loan, Store};

impl BlockPointer {
    // Whether the block may have a key from this one on.
    fn ends_behind(&self, key: Key) -> bool
        ensures { result ≡ is_below self.now.up key }
    {
        match self.up {
            None => true,
            Some(up) => key.is_before(up),
        }
    }

    // Whether a block whose first and last key are these fits.
    fn fits_ends(&self, first: Key, last: Key) -> bool
        ensures { result ≡ fits_ends self.now first last }
    {
        let begins = match self.first {
            None => true,
            Some(key) => !first.is_before(key) && !key.is_before(first),
        };
        begins && self.ends_behind(last)
    }
}

// Whether a good node fits a pointer of this level.
fn is_fitting(block: &[u8], level: u8, pointer: &BlockPointer) -> bool
    requires header { 101 ≤ length block.now }
    requires good { IsSome (node_of block.now) }
    ensures { result ≡ is_some (judged level pointer.now block.now) }
{
    if btr_node::level(block) != level {
        return false;
    }
    match Node::of(block) {
        Node::Leaf(leaf) => {
            let count = leaf.count();
            if count == 0 {
                return pointer.first.is_none();
            }
            pointer.fits_ends(leaf.key(0), leaf.key(count - 1))
        }
        Node::Inner(inner) => pointer.fits_ends(inner.key(0), inner.key(inner.count() - 1)),
    }
}

/// Whether the block of a loan is a good one that fits a pointer of this level.
pub(crate) fn is_judged(loan: &Loan, level: u8, pointer: &BlockPointer, store: &mut Store) -> bool
    requires live { IsLiveIn store.old loan.now }
    requires header { 101 ≤ loan.now.len }
    ensures same { store.new ≡ store.old }
    ensures judged { IsSomeAnd (block_of store.old loan.now) (λ block. result ≡ is_some (judged level pointer.now block)) }
{
    store.has_node(loan) && is_fitting(store.bytes(loan), level, pointer)
}
