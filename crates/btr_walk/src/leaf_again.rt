// A leaf that is read again.
ghost use Rattle.std.specs.Prelude.{◌≤◌, IfOk};
ghost use Rattle.btr_rack.specs.Rack.{OnlyReads};
ghost use Rattle.btr_read.specs.Serves.{Serves};
ghost use Rattle.btr_read.specs.Store.{free_count};
ghost use Rattle.btr_walk.specs.Hand.{IsLeafOf, LendsAgain, IsLeafAgain};
ghost use Rattle.btr_walk.specs.Le.{want_of};
ghost use Rattle.btr_walk.specs.Reading.{TellsOf, HasCause, HasCauseOf};

use crate::TreeFault;
use crate::frame::Frame;
use crate::leaf_at::LeafAt;
use crate::reading::read_block;
use btr_node::Leaf;
use btr_rack::Rack;
use btr_read::Store;

/// Reads a leaf again that was given back, of which the items of the frame are still to come. It takes no memory, and four slots are free.
///
/// The faults are those of that one block. Where no read failed since it was read, it is there again.
pub fn read_leaf<R: Rack>(
    frame: &Frame,
    rack: &mut R,
    store: &mut Store,
) -> Result<LeafAt, TreeFault>
    requires serves { Serves (R.seen rack.old) store.old }
    requires room { 4 ≤ free_count store.old }
    ensures serves { Serves (R.seen rack.new) store.new }
    ensures reads { OnlyReads (R.seen rack.old) (R.seen rack.new) }
    ensures lent { LendsAgain store.old store.new result }
    ensures same { IfOk result (IsLeafOf frame.now) }
    ensures cause { HasCause store.old.layout (R.seen rack.old) (R.seen rack.new) result }
    ensures of_want { HasCauseOf store.old.layout (want_of 0 frame.now.pointer) (R.seen rack.old) (R.seen rack.new) result }
    ensures content { TellsOf store.old (R.seen rack.old) (R.seen rack.new)
        (λ Is B. IsLeafAgain Is B frame.now store.new result) }
{
    let loan = read_block(0, &frame.pointer, rack, store)?;
    let count = Leaf::of(store.bytes(&loan)).count();
    if count < frame.end {
        store.give(loan);
        return Err(TreeFault::Malformed(frame.pointer.addr));
    }
    Ok(LeafAt {
        pointer: frame.pointer,
        next: frame.next,
        end: frame.end,
        loan,
    })
}
