// A block of a tree.
ghost use Rattle.std.specs.Prelude.{◌≤◌, IfOk, OnErr};
ghost use Rattle.btr_read.specs.Serves.{Serves};
ghost use Rattle.btr_rack.specs.Rack.{OnlyReads};
ghost use Rattle.btr_read.specs.Store.{IsLentBy, SameLoans, free_count};
ghost use Rattle.btr_walk.specs.Le.{want_of};
ghost use Rattle.btr_walk.specs.Reading.{TellsOf, Reads, IsGoodFor, HasCause, HasCauseOf};

use crate::TreeFault;
use crate::block_pointer::BlockPointer;
use crate::judging::is_judged;
use btr_rack::Rack;
use btr_read::{Loan, Store, Want, fetch};

/// Reads the block of a level at a pointer, and tests whether it fits there; its loan is the caller's. It takes no memory, and four slots are free.
///
/// The faults are `Lost`, `Unread`, `Unmapped` and `Crosses` of that block, and `Malformed` where it breaks a rule of one block, has another first key
/// than its pointer, or a key that isn't below the bound.
pub fn read_block<R: Rack>(
    level: u8,
    pointer: &BlockPointer,
    rack: &mut R,
    store: &mut Store,
) -> Result<Loan, TreeFault>
    requires serves { Serves (R.seen rack.old) store.old }
    requires room { 4 ≤ free_count store.old }
    ensures serves { Serves (R.seen rack.new) store.new }
    ensures reads { OnlyReads (R.seen rack.old) (R.seen rack.new) }
    ensures lent { IfOk result (IsLentBy store.old store.new (want_of level pointer.now)) }
    ensures refused { OnErr result (SameLoans store.old store.new) }
    ensures good { IfOk result (IsGoodFor level pointer.now store.new) }
    ensures cause { HasCause store.old.layout (R.seen rack.old) (R.seen rack.new) result }
    ensures of_want { HasCauseOf store.old.layout (want_of level pointer.now) (R.seen rack.old) (R.seen rack.new) result }
    ensures content { TellsOf store.old (R.seen rack.old) (R.seen rack.new)
        (λ Is B. Reads Is B level pointer.now store.new result) }
{
    let want = Want::Tree {
        addr: pointer.addr,
        generation: pointer.generation,
        level,
    };
    let loan = fetch(&want, rack, store)?;
    if is_judged(&loan, level, pointer, store) {
        Ok(loan)
    } else {
        store.give(loan);
        Err(TreeFault::Malformed(pointer.addr))
    }
}
