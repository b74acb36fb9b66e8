// A block that is read on the way through a range.
ghost use Rattle.std.specs.Prelude.{◌≤◌};
ghost use Rattle.btr_read.specs.Serves.{Serves};
ghost use Rattle.btr_rack.specs.Rack.{OnlyReads};
ghost use Rattle.btr_read.specs.Store.{free_count};
ghost use Rattle.btr_walk.specs.Reading.{TellsOf, HasCause};
ghost use Rattle.btr_walk.specs.Entering.{HasLevel, LendsEntered, IsEntered};

use crate::TreeFault;
use crate::again::first_of;
use crate::choice::{choose, part_of};
use crate::frame::{Below, Todo};
use crate::leaf_at::LeafAt;
use crate::reading::read_block;
use btr_base::Key;
use btr_rack::Rack;
use btr_read::Store;

/// What a block is.
pub(crate) enum Entered {
    Leaf(LeafAt),
    Inner(Below),
}

// Reads a block that is to be read.
pub(crate) fn enter<R: Rack>(
    todo: &Todo,
    lo: Key,
    hi: Key,
    rack: &mut R,
    store: &mut Store,
) -> Result<Entered, TreeFault>
    requires serves { Serves (R.seen rack.old) store.old }
    requires room { 4 ≤ free_count store.old }
    ensures serves { Serves (R.seen rack.new) store.new }
    ensures reads { OnlyReads (R.seen rack.old) (R.seen rack.new) }
    ensures lent { LendsEntered store.old store.new result }
    ensures level { HasLevel todo.now result }
    ensures cause { HasCause store.old.layout (R.seen rack.old) (R.seen rack.new) result }
    ensures content { TellsOf store.old (R.seen rack.old) (R.seen rack.new)
        (λ Is B. IsEntered lo hi Is B todo.now store.new result) }
{
    let loan = read_block(todo.level, &todo.pointer, rack, store)?;
    if todo.level == 0 {
        let part = part_of(store.bytes(&loan), lo, hi);
        return Ok(Entered::Leaf(LeafAt {
            pointer: todo.pointer,
            next: part.next,
            end: part.end,
            loan,
        }));
    }
    let block = store.bytes(&loan);
    let below = first_of(block, todo, choose(block, lo, hi));
    store.give(loan);
    Ok(Entered::Inner(below))
}
