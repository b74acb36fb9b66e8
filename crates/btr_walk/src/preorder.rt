// The next block of a walk over all blocks of a tree.
ghost use Rattle.std.specs.Prelude.{◌<◌, ◌≤◌, length, IsSome};
ghost use Rattle.btr_rack.specs.Rack.{OnlyReads};
ghost use Rattle.btr_read.specs.Serves.{Serves};
ghost use Rattle.btr_read.specs.Store.{free_count};
ghost use Rattle.btr_walk.specs.Preorder.{place_of, IsBehindBlock, IsEntry, RankFallsEntry, LendsEntry, IsStep, RankFallsStep, LendsStep};
ghost use Rattle.btr_walk.specs.Ranks.{IsShaped, rank};
ghost use Rattle.btr_walk.specs.BlockPointer.{judged};
ghost use Rattle.btr_walk.specs.Reading.{TellsOf, HasCause};

use crate::TreeFault;
use crate::again::first_of;
use crate::ahead::{Ahead, ahead_of};
use crate::choice::Part;
use crate::going::Where;
use crate::path::set_frame;
use crate::reading::read_block;
use btr_node::Inner;
use btr_rack::Rack;
use btr_read::{Loan, Store};

/// A block that was read, and where the walk is behind it.
pub(crate) struct Entry {
    pub(crate) addr: u64,
    pub(crate) level: u8,
    pub(crate) loan: Loan,
    pub(crate) place: Where,
}

// Where a walk is behind a block: before its first child, if it has any.
fn behind(ahead: &Ahead, block: &[u8]) -> Where
    requires header { 101 ≤ length block.now }
    requires good { IsSome (judged ahead.now.todo.level ahead.now.todo.pointer block.now) }
    requires shaped { IsShaped (place_of ahead.now) }
    ensures rank_falls { IsShaped result × (rank result < rank (place_of ahead.now)) }
    ensures behind { IsBehindBlock ahead.now block.now result }
{
    let todo = ahead.todo;
    if todo.level == 0 {
        return Where {
            path: ahead.path,
            todo: None,
        };
    }
    let all = Part {
        next: 0,
        end: Inner::of(block).count(),
    };
    let below = first_of(block, &todo, all);
    let mut path = ahead.path;
    set_frame(&mut path, todo.level as usize - 1, below.frame);
    Where {
        path,
        todo: below.todo,
    }
}

// Reads the block that is to be read.
pub(crate) fn enter_block<R: Rack>(
    ahead: &Ahead,
    rack: &mut R,
    store: &mut Store,
) -> Result<Entry, TreeFault>
    requires serves { Serves (R.seen rack.old) store.old }
    requires room { 4 ≤ free_count store.old }
    requires shaped { IsShaped (place_of ahead.now) }
    ensures rank_falls { RankFallsEntry (place_of ahead.now) result }
    ensures serves { Serves (R.seen rack.new) store.new }
    ensures reads { OnlyReads (R.seen rack.old) (R.seen rack.new) }
    ensures lent { LendsEntry store.old store.new ahead.now result }
    ensures cause { HasCause store.old.layout (R.seen rack.old) (R.seen rack.new) result }
    ensures content { TellsOf store.old (R.seen rack.old) (R.seen rack.new)
        (λ Is B. IsEntry Is B ahead.now store.new result) }
{
    let todo = ahead.todo;
    let loan = read_block(todo.level, &todo.pointer, rack, store)?;
    let place = behind(ahead, store.bytes(&loan));
    Ok(Entry {
        addr: todo.pointer.addr,
        level: todo.level,
        loan,
        place,
    })
}

// One block further.
pub(crate) fn step_block<R: Rack>(
    place: &Where,
    rack: &mut R,
    store: &mut Store,
) -> Result<Option<Entry>, TreeFault>
    requires serves { Serves (R.seen rack.old) store.old }
    requires room { 4 ≤ free_count store.old }
    requires shaped { IsShaped place.now }
    ensures rank_falls { RankFallsStep place.now result }
    ensures serves { Serves (R.seen rack.new) store.new }
    ensures reads { OnlyReads (R.seen rack.old) (R.seen rack.new) }
    ensures lent { LendsStep store.old store.new result }
    ensures cause { HasCause store.old.layout (R.seen rack.old) (R.seen rack.new) result }
    ensures content { TellsOf store.old (R.seen rack.old) (R.seen rack.new)
        (λ Is B. IsStep Is B place.now store.new result) }
{
    match ahead_of(place, rack, store)? {
        None => Ok(None),
        Some(ahead) => Ok(Some(enter_block(&ahead, rack, store)?)),
    }
}
