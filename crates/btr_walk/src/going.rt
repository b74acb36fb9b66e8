// How a scan goes on, block by block.
ghost use Rattle.std.specs.Prelude.{◌<◌, ◌≤◌};
ghost use Rattle.btr_read.specs.Serves.{Serves};
ghost use Rattle.btr_rack.specs.Rack.{OnlyReads};
ghost use Rattle.btr_read.specs.Store.{free_count};
ghost use Rattle.btr_walk.specs.Reading.{TellsOf, HasCause};
ghost use Rattle.btr_walk.specs.Going.{LendsGone, IsGone};
ghost use Rattle.btr_walk.specs.Ranks.{IsShaped, RankFalls};

use crate::TreeFault;
use crate::again::read_again;
use crate::entering::{Entered, enter};
use crate::frame::Todo;
use crate::leaf_at::LeafAt;
use crate::path::{Path, lowest, set_frame};
use btr_base::Key;
use btr_rack::Rack;
use btr_read::Store;

/// Where a cursor is: the block that is to be read, if one is, and the nodes of which children are still to come.
#[derive(Clone, Copy, Debug, PartialEq, Eq)]
pub struct Where {
    /// The nodes of which children are still to come, by level.
    pub path: Path,
    /// The block that is to be read, if one is.
    pub todo: Option<Todo>,
}

/// What came of reading on.
pub(crate) enum Gone {
    Leaf(LeafAt),
    Between,
    End,
}

// Reads at most one block, and goes on to the place behind it.
pub(crate) fn go_on<R: Rack>(
    place: &mut Where,
    lo: Key,
    hi: Key,
    rack: &mut R,
    store: &mut Store,
) -> Result<Gone, TreeFault>
    requires serves { Serves (R.seen rack.old) store.old }
    requires room { 4 ≤ free_count store.old }
    requires shaped { IsShaped place.old }
    ensures rank_falls { RankFalls place.old place.new result }
    ensures serves { Serves (R.seen rack.new) store.new }
    ensures reads { OnlyReads (R.seen rack.old) (R.seen rack.new) }
    ensures lent { LendsGone store.old store.new result }
    ensures cause { HasCause store.old.layout (R.seen rack.old) (R.seen rack.new) result }
    ensures content { TellsOf store.old (R.seen rack.old) (R.seen rack.new)
        (λ Is B. IsGone lo hi Is B place.old place.new store.new result) }
{
    match place.todo {
        Some(todo) => match enter(&todo, lo, hi, rack, store)? {
            Entered::Leaf(leaf) => {
                place.todo = None;
                Ok(Gone::Leaf(leaf))
            }
            Entered::Inner(below) => {
                set_frame(&mut place.path, todo.level as usize - 1, below.frame);
                place.todo = below.todo;
                Ok(Gone::Between)
            }
        },
        None => match lowest(&place.path) {
            None => Ok(Gone::End),
            Some(low) => {
                let below = read_again(low.at as u8 + 1, &low.frame, rack, store)?;
                set_frame(&mut place.path, low.at, below.frame);
                place.todo = below.todo;
                Ok(Gone::Between)
            }
        },
    }
}
