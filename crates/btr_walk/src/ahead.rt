// What a walk over all blocks of a tree reads next.
ghost use Rattle.std.specs.Prelude.{◌≤◌};
ghost use Rattle.btr_rack.specs.Rack.{OnlyReads};
ghost use Rattle.btr_read.specs.Serves.{Serves};
ghost use Rattle.btr_read.specs.Store.{SameLoans, free_count};
ghost use Rattle.btr_walk.specs.Preorder.{IsAhead, RankFallsAhead};
ghost use Rattle.btr_walk.specs.Ranks.{IsShaped};
ghost use Rattle.btr_walk.specs.Reading.{TellsOf, HasCause};

use crate::TreeFault;
use crate::again::read_again;
use crate::frame::Todo;
use crate::going::Where;
use crate::path::{Path, lowest, set_frame};
use btr_rack::Rack;
use btr_read::Store;

/// A block that is to be read, and the nodes above it of which children are still to come.
#[derive(Clone, Copy, Debug, PartialEq, Eq)]
pub(crate) struct Ahead {
    pub(crate) todo: Todo,
    pub(crate) path: Path,
}

// What is to be read next: for it a node may be read again.
pub(crate) fn ahead_of<R: Rack>(
    place: &Where,
    rack: &mut R,
    store: &mut Store,
) -> Result<Option<Ahead>, TreeFault>
    requires serves { Serves (R.seen rack.old) store.old }
    requires room { 4 ≤ free_count store.old }
    requires shaped { IsShaped place.now }
    ensures rank_falls { RankFallsAhead place.now result }
    ensures serves { Serves (R.seen rack.new) store.new }
    ensures reads { OnlyReads (R.seen rack.old) (R.seen rack.new) }
    ensures store { SameLoans store.old store.new }
    ensures cause { HasCause store.old.layout (R.seen rack.old) (R.seen rack.new) result }
    ensures content { TellsOf store.old (R.seen rack.old) (R.seen rack.new) (λ Is B. IsAhead Is B place.now result) }
{
    let mut path = place.path;
    match place.todo {
        Some(todo) => Ok(Some(Ahead { todo, path })),
        None => match lowest(&path) {
            None => Ok(None),
            Some(low) => {
                let below = read_again(low.at as u8 + 1, &low.frame, rack, store)?;
                set_frame(&mut path, low.at, below.frame);
                let Some(todo) = below.todo else {
                    unreachable!();
                };
                Ok(Some(Ahead { todo, path }))
            }
        },
    }
}
