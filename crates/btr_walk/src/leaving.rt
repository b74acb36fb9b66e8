// How a scan comes to its next leaf.
ghost use Rattle.std.specs.Prelude.{◌<◌, ◌≤◌};
ghost use Rattle.btr_read.specs.Serves.{Serves};
ghost use Rattle.btr_rack.specs.Rack.{OnlyReads};
ghost use Rattle.btr_read.specs.Store.{free_count};
ghost use Rattle.btr_walk.specs.Reading.{TellsOf, HasCause};
ghost use Rattle.btr_walk.specs.Leaving.{LendsReached, IsReached, RankFallsReached};
ghost use Rattle.btr_walk.specs.Ranks.{IsShaped};

use crate::TreeFault;
use crate::going::{Gone, Where, go_on};
use crate::leaf_at::{LeafAt, give_leaf};
use btr_base::Key;
use btr_rack::Rack;
use btr_read::Store;

// Reads on to the next leaf that has an item in the range, and goes on to the place behind it; `None` at the end.
pub(crate) fn to_leaf<R: Rack>(
    place: &mut Where,
    lo: Key,
    hi: Key,
    rack: &mut R,
    store: &mut Store,
) -> Result<Option<LeafAt>, TreeFault>
    requires serves { Serves (R.seen rack.old) store.old }
    requires room { 4 ≤ free_count store.old }
    requires shaped { IsShaped place.old }
    ensures serves { Serves (R.seen rack.new) store.new }
    ensures reads { OnlyReads (R.seen rack.old) (R.seen rack.new) }
    ensures lent { LendsReached store.old store.new result }
    ensures rank_falls { RankFallsReached place.old place.new result }
    ensures cause { HasCause store.old.layout (R.seen rack.old) (R.seen rack.new) result }
    ensures content { TellsOf store.old (R.seen rack.old) (R.seen rack.new)
        (λ Is B. IsReached lo hi Is B place.old place.new store.new result) }
{
    loop {
        match go_on(place, lo, hi, rack, store)? {
            Gone::End => return Ok(None),
            Gone::Between => {}
            Gone::Leaf(leaf) => {
                if leaf.next < leaf.end {
                    return Ok(Some(leaf));
                }
                give_leaf(Some(leaf), store);
            }
        }
    }
}
