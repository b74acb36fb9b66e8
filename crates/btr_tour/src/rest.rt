// A tour that keeps no loan.
ghost use Rattle.std.specs.Prelude.{◌≡◌, ◌≤◌, [], IfSome};
ghost use Rattle.btr_rack.specs.Rack.{Seen, OnlyReads};
ghost use Rattle.btr_read.specs.Serves.{Serves};
ghost use Rattle.btr_read.specs.Store.{SameLoans, free_count};
ghost use Rattle.btr_walk.specs.Hand.{IsInHand};
ghost use Rattle.btr_walk.specs.Reading.{Map, TellsOf};
ghost use Rattle.btr_tour.specs.Program.{tour_prog};
ghost use Rattle.btr_tour.specs.Rests.{rest_left, Fits, KeepsFrom, IsRestOn, Rests, TakenUp, TakesUp, RestCause};
ghost use Rattle.btr_tour.specs.TourEnds.{without_leaf};

use crate::Tour;
use crate::scope::Scope;
use btr_base::{Key, SumKind};
use btr_rack::Rack;
use btr_read::Store;
use btr_walk::{Frame, RootPlace, TreeFault, Where, begin, give_leaf, read_leaf};

/// A tour that keeps no loan: where it goes on. It can be copied, and let go.
#[derive(Clone, Copy)]
pub struct Rest {
    pub(crate) scope: Scope,
    pub(crate) place: Where,
    // The leaf that was given back, where items of it are still to come.
    pub(crate) leaf: Option<Frame>,
}

// A leaf that was given back, where items of it are still to come.
fn kept_of(frame: Frame) -> Option<Frame>
    ensures { KeepsFrom frame result }
{
    if frame.next < frame.end {
        Some(frame)
    } else {
        None
    }
}

impl Tour {
    /// Gives the loan of the leaf back, if one is kept, and answers where the tour goes on: behind what was met last.
    pub fn rest(self, store: &mut Store) -> Rest
        requires { IfSome self.leaf (IsInHand store.old) }
        ensures back { SameLoans (without_leaf store.old self) store.new }
        ensures serves { (rack : Seen) → Serves rack store.old → Serves rack store.new }
        ensures rests { Rests store.old self result }
    {
        let Tour {
            scope,
            place,
            leaf,
            level: _,
        } = self;
        let leaf = match give_leaf(leaf, store) {
            None => None,
            Some(frame) => kept_of(frame),
        };
        Rest { scope, place, leaf }
    }
}

impl Rest {
    /// A tour of the tree with this root of which nothing is met yet. Where `lo` is above `hi` it has no item. Checksums in headers are of
    /// the kind `sums`.
    pub fn new(root: &RootPlace, lo: Key, hi: Key, sums: SumKind) -> Rest
        ensures fits { Fits result }
        ensures left { (B : Map) → rest_left B result ≡ tour_prog lo hi root.now }
        ensures on { (B : Map) → IsRestOn B [] result }
    {
        Rest {
            scope: Scope { lo, hi, sums },
            place: begin(root),
            leaf: None,
        }
    }

    /// The tour that goes on there. Where items of a leaf are still to come, that leaf is read again, and nothing else. It takes no
    /// memory, and four slots are free.
    ///
    /// The faults are those of that one block. Where no read failed since it was read, it is there again. The tour can pass no block
    /// before it meets one.
    pub fn tour<R: Rack>(&self, rack: &mut R, store: &mut Store) -> Result<Tour, TreeFault>
        requires fits { Fits self.now }
        requires serves { Serves (R.seen rack.old) store.old }
        requires room { 4 ≤ free_count store.old }
        ensures serves { Serves (R.seen rack.new) store.new }
        ensures reads { OnlyReads (R.seen rack.old) (R.seen rack.new) }
        ensures taken { TakenUp (R.seen rack.new) store.old store.new self.now result }
        ensures cause { RestCause store.old.layout (R.seen rack.old) (R.seen rack.new) self.now.leaf result }
        ensures content { TellsOf store.old (R.seen rack.old) (R.seen rack.new)
            (λ Is B. TakesUp Is B self.now store.new result) }
    {
        match &self.leaf {
            None => Ok(Tour {
                scope: self.scope,
                place: self.place,
                leaf: None,
                level: None,
            }),
            Some(frame) => {
                let hand = read_leaf(frame, rack, store)?;
                Ok(Tour {
                    scope: self.scope,
                    place: self.place,
                    leaf: Some(hand),
                    level: None,
                })
            }
        }
    }
}
