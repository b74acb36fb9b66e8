// One item further.
ghost use Rattle.std.specs.Prelude.{◌≡◌, ◌+◌, ◌-◌, ◌*◌, ◌^◌, ◌<◌, ◌≤◌, Some, IfSome, OnErr};
ghost use Rattle.btr_read.specs.Serves.{Serves};
ghost use Rattle.btr_rack.specs.Rack.{OnlyReads};
ghost use Rattle.btr_read.specs.Store.{SameLoans, free_count};
ghost use Rattle.btr_walk.specs.Lending.{base};
ghost use Rattle.btr_walk.specs.Reading.{TellsOf, HasCause};
ghost use Rattle.btr_walk.specs.Advancing.{arrived, Lends, HasItem, FromPlace, FromHand, IsAdvanced};
ghost use Rattle.btr_walk.specs.Hand.{loan_of, IsInHand};
ghost use Rattle.btr_walk.specs.Ranks.{IsShaped, rank, rank_leaf, StepRankFalls};

use crate::TreeFault;
use crate::frame::Frame;
use crate::going::Where;
use crate::leaf_again::read_leaf;
use crate::leaf_at::{LeafAt, behind_next, give_leaf};
use crate::leaving::to_leaf;
use btr_base::Key;
use btr_rack::Rack;
use btr_read::Store;

/// What a step came to: the leaf in hand, whose item before `next` is the one that was met, if one was.
pub(crate) struct Advanced {
    pub(crate) leaf: Option<LeafAt>,
    pub(crate) met: Result<bool, TreeFault>,
}

// A step that came to a leaf with an item, or to the end.
fn arrived(reached: Option<LeafAt>) -> Advanced
    requires { IfSome reached (λ leaf. leaf.next < leaf.end) }
    ensures { result ≡ arrived reached }
{
    match reached {
        None => Advanced {
            leaf: None,
            met: Ok(false),
        },
        Some(leaf) => Advanced {
            leaf: Some(behind_next(leaf)),
            met: Ok(true),
        },
    }
}

// One item further with no leaf in hand. After a fault the place is the one that it was.
pub(crate) fn from_place<R: Rack>(
    place: &mut Where,
    lo: Key,
    hi: Key,
    rack: &mut R,
    store: &mut Store,
) -> Advanced
    requires serves { Serves (R.seen rack.old) store.old }
    requires room { 4 ≤ free_count store.old }
    requires shaped { IsShaped place.old }
    ensures serves { Serves (R.seen rack.new) store.new }
    ensures reads { OnlyReads (R.seen rack.old) (R.seen rack.new) }
    ensures lent { Lends store.old store.new result }
    ensures stays { OnErr result.met (place.new ≡ place.old) }
    ensures shaped { IsShaped place.new }
    ensures on { rank place.new ≤ rank place.old }
    ensures rank_falls { StepRankFalls (2 ^ 64 * rank place.old) place.new result.leaf result.met }
    ensures item { HasItem result.leaf result.met }
    ensures cause { HasCause store.old.layout (R.seen rack.old) (R.seen rack.new) result.met }
    ensures content { TellsOf store.old (R.seen rack.old) (R.seen rack.new)
        (λ Is B. FromPlace lo hi Is B place.old place.new store.new result) }
{
    let start = *place;
    match to_leaf(place, lo, hi, rack, store) {
        Err(fault) => {
            *place = start;
            Advanced {
                leaf: None,
                met: Err(fault),
            }
        }
        Ok(reached) => arrived(reached),
    }
}

// One item further with a leaf in hand.
pub(crate) fn from_hand<R: Rack>(
    place: &mut Where,
    hand: LeafAt,
    lo: Key,
    hi: Key,
    rack: &mut R,
    store: &mut Store,
) -> Advanced
    requires serves { Serves (R.seen rack.old) store.old }
    requires hand { IsInHand store.old hand }
    requires room { 4 ≤ free_count (base store.old (Some hand.loan)) }
    requires shaped { IsShaped place.old }
    ensures serves { Serves (R.seen rack.new) store.new }
    ensures reads { OnlyReads (R.seen rack.old) (R.seen rack.new) }
    ensures others { SameLoans (base store.old (Some hand.loan)) (base store.new (loan_of result.leaf)) }
    ensures hand { IfSome result.leaf (IsInHand store.new) }
    ensures stays { OnErr result.met (place.new ≡ place.old) }
    ensures shaped { IsShaped place.new }
    ensures on { rank place.new ≤ rank place.old }
    ensures rank_falls { StepRankFalls (2 ^ 64 * rank place.old + (hand.end - hand.next)) place.new result.leaf result.met }
    ensures item { HasItem result.leaf result.met }
    ensures cause { HasCause store.old.layout (R.seen rack.old) (R.seen rack.new) result.met }
    ensures content { TellsOf store.old (R.seen rack.old) (R.seen rack.new)
        (λ Is B. FromHand lo hi Is B place.old place.new hand store.old store.new result) }
{
    if hand.next < hand.end {
        return Advanced {
            leaf: Some(behind_next(hand)),
            met: Ok(true),
        };
    }
    give_leaf(Some(hand), store);
    from_place(place, lo, hi, rack, store)
}

// One item further. `kept` is the leaf that was given back.
pub(crate) fn advance<R: Rack>(
    kept: &Option<Frame>,
    place: &mut Where,
    leaf: Option<LeafAt>,
    lo: Key,
    hi: Key,
    rack: &mut R,
    store: &mut Store,
) -> Advanced
    requires serves { Serves (R.seen rack.old) store.old }
    requires hand { IfSome leaf (IsInHand store.old) }
    requires room { 4 ≤ free_count (base store.old (loan_of leaf)) }
    requires shaped { IsShaped place.old }
    ensures serves { Serves (R.seen rack.new) store.new }
    ensures reads { OnlyReads (R.seen rack.old) (R.seen rack.new) }
    ensures others { SameLoans (base store.old (loan_of leaf)) (base store.new (loan_of result.leaf)) }
    ensures hand { IfSome result.leaf (IsInHand store.new) }
    ensures stays { OnErr result.met (place.new ≡ place.old) }
    ensures shaped { IsShaped place.new }
    ensures on { rank place.new ≤ rank place.old }
    ensures rank_falls { StepRankFalls (2 ^ 64 * rank place.old + rank_leaf leaf kept.now) place.new result.leaf result.met }
    ensures item { HasItem result.leaf result.met }
    ensures cause { HasCause store.old.layout (R.seen rack.old) (R.seen rack.new) result.met }
    ensures content { TellsOf store.old (R.seen rack.old) (R.seen rack.new)
        (λ Is B. IsAdvanced lo hi Is B (record { leaf = kept.now; rest = place.old })
        place.new leaf store.old store.new result) }
{
    match leaf {
        Some(hand) => from_hand(place, hand, lo, hi, rack, store),
        None => match kept {
            None => from_place(place, lo, hi, rack, store),
            Some(frame) => match read_leaf(frame, rack, store) {
                Ok(hand) => from_hand(place, hand, lo, hi, rack, store),
                Err(fault) => Advanced {
                    leaf: None,
                    met: Err(fault),
                },
            },
        },
    }
}
