// One step further.
ghost use Rattle.std.specs.Prelude.{◌≤◌, Some, None, IfSome};
ghost use Rattle.btr_rack.specs.Rack.{OnlyReads};
ghost use Rattle.btr_read.specs.Serves.{Serves};
ghost use Rattle.btr_read.specs.Store.{SameLoans, free_count};
ghost use Rattle.btr_walk.specs.Hand.{IsInHand, loan_of};
ghost use Rattle.btr_walk.specs.Lending.{base};
ghost use Rattle.btr_walk.specs.Ranks.{IsShaped};
ghost use Rattle.btr_walk.specs.Reading.{TellsOf};
ghost use Rattle.btr_tour.specs.Shape.{rank_on, StepRankFalls};
ghost use Rattle.btr_tour.specs.Steps.{arrived, HasStep, StepCause, AdvancesIn};

use crate::entering::{enter, meet_child};
use crate::scope::Scope;
use crate::step::{Advanced, Step};
use btr_rack::Rack;
use btr_read::Store;
use btr_walk::{LeafAt, Where, behind_next, give_leaf, lowest};

// One step further with no leaf in hand.
fn from_place<R: Rack>(
    place: &mut Where,
    scope: &Scope,
    rack: &mut R,
    store: &mut Store,
) -> Advanced
    requires serves { Serves (R.seen rack.old) store.old }
    requires room { 4 ≤ free_count store.old }
    requires shaped { IsShaped place.old }
    ensures serves { Serves (R.seen rack.new) store.new }
    ensures reads { OnlyReads (R.seen rack.old) (R.seen rack.new) }
    ensures others { SameLoans store.old (base store.new (loan_of result.leaf)) }
    ensures hand { IfSome result.leaf (IsInHand store.new) }
    ensures shaped { IsShaped place.new }
    ensures rank_falls { StepRankFalls (rank_on place.old None) (rank_on place.new result.leaf) result.step }
    ensures step { HasStep place.old place.new result.leaf result.step }
    ensures cause { StepCause store.old.layout (R.seen rack.old) (R.seen rack.new) place.old result.step }
    ensures content { TellsOf store.old (R.seen rack.old) (R.seen rack.new)
        (λ Is B. AdvancesIn scope.now Is B store.old place.old None store.new (arrived place.new result)) }
{
    match place.todo {
        Some(todo) => enter(place, &todo, scope, rack, store),
        None => match lowest(&place.path) {
            Some(low) => meet_child(place, &low, scope, rack, store),
            None => Advanced {
                leaf: None,
                step: Ok(Step::End),
            },
        },
    }
}

/// One step further.
pub(crate) fn advance<R: Rack>(
    place: &mut Where,
    leaf: Option<LeafAt>,
    scope: &Scope,
    rack: &mut R,
    store: &mut Store,
) -> Advanced
    requires serves { Serves (R.seen rack.old) store.old }
    requires hand { IfSome leaf (IsInHand store.old) }
    requires room { 4 ≤ free_count (base store.old (loan_of leaf)) }
    requires shaped { IsShaped place.old }
    ensures serves { Serves (R.seen rack.new) store.new }
    ensures reads { OnlyReads (R.seen rack.old) (R.seen rack.new) }
    ensures others { SameLoans (base store.old (loan_of leaf)) (base store.new (loan_of result.leaf)) }
    ensures hand { IfSome result.leaf (IsInHand store.new) }
    ensures shaped { IsShaped place.new }
    ensures rank_falls { StepRankFalls (rank_on place.old leaf) (rank_on place.new result.leaf) result.step }
    ensures step { HasStep place.old place.new result.leaf result.step }
    ensures cause { StepCause store.old.layout (R.seen rack.old) (R.seen rack.new) place.old result.step }
    ensures content { TellsOf store.old (R.seen rack.old) (R.seen rack.new)
        (λ Is B. AdvancesIn scope.now Is B store.old place.old leaf store.new (arrived place.new result)) }
{
    let Some(hand) = leaf else {
        return from_place(place, scope, rack, store);
    };
    if hand.next < hand.end {
        let at = hand.next;
        return Advanced {
            leaf: Some(behind_next(hand)),
            step: Ok(Step::Item(at)),
        };
    }
    give_leaf(Some(hand), store);
    from_place(place, scope, rack, store)
}
