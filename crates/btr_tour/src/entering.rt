// A block that is read on the way.
ghost use Rattle.std.specs.Prelude.{◌≡◌, ◌<◌, ◌≤◌, IfSome, None, Some};
ghost use Rattle.btr_rack.specs.Rack.{OnlyReads};
ghost use Rattle.btr_read.specs.Serves.{Serves};
ghost use Rattle.btr_read.specs.Store.{SameLoans, free_count};
ghost use Rattle.btr_walk.specs.Hand.{IsInHand, loan_of};
ghost use Rattle.btr_walk.specs.Lending.{base};
ghost use Rattle.btr_walk.specs.Ranks.{IsShaped};
ghost use Rattle.btr_walk.specs.Reading.{TellsOf};
ghost use Rattle.btr_tour.specs.Tour.{place_of};
ghost use Rattle.btr_tour.specs.Shape.{rank_on, StepRankFalls};
ghost use Rattle.btr_tour.specs.Steps.{arrived, left_out, IsLowest, HasStep, StepCause, AdvancesIn};

use crate::scope::Scope;
use crate::step::{Advanced, Step};
use btr_base::Header;
use btr_rack::Rack;
use btr_read::Store;
use btr_walk::{
    AtLevel, LeafAt, RootPlace, Todo, TreeFault, Where, choose, frame_of, part_of, read_again,
    read_block, set_frame,
};

// Where a block that is to be read stands.
fn place_of(todo: &Todo) -> RootPlace
    ensures { result ≡ place_of todo.now.level todo.now.pointer }
{
    RootPlace {
        addr: todo.pointer.addr,
        generation: todo.pointer.generation,
        level: todo.level,
    }
}

// What comes of a fault: where the block could not be read, the tour stays, and else it goes on behind the block.
fn left_out(place: &mut Where, after: Where, fault: TreeFault) -> Advanced
    ensures { arrived place.new result ≡ left_out place.old after fault }
{
    match fault {
        TreeFault::Unread(_, _) => Advanced {
            leaf: None,
            step: Err(fault),
        },
        TreeFault::Lost(_)
        | TreeFault::Unmapped(_)
        | TreeFault::Crosses(_)
        | TreeFault::Malformed(_) => {
            *place = after;
            Advanced {
                leaf: None,
                step: Ok(Step::Fault(fault)),
            }
        }
    }
}

/// Meets the block that is to be read.
pub(crate) fn enter<R: Rack>(
    place: &mut Where,
    todo: &Todo,
    scope: &Scope,
    rack: &mut R,
    store: &mut Store,
) -> Advanced
    requires todo { place.old.todo ≡ Some todo.now }
    requires serves { Serves (R.seen rack.old) store.old }
    requires room { 4 ≤ free_count store.old }
    requires shaped { IsShaped place.old }
    ensures serves { Serves (R.seen rack.new) store.new }
    ensures reads { OnlyReads (R.seen rack.old) (R.seen rack.new) }
    ensures others { SameLoans store.old (base store.new (loan_of result.leaf)) }
    ensures hand { IfSome result.leaf (IsInHand store.new) }
    ensures shaped { IsShaped place.new }
    ensures rank_falls { StepRankFalls (rank_on place.old None) (rank_on place.new result.leaf) result.step }
    ensures step { HasStep place.old place.new result.leaf result.step }
    ensures cause { StepCause store.old.layout (R.seen rack.old) (R.seen rack.new) place.old result.step }
    ensures content { TellsOf store.old (R.seen rack.old) (R.seen rack.new)
        (λ Is B. AdvancesIn scope.now Is B store.old place.old None store.new (arrived place.new result)) }
{
    match read_block(todo.level, &todo.pointer, rack, store) {
        Err(fault) => {
            let after = Where {
                path: place.path,
                todo: None,
            };
            left_out(place, after, fault)
        }
        Ok(loan) => {
            let step = Ok(Step::Block {
                place: place_of(todo),
                header: Header::read(scope.sums, store.bytes(&loan)),
            });
            place.todo = None;
            if todo.level == 0 {
                let part = part_of(store.bytes(&loan), scope.lo, scope.hi);
                let leaf = LeafAt {
                    pointer: todo.pointer,
                    next: part.next,
                    end: part.end,
                    loan,
                };
                return Advanced {
                    leaf: Some(leaf),
                    step,
                };
            }
            let part = choose(store.bytes(&loan), scope.lo, scope.hi);
            store.give(loan);
            let frame = frame_of(&todo.pointer, part);
            set_frame(&mut place.path, todo.level as usize - 1, frame);
            Advanced { leaf: None, step }
        }
    }
}

/// Meets the next child of the lowest node.
pub(crate) fn meet_child<R: Rack>(
    place: &mut Where,
    low: &AtLevel,
    scope: &Scope,
    rack: &mut R,
    store: &mut Store,
) -> Advanced
    requires todo { place.old.todo ≡ None }
    requires low { IsLowest place.old low.now }
    requires serves { Serves (R.seen rack.old) store.old }
    requires room { 4 ≤ free_count store.old }
    requires shaped { IsShaped place.old }
    ensures serves { Serves (R.seen rack.new) store.new }
    ensures reads { OnlyReads (R.seen rack.old) (R.seen rack.new) }
    ensures others { SameLoans store.old (base store.new (loan_of result.leaf)) }
    ensures hand { IfSome result.leaf (IsInHand store.new) }
    ensures shaped { IsShaped place.new }
    ensures rank_falls { StepRankFalls (rank_on place.old None) (rank_on place.new result.leaf) result.step }
    ensures step { HasStep place.old place.new result.leaf result.step }
    ensures cause { StepCause store.old.layout (R.seen rack.old) (R.seen rack.new) place.old result.step }
    ensures content { TellsOf store.old (R.seen rack.old) (R.seen rack.new)
        (λ Is B. AdvancesIn scope.now Is B store.old place.old None store.new (arrived place.new result)) }
{
    let frame = &low.frame;
    match read_again(low.at as u8 + 1, frame, rack, store) {
        Err(fault) => {
            let mut after = Where {
                path: place.path,
                todo: None,
            };
            set_frame(&mut after.path, low.at, None);
            left_out(place, after, fault)
        }
        Ok(below) => {
            let Some(todo) = below.todo else {
                unreachable!();
            };
            set_frame(&mut place.path, low.at, below.frame);
            place.todo = Some(todo);
            Advanced {
                leaf: None,
                step: Ok(Step::Child {
                    block: frame.pointer.addr,
                    place: place_of(&todo),
                }),
            }
        }
    }
}
