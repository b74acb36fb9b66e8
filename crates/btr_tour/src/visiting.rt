// A tree that is visited.
ghost use Rattle.std.specs.Prelude.{◌≡◌, ◌≤◌};
ghost use Rattle.btr_rack.specs.Rack.{OnlyReads};
ghost use Rattle.btr_read.specs.Serves.{Serves};
ghost use Rattle.btr_read.specs.Store.{SameLoans, free_count};
ghost use Rattle.btr_tour.specs.TourEnds.{IsTourReady, without_leaf};
ghost use Rattle.btr_walk.specs.Folding.{FoldCause};
ghost use Rattle.btr_walk.specs.Reading.{TellsOf};
ghost use Rattle.btr_tour.specs.Visits.{IsTaken, IsMet, MetRankFalls, OnlyUnread, IsRun, Visits};

use crate::visitor::Visitor;
use crate::{Met, Tour, next};
use btr_base::{FIRST_KEY, LAST_KEY, SumKind};
use btr_rack::Rack;
use btr_read::Store;
use btr_walk::{FoldFault, RootPlace};

// Treats what was met. There may be more.
fn take_met<E, V: Visitor<E>>(visitor: &mut V, met: &Met<'_>) -> Result<bool, FoldFault<E>>
    ensures { IsTaken V.step visitor.old met.now visitor.new result }
{
    match visitor.meet(met) {
        Ok(()) => Ok(true),
        Err(own) => Err(FoldFault::Own(own)),
    }
}

// One mark further; the answer is whether there was one.
fn meet_next<R: Rack, E, V: Visitor<E>>(
    tour: &mut Tour,
    rack: &mut R,
    store: &mut Store,
    visitor: &mut V,
) -> Result<bool, FoldFault<E>>
    requires ready { IsTourReady (R.seen rack.old) store.old tour.old }
    requires room { 4 ≤ free_count (without_leaf store.old tour.old) }
    ensures ready { IsTourReady (R.seen rack.new) store.new tour.new }
    ensures reads { OnlyReads (R.seen rack.old) (R.seen rack.new) }
    ensures others { SameLoans (without_leaf store.old tour.old) (without_leaf store.new tour.new) }
    ensures scope { tour.new.scope ≡ tour.old.scope }
    ensures rank_falls { MetRankFalls tour.old tour.new result }
    ensures unread { OnlyUnread result }
    ensures cause { FoldCause store.old.layout (R.seen rack.old) (R.seen rack.new) result }
    ensures content { TellsOf store.old (R.seen rack.old) (R.seen rack.new)
        (λ Is B. IsMet V.step Is B store.old store.new tour.old tour.new visitor.old visitor.new result) }
{
    match next(store, tour, rack) {
        Err(fault) => Err(FoldFault::Tree(fault)),
        Ok(None) => Ok(false),
        Ok(Some(met)) => take_met(visitor, &met),
    }
}

// All that a tour has still to meet.
fn run<R: Rack, E, V: Visitor<E>>(
    tour: &mut Tour,
    rack: &mut R,
    store: &mut Store,
    visitor: &mut V,
) -> Result<(), FoldFault<E>>
    requires ready { IsTourReady (R.seen rack.old) store.old tour.old }
    requires room { 4 ≤ free_count (without_leaf store.old tour.old) }
    ensures ready { IsTourReady (R.seen rack.new) store.new tour.new }
    ensures reads { OnlyReads (R.seen rack.old) (R.seen rack.new) }
    ensures others { SameLoans (without_leaf store.old tour.old) (without_leaf store.new tour.new) }
    ensures unread { OnlyUnread result }
    ensures cause { FoldCause store.old.layout (R.seen rack.old) (R.seen rack.new) result }
    ensures content { TellsOf store.old (R.seen rack.old) (R.seen rack.new)
        (λ Is B. IsRun V.step Is B store.old tour.old visitor.old visitor.new result) }
{
    loop {
        if !meet_next(tour, rack, store, visitor)? {
            return Ok(());
        }
    }
}

/// Visits all of a tree: treats each block, pointer, item and fault before the next block is read, in the order of a tour. Four slots
/// are free; it takes no memory, and keeps no loan. Checksums in headers are of the kind `sums`.
///
/// The refusal of the tree is `Unread`, where a block could not be read: one of those that the tour wants, of which exactly the marks
/// before it were treated. All else that is wrong with a block is met as a fault. `Own` is the visitor's refusal.
pub fn visit<R: Rack, E, V: Visitor<E>>(
    root: &RootPlace,
    sums: SumKind,
    rack: &mut R,
    store: &mut Store,
    visitor: &mut V,
) -> Result<(), FoldFault<E>>
    requires serves { Serves (R.seen rack.old) store.old }
    requires room { 4 ≤ free_count store.old }
    ensures serves { Serves (R.seen rack.new) store.new }
    ensures reads { OnlyReads (R.seen rack.old) (R.seen rack.new) }
    ensures loans { SameLoans store.old store.new }
    ensures unread { OnlyUnread result }
    ensures cause { FoldCause store.old.layout (R.seen rack.old) (R.seen rack.new) result }
    ensures content { TellsOf store.old (R.seen rack.old) (R.seen rack.new)
        (λ Is B. Visits V.step Is B root.now visitor.old visitor.new result) }
{
    let mut tour = Tour::new(root, FIRST_KEY, LAST_KEY, sums);
    let ended = run(&mut tour, rack, store, visitor);
    tour.finish(store);
    ended
}
