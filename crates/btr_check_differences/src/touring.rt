// Tours of a tree over ranges of inodes.
ghost use Rattle.std.specs.Prelude.{◌≡◌, ◌≤◌, fold, OnSome};
ghost use Rattle.btr_check_differences.specs.Law.{tours};
ghost use Rattle.btr_check_differences.specs.Ranges.{high, low};
ghost use Rattle.btr_check_differences.specs.Reading.{IsReady, Read, world};
ghost use Rattle.btr_rack.specs.Rack.{OnlyReads};
ghost use Rattle.btr_read.specs.Store.{SameLoans, free_count};
ghost use Rattle.btr_tour.specs.Tour.{tour};
ghost use Rattle.btr_tour.specs.TourEnds as ends;
ghost use Rattle.btr_tour.specs.TourEnds.{without_leaf};
ghost use Rattle.btr_tour.specs.Visits.{IsTaken, IsMet, MetRankFalls, IsRun};
ghost use Rattle.btr_walk.specs.Reading.{TellsOf};

use crate::inode_range::InodeRange;
use btr_base::{Memory, SumKind};
use btr_rack::Rack;
use btr_read::Store;
use btr_tour::{Met, Tour, Visitor, next};
use btr_walk::{FoldFault, RootPlace};

// Treats what was met. There may be more.
fn take_met<V: Visitor<Memory>>(visitor: &mut V, met: &Met<'_>) -> Result<bool, FoldFault<Memory>>
    ensures { IsTaken V.step visitor.old met.now visitor.new result }
{
    match visitor.meet(met) {
        Ok(()) => Ok(true),
        Err(own) => Err(FoldFault::Own(own)),
    }
}

// One mark further; the answer is whether there was one.
fn meet_next<R: Rack, V: Visitor<Memory>>(
    tour: &mut Tour,
    rack: &mut R,
    store: &mut Store,
    visitor: &mut V,
) -> Result<bool, FoldFault<Memory>>
    requires ready { ends.IsTourReady (R.seen rack.old) store.old tour.old }
    requires room { 4 ≤ free_count (without_leaf store.old tour.old) }
    ensures ready { ends.IsTourReady (R.seen rack.new) store.new tour.new }
    ensures reads { OnlyReads (R.seen rack.old) (R.seen rack.new) }
    ensures others { SameLoans (without_leaf store.old tour.old) (without_leaf store.new tour.new) }
    ensures rank_falls { MetRankFalls tour.old tour.new result }
    ensures content { TellsOf store.old (R.seen rack.old) (R.seen rack.new)
        (λ Is B. IsMet V.step Is B store.old store.new tour.old tour.new
        visitor.old visitor.new result) }
{
    match next(store, tour, rack) {
        Err(fault) => Err(FoldFault::Tree(fault)),
        Ok(None) => Ok(false),
        Ok(Some(met)) => take_met(visitor, &met),
    }
}

// All that a tour has still to meet.
fn run<R: Rack, V: Visitor<Memory>>(
    tour: &mut Tour,
    rack: &mut R,
    store: &mut Store,
    visitor: &mut V,
) -> Result<(), FoldFault<Memory>>
    requires ready { ends.IsTourReady (R.seen rack.old) store.old tour.old }
    requires room { 4 ≤ free_count (without_leaf store.old tour.old) }
    ensures ready { ends.IsTourReady (R.seen rack.new) store.new tour.new }
    ensures reads { OnlyReads (R.seen rack.old) (R.seen rack.new) }
    ensures others { SameLoans (without_leaf store.old tour.old) (without_leaf store.new tour.new) }
    ensures content { TellsOf store.old (R.seen rack.old) (R.seen rack.new)
        (λ Is B. IsRun V.step Is B store.old tour.old visitor.old visitor.new result) }
{
    while meet_next(tour, rack, store, visitor)? {}
    Ok(())
}

// Visits the items of the inodes of one range.
fn visit_range<R: Rack, V: Visitor<Memory>>(
    root: &RootPlace,
    range: &InodeRange,
    sums: SumKind,
    rack: &mut R,
    store: &mut Store,
    visitor: &mut V,
) -> Option<()>
    requires ready { IsReady (world (R.seen rack.old) store.old) }
    ensures read { Read (λ B. OnSome result (visitor.new
        ≡ fold V.step visitor.old (tour (low range.now) (high range.now) B root.now)))
        (world (R.seen rack.old) store.old) (world (R.seen rack.new) store.new) }
{
    let mut tour = Tour::new(root, range.low(), range.high(), sums);
    let ended = run(&mut tour, rack, store, visitor);
    tour.finish(store);
    match ended {
        Ok(()) => Some(()),
        Err(_) => None,
    }
}

/// Visits the items of the inodes in ranges, one range after another: each by a tour of the tree,
/// whose blocks, pointers and faults are met as often. Four slots are free; it takes no memory,
/// and keeps no loan. Checksums in headers are of the kind `sums`.
///
/// `None`: a block could not be read, or the visitor has no memory; then nothing is said of the
/// visitor.
pub fn visit_ranges<R: Rack, V: Visitor<Memory>>(
    root: &RootPlace,
    ranges: &[InodeRange],
    sums: SumKind,
    rack: &mut R,
    store: &mut Store,
    visitor: &mut V,
) -> Option<()>
    requires ready { IsReady (world (R.seen rack.old) store.old) }
    ensures read { Read (λ B. OnSome result (visitor.new
        ≡ fold V.step visitor.old (tours B root.now ranges.now)))
        (world (R.seen rack.old) store.old) (world (R.seen rack.new) store.new) }
{
    for range in ranges {
        match visit_range(root, range, sums, rack, store, visitor) {
            None => return None,
            Some(()) => {}
        }
    }
    Some(())
}
