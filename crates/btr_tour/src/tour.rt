// A tour.
ghost use Rattle.std.specs.Prelude.{◌≡◌, ◌≤◌, List, [], IfSome, IsSome, None, Some};
ghost use Rattle.std.specs.Borrow.{sem};
ghost use Rattle.btr_rack.specs.Rack.{OnlyReads, Seen};
ghost use Rattle.btr_read.specs.Serves.{Serves};
ghost use Rattle.btr_read.specs.Store.{Blocks, SameLoans, free_count};
ghost use Rattle.btr_read.specs.declared.want.Want.{Want};
ghost use Rattle.btr_walk.specs.Hand.{IsInHand};
ghost use Rattle.btr_walk.specs.Reading.{Map, TellsOf};
ghost use Rattle.btr_tour.specs.Program.{tour_prog};
ghost use Rattle.btr_tour.specs.Steps.{passed_leaf, HasStep, StepCause};
ghost use Rattle.btr_tour.specs.Shape.{StepRankFalls};
ghost use Rattle.btr_tour.specs.TourEnds.{left_of, passed, without_leaf, rank_of, level_met, IsTourReady, IsUnderway, HoldsLeaf, KeepsLeaf};
ghost use Rattle.btr_tour.specs.TourEnds.{NextRankFalls, NextCause, IsNextStep, TourEnds};

use crate::Met;
use crate::advancing::advance;
use crate::scope::Scope;
use crate::step::{Advanced, Step};
use btr_base::{Key, SumKind};
use btr_rack::Rack;
use btr_read::Store;
use btr_walk::{LeafAt, RootPlace, TreeFault, Where, begin, found_at, give_leaf, put_leaf};

/// A tour through a tree, from one key to another, both included. It keeps at most one loan: that of its leaf. It is not let
/// go but by `finish`.
pub struct Tour {
    pub(crate) scope: Scope,
    pub(crate) place: Where,
    pub(crate) leaf: Option<LeafAt>,
    // The level of the block that was met last, if nothing was met behind it.
    pub(crate) level: Option<u8>,
}

// The leaf behind all its items.
fn behind_all(leaf: Option<LeafAt>) -> Option<LeafAt>
    ensures { result ≡ passed_leaf 0 leaf }
{
    match leaf {
        None => None,
        Some(hand) => {
            let LeafAt {
                pointer,
                next: _,
                end,
                loan,
            } = hand;
            Some(LeafAt {
                pointer,
                next: end,
                end,
                loan,
            })
        }
    }
}

impl Tour {
    /// A tour of the tree with this root; nothing is read yet. Where `lo` is above `hi` it has no item. Checksums in headers are
    /// of the kind `sums`.
    pub fn new(root: &RootPlace, lo: Key, hi: Key, sums: SumKind) -> Tour
        ensures scope { result.scope ≡ record { lo = lo; hi = hi; sums = sums } }
        ensures leaf { result.leaf ≡ None }
        ensures level { result.level ≡ None }
        ensures ready { (rack : Seen) (store : Blocks) → Serves rack store → IsTourReady rack store result }
        ensures left { (B : Map) (store : Blocks) → left_of B store result ≡ tour_prog lo hi root.now }
        ensures on { (B : Map) → IsUnderway B [] result }
    {
        Tour {
            scope: Scope { lo, hi, sums },
            place: begin(root),
            leaf: None,
            level: None,
        }
    }

    /// Leaves out all that is below the block that was met last. The last answer was that block.
    pub fn pass(&mut self)
        requires block { IsSome self.old.level }
        requires low { IfSome self.old.level (λ level. level ≤ 7) }
        ensures passed { self.new ≡ passed self.old }
        ensures ready { (rack : Seen) (store : Blocks) → IsTourReady rack store self.old → IsTourReady rack store self.new }
        ensures on { (B : Map) (seen : List Want) → IsUnderway B seen self.old → IsUnderway B seen self.new }
        ensures held { (B : Map) (seen : List Want) (store : Blocks) → HoldsLeaf B seen store self.old → HoldsLeaf B seen store self.new }
        ensures rank_falls { rank_of self.new ≤ rank_of self.old }
    {
        let Some(level) = self.level else {
            unreachable!();
        };
        if level == 0 {
            let leaf = behind_all(self.leaf.take());
            put_leaf(&mut self.leaf, leaf);
        } else {
            self.place.path[level as usize - 1] = None;
        }
        self.level = None;
    }

    /// Gives the loan of the leaf back, if one is kept. No tour is let go without it.
    pub fn finish(self, store: &mut Store)
        requires { IfSome self.leaf (IsInHand store.old) }
        ensures back { SameLoans (without_leaf store.old self) store.new }
        ensures serves { (rack : Seen) → Serves rack store.old → Serves rack store.new }
    {
        let Tour {
            scope: _,
            place: _,
            leaf,
            level: _,
        } = self;
        give_leaf(leaf, store);
    }
}

// One step further. The leaf in hand behind it is put into its place.
fn step<R: Rack>(tour: &mut Tour, rack: &mut R, store: &mut Store) -> Result<Step, TreeFault>
    requires ready { IsTourReady (R.seen rack.old) store.old tour.old }
    requires room { 4 ≤ free_count (without_leaf store.old tour.old) }
    ensures ready { IsTourReady (R.seen rack.new) store.new tour.new }
    ensures reads { OnlyReads (R.seen rack.old) (R.seen rack.new) }
    ensures others { SameLoans (without_leaf store.old tour.old) (without_leaf store.new tour.new) }
    ensures scope { tour.new.scope ≡ tour.old.scope }
    ensures level { tour.new.level ≡ None }
    ensures rank_falls { StepRankFalls (rank_of tour.old) (rank_of tour.new) result }
    ensures step { HasStep tour.old.place tour.new.place tour.new.leaf result }
    ensures cause { StepCause store.old.layout (R.seen rack.old) (R.seen rack.new) tour.old.place result }
    ensures content { TellsOf store.old (R.seen rack.old) (R.seen rack.new)
        (λ Is B. IsNextStep Is B store.old store.new tour.old tour.new result) }
{
    let leaf = tour.leaf.take();
    let scope = tour.scope;
    let Advanced { leaf, step } = advance(&mut tour.place, leaf, &scope, rack, store);
    put_leaf(&mut tour.leaf, leaf);
    tour.level = None;
    step
}

/// Answers what is met next; `None` exactly after the last. It takes no memory. Four slots are free besides the leaf's, which the
/// tour keeps.
///
/// The refusal is `Unread`, and comes where a block could not be read; the next call then meets the same. What else is wrong with
/// a block is met as `Met::Fault`, and all that is below that block is left out.
pub fn next<'e, R: Rack>(
    store: &'e mut Store,
    tour: &mut Tour,
    rack: &mut R,
) -> Result<Option<Met<'e>>, TreeFault>
    requires ready { IsTourReady (R.seen rack.old) store.old tour.old }
    requires room { 4 ≤ free_count (without_leaf store.old tour.old) }
    ensures* after { sem 𝓛 (TourEnds store.entry tour.old tour.new (R.seen rack.old) (R.seen rack.new) result) }
    ensures reads { OnlyReads (R.seen rack.old) (R.seen rack.new) }
    ensures scope { tour.new.scope ≡ tour.old.scope }
    ensures level { tour.new.level ≡ level_met result }
    ensures kept { KeepsLeaf tour.new.leaf result }
    ensures rank_falls { NextRankFalls tour.old tour.new result }
    ensures cause { NextCause store.old.layout (R.seen rack.old) (R.seen rack.new) tour.old tour.new result }
{
    match step(tour, rack, store)? {
        Step::End => Ok(None),
        Step::Fault(fault) => Ok(Some(Met::Fault(fault))),
        Step::Child { block, place } => Ok(Some(Met::Child { block, place })),
        Step::Block { place, header } => {
            tour.level = Some(place.level);
            Ok(Some(Met::Block { place, header }))
        }
        Step::Item(at) => {
            let Some(hand) = &tour.leaf else {
                unreachable!();
            };
            Ok(Some(Met::Item(found_at(store.bytes(&hand.loan), hand.pointer.addr, at))))
        }
    }
}
