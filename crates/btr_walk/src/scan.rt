// A scan of a range.
ghost use Rattle.std.specs.Prelude.{◌≡◌, ℕ, ◌≤◌, slice_index_or, IfSome, OnErr, None, Some};
ghost use Rattle.std.specs.Borrow.{sem};
ghost use Rattle.btr_read.specs.Serves.{Serves};
ghost use Rattle.btr_rack.specs.Rack.{OnlyReads};
ghost use Rattle.btr_read.specs.Store.{SameLoans, free_count};
ghost use Rattle.btr_walk.specs.Hand.{IsInHand};
ghost use Rattle.std.specs.Prelude.{[]};
ghost use Rattle.btr_read.specs.Store.{Blocks};
ghost use Rattle.btr_walk.specs.Range.{range};
ghost use Rattle.btr_walk.specs.Reading.{Map, HasCause};
ghost use Rattle.btr_base.specs.declared.key.Key.{Key};
ghost use Rattle.btr_walk.specs.Going.{IsOn, place_prog};
ghost use Rattle.btr_walk.specs.Le.{root_pointer};
ghost use Rattle.btr_walk.specs.Ranks.{IsShaped};
ghost use Rattle.btr_rack.specs.Rack.{Seen};
ghost use Rattle.btr_walk.specs.ScanEnds.{left_of, without_leaf, IsScanReady, KeepsLeaf, NextRankFalls, Paused, ScanEnds};

use crate::advancing::{Advanced, advance};
use crate::beginning::begin;
use crate::finding::found_at;
use crate::leaf_at::{LeafAt, give_leaf, put_leaf};
use crate::scan_place::ScanPlace;
use crate::{Found, RootPlace, TreeFault};
use btr_base::Key;
use btr_rack::Rack;
use btr_read::Store;

/// A scan of the items from one key to another, both included. It keeps at most one loan: that of its leaf. It is not let
/// go but by `finish`.
pub struct Scan {
    pub(crate) lo: Key,
    pub(crate) hi: Key,
    pub(crate) place: ScanPlace,
    pub(crate) leaf: Option<LeafAt>,
}

// The place before all items of a tree.
fn before_all(root: &RootPlace) -> ScanPlace
    ensures leaf { result.leaf ≡ None }
    ensures program { (lo hi : Key) (B : Map) → place_prog lo hi B result.rest ≡ range lo hi root.now }
    ensures todo { result.rest.todo ≡ Some (record { level = root.now.level; pointer = root_pointer root.now }) }
    ensures path { (k : ℕ) → slice_index_or result.rest.path k None ≡ None }
    ensures shaped { IsShaped result.rest }
    ensures on { (lo hi : Key) (B : Map) → IsOn lo hi B [] result }
{
    ScanPlace {
        leaf: None,
        rest: begin(root),
    }
}

impl Scan {
    /// A scan of the tree with this root; nothing is read yet. Where `lo` is above `hi` it has no item.
    pub fn new(root: &RootPlace, lo: Key, hi: Key) -> Scan
        ensures lo { result.lo ≡ lo }
        ensures hi { result.hi ≡ hi }
        ensures leaf { result.leaf ≡ None }
        ensures ready { (rack : Seen) (store : Blocks) → Serves rack store → IsScanReady rack store result }
        ensures program { (B : Map) (store : Blocks) → left_of B store result ≡ range lo hi root.now }
        ensures on { (B : Map) → IsOn lo hi B [] result.place }
    {
        Scan {
            lo,
            hi,
            place: before_all(root),
            leaf: None,
        }
    }

    /// Gives the loan of the leaf back, if one is kept, and stays at its place: the next call of `next` reads the leaf again and
    /// goes on behind the item that was met last. What is still to come stays the same, where the leaf does.
    pub fn pause(&mut self, store: &mut Store)
        requires { IfSome self.old.leaf (IsInHand store.old) }
        ensures back { SameLoans (without_leaf store.old self.old) store.new }
        ensures serves { (rack : Seen) → Serves rack store.old → Serves rack store.new }
        ensures ready { (rack : Seen) → IsScanReady rack store.old self.old → IsScanReady rack store.new self.new }
        ensures paused { Paused store.old store.new self.old self.new }
    {
        if let Some(frame) = give_leaf(self.leaf.take(), store) {
            self.place.leaf = Some(frame);
        }
    }

    /// Gives the loan of the leaf back, if one is kept. No scan is let go without it.
    pub fn finish(self, store: &mut Store)
        requires { IfSome self.leaf (IsInHand store.old) }
        ensures back { SameLoans (without_leaf store.old self) store.new }
        ensures serves { (rack : Seen) → Serves rack store.old → Serves rack store.new }
    {
        let Scan {
            lo: _,
            hi: _,
            place: _,
            leaf,
        } = self;
        give_leaf(leaf, store);
    }
}

/// Answers the next item, whose bytes stand in the slot of its leaf; `None` exactly after the last. It takes no memory.
/// Four slots are free besides the leaf's, which the scan keeps.
///
/// The faults are those of the blocks of the range, in their order: `Lost`, `Unread`, `Unmapped` and `Crosses` of a block,
/// and `Malformed` where one breaks a rule or doesn't fit its place. After a fault and after the last item no loan is kept;
/// after a fault the next call goes on from the same place.
pub fn next<'e, R: Rack>(
    store: &'e mut Store,
    scan: &mut Scan,
    rack: &mut R,
) -> Result<Option<Found<'e>>, TreeFault>
    requires ready { IsScanReady (R.seen rack.old) store.old scan.old }
    requires room { 4 ≤ free_count (without_leaf store.old scan.old) }
    ensures* after { sem 𝓛 (ScanEnds store.entry scan.old scan.new (R.seen rack.old) (R.seen rack.new) result) }
    ensures reads { OnlyReads (R.seen rack.old) (R.seen rack.new) }
    ensures lo { scan.new.lo ≡ scan.old.lo }
    ensures hi { scan.new.hi ≡ scan.old.hi }
    ensures kept { KeepsLeaf result scan.new.leaf }
    ensures rank_falls { NextRankFalls scan.old scan.new result }
    ensures place { OnErr result (scan.new.place ≡ scan.old.place) }
    ensures cause { HasCause store.old.layout (R.seen rack.old) (R.seen rack.new) result }
{
    let leaf = scan.leaf.take();
    let place = &mut scan.place;
    let Advanced { leaf, met } = advance(
        &place.leaf,
        &mut place.rest,
        leaf,
        scan.lo,
        scan.hi,
        rack,
        store,
    );
    put_leaf(&mut scan.leaf, leaf);
    if !met? {
        return Ok(None);
    }
    scan.place.leaf = None;
    let Some(hand) = &scan.leaf else {
        unreachable!();
    };
    Ok(Some(found_at(store.bytes(&hand.loan), hand.pointer.addr, hand.next - 1)))
}
