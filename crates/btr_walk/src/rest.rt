// A scan that keeps no loan.
ghost use Rattle.std.specs.Prelude.{◌≡◌, ◌-◌, ◌<◌, ◌≤◌, None, IfSome, []};
ghost use Rattle.btr_rack.specs.Rack.{Seen, OnlyReads};
ghost use Rattle.btr_read.specs.Serves.{Serves};
ghost use Rattle.btr_read.specs.Store.{SameLoans, free_count};
ghost use Rattle.btr_walk.specs.Hand.{IsInHand};
ghost use Rattle.btr_walk.specs.Going.{IsOn};
ghost use Rattle.btr_walk.specs.Range.{range};
ghost use Rattle.btr_walk.specs.Ranks.{IsShaped};
ghost use Rattle.btr_walk.specs.Reading.{Map, TellsOf, HasCause};
ghost use Rattle.btr_walk.specs.Rests.{Rests, rest_left, HasMet, LendsMet, IsMetAgain};
ghost use Rattle.btr_walk.specs.ScanEnds.{without_leaf};

use crate::beginning::begin;
use crate::leaf_again::read_leaf;
use crate::leaf_at::LeafAt;
use crate::scan_place::ScanPlace;
use crate::{RootPlace, Scan, TreeFault};
use btr_base::Key;
use btr_rack::Rack;
use btr_read::{Loan, Store};

/// A scan that keeps no loan: where it goes on. It can be copied, and let go.
#[derive(Clone, Copy, Debug, PartialEq, Eq)]
pub struct Rest {
    pub(crate) lo: Key,
    pub(crate) hi: Key,
    pub(crate) place: ScanPlace,
}

/// An item whose leaf was read again.
pub struct MetAgain {
    /// The loan of its leaf.
    pub loan: Loan,
    /// Its place among the leaf's items.
    pub at: usize,
}

// The item before `next` of a leaf in hand.
fn met_in(hand: LeafAt) -> MetAgain
    requires { 0 < hand.next }
    ensures { result ≡ record { loan = hand.loan; at = hand.next - 1 } }
{
    let LeafAt {
        pointer: _,
        next,
        end: _,
        loan,
    } = hand;
    MetAgain { loan, at: next - 1 }
}

impl Rest {
    /// A scan of the tree with this root from `lo` to `hi`, both included; nothing is read yet.
    pub fn new(root: &RootPlace, lo: Key, hi: Key) -> Rest
        ensures lo { result.lo ≡ lo }
        ensures hi { result.hi ≡ hi }
        ensures shaped { IsShaped result.place.rest }
        ensures program { (B : Map) → rest_left B result ≡ range lo hi root.now }
        ensures on { (B : Map) → IsOn lo hi B [] result.place }
    {
        Rest {
            lo,
            hi,
            place: ScanPlace {
                leaf: None,
                rest: begin(root),
            },
        }
    }

    /// The scan that goes on there.
    pub fn scan(self) -> Scan
        ensures { result ≡ record { lo = self.lo; hi = self.hi; place = self.place; leaf = None } }
    {
        Scan {
            lo: self.lo,
            hi: self.hi,
            place: self.place,
            leaf: None,
        }
    }

    /// Reads the leaf of the item that was met last again. It takes no memory, and four slots are free.
    ///
    /// The faults are those of that one block. Where no read failed since it was read, it is there again.
    pub fn met_again<R: Rack>(&self, rack: &mut R, store: &mut Store) -> Result<MetAgain, TreeFault>
        requires serves { Serves (R.seen rack.old) store.old }
        requires room { 4 ≤ free_count store.old }
        requires met { HasMet self.now }
        ensures serves { Serves (R.seen rack.new) store.new }
        ensures reads { OnlyReads (R.seen rack.old) (R.seen rack.new) }
        ensures lent { LendsMet store.old store.new result }
        ensures cause { HasCause store.old.layout (R.seen rack.old) (R.seen rack.new) result }
        ensures content { TellsOf store.old (R.seen rack.old) (R.seen rack.new)
            (λ Is B. IsMetAgain Is B self.now store.new result) }
    {
        let Some(frame) = &self.place.leaf else {
            unreachable!();
        };
        Ok(met_in(read_leaf(frame, rack, store)?))
    }
}

impl Scan {
    /// Gives the loan of the leaf back, if one is kept, and answers where the scan goes on: behind the item that was met last.
    pub fn rest(self, store: &mut Store) -> Rest
        requires { IfSome self.leaf (IsInHand store.old) }
        ensures back { SameLoans (without_leaf store.old self) store.new }
        ensures serves { (rack : Seen) → Serves rack store.old → Serves rack store.new }
        ensures rests { Rests store.old self result }
    {
        let mut scan = self;
        scan.pause(store);
        let Scan {
            lo,
            hi,
            place,
            leaf,
        } = scan;
        match leaf {
            None => Rest { lo, hi, place },
            Some(_) => unreachable!(),
        }
    }
}
