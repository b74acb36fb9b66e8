// A walk over all blocks of a tree.
ghost use Rattle.std.specs.Prelude.{◌≡◌, ◌≤◌, [], IfSome, None};
ghost use Rattle.std.specs.Borrow.{sem};
ghost use Rattle.btr_rack.specs.Rack.{OnlyReads, Seen};
ghost use Rattle.btr_read.specs.Serves.{Serves};
ghost use Rattle.btr_read.specs.Store.{Blocks, SameLoans, IsLiveIn, free_count};
ghost use Rattle.btr_walk.specs.Blocks.{blocks};
ghost use Rattle.btr_walk.specs.Lending.{base};
ghost use Rattle.btr_walk.specs.Preorder.{IsAmong, IsReadyFor, blocks_left, without_block, BlockScanEnds, KeepsBlock, NextBlockRankFalls};
ghost use Rattle.btr_walk.specs.Reading.{Map, HasCause};

use crate::beginning::begin;
use crate::finding::keep;
use crate::found_block::FoundBlock;
use crate::going::Where;
use crate::preorder::{Entry, step_block};
use crate::{RootPlace, TreeFault};
use btr_rack::Rack;
use btr_read::{Loan, Store};

/// A walk over all blocks of a tree, each before its children, and these in the order of their keys. It keeps at most one
/// loan: that of the block that was met last. It is not let go but by `finish`.
pub struct BlockScan {
    pub(crate) place: Where,
    pub(crate) loan: Option<Loan>,
}

// Gives a loan back, if there is one.
fn give_back(loan: Option<Loan>, store: &mut Store)
    requires { IfSome loan (IsLiveIn store.old) }
    ensures back { SameLoans (base store.old loan) store.new }
    ensures serves { (rack : Seen) → Serves rack store.old → Serves rack store.new }
{
    match loan {
        None => {}
        Some(loan) => store.give(loan),
    }
}

impl BlockScan {
    /// A walk over the tree with this root; nothing is read yet.
    pub fn new(root: &RootPlace) -> BlockScan
        ensures loan { result.loan ≡ None }
        ensures ready { (rack : Seen) (store : Blocks) → Serves rack store → IsReadyFor rack store result }
        ensures program { (B : Map) → blocks_left B result ≡ blocks root.now }
        ensures on { (B : Map) → IsAmong B [] result.place }
    {
        BlockScan {
            place: begin(root),
            loan: None,
        }
    }

    /// Gives the loan of the block back, if one is kept. No walk is let go without it.
    pub fn finish(self, store: &mut Store)
        requires { IfSome self.loan (IsLiveIn store.old) }
        ensures back { SameLoans (without_block store.old self) store.new }
        ensures serves { (rack : Seen) → Serves rack store.old → Serves rack store.new }
    {
        let BlockScan { place: _, loan } = self;
        give_back(loan, store);
    }
}

/// Answers the next block, whose bytes stand in its slot; `None` exactly after the last. It takes no memory. Four slots are
/// free besides that of the block before, which is given back.
///
/// The faults are those of the blocks of the tree, in their order: `Lost`, `Unread`, `Unmapped` and `Crosses` of a block, and
/// `Malformed` where one breaks a rule or doesn't fit its place. After a fault and after the last block no loan is kept;
/// after a fault the next call goes on from the same place.
pub fn next_block<'e, R: Rack>(
    store: &'e mut Store,
    scan: &mut BlockScan,
    rack: &mut R,
) -> Result<Option<FoundBlock<'e>>, TreeFault>
    requires ready { IsReadyFor (R.seen rack.old) store.old scan.old }
    requires room { 4 ≤ free_count (without_block store.old scan.old) }
    ensures* after { sem 𝓛 (BlockScanEnds store.entry scan.old scan.new (R.seen rack.old) (R.seen rack.new) result) }
    ensures reads { OnlyReads (R.seen rack.old) (R.seen rack.new) }
    ensures kept { KeepsBlock result scan.new }
    ensures rank_falls { NextBlockRankFalls scan.old scan.new result }
    ensures cause { HasCause store.old.layout (R.seen rack.old) (R.seen rack.new) result }
{
    give_back(scan.loan.take(), store);
    match step_block(&scan.place, rack, store)? {
        None => Ok(None),
        Some(entry) => {
            let Entry {
                addr,
                level,
                loan,
                place,
            } = entry;
            scan.place = place;
            keep(&mut scan.loan, loan);
            let Some(held) = &scan.loan else {
                unreachable!();
            };
            Ok(Some(FoundBlock {
                addr,
                level,
                bytes: store.bytes(held),
            }))
        }
    }
}
