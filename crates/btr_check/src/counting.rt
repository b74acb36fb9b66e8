// What uses extents, counted block by block.
ghost use Rattle.std.specs.Prelude.{◌≡◌, fold, map, OnOk, IfOk, Ok};
ghost use Rattle.std.specs.BTreeSet.{contains};
ghost use Rattle.btr_refs.specs.Forward.{tally_with, root_use};
ghost use Rattle.btr_check.specs.Running.{world, CanCheck, Ran};
ghost use Rattle.btr_check.specs.Counting.{BlockCounts, BlocksCount, UsesCount, IsFull};
ghost use Rattle.btr_check.specs.Wanted.{OfPlaces, Only, want_at};

use bitflags::Flags;
use btr_base::Memory;
use btr_findings::Extent;
use btr_items::ExtentFlags;
use btr_rack::Rack;
use btr_read::{Want, fetch};
use btr_refs::Forward;
use btr_volume::{Stop, TreeRoot, Volume};
use btr_walk::{RootPlace, TreeFault};
use std::alloc::Global;
use std::collections::BTreeSet;

/// The addresses of blocks that refer by their own address, as extents say: what [`count_uses`] goes by. `Memory`: there is no memory for them.
pub fn full_backrefs(alloc: Global, extents: &[Extent]) -> Result<BTreeSet<u64>, Memory>
    ensures { IfOk result (IsFull extents.now) }
{
    let mut full = BTreeSet::new(alloc);
    for extent in extents {
        if extent.flags().intersects(ExtentFlags::FULL_BACKREF) {
            match full.insert(extent.addr) {
                Ok(_) => {}
                Err(_) => return Err(Memory),
            }
        }
    }
    Ok(full)
}

// Counts the uses of the trees' root blocks.
fn count_roots(forward: &mut Forward, trees: &[TreeRoot]) -> Result<(), Memory>
    ensures { OnOk result (forward.new ≡ fold tally_with forward.old (map root_use trees.now)) }
{
    for tree in trees {
        forward.add_root(tree)?;
    }
    Ok(())
}

// Counts what a block uses.
fn count_block<R: Rack>(
    forward: &mut Forward,
    place: &RootPlace,
    by_address: bool,
    rack: &mut R,
    vol: &mut Volume,
) -> Result<(), Stop>
    requires ready { CanCheck (world (R.seen rack.old) vol.old) }
    ensures ran { Ran (Only (want_at place.now))
        (λ fs. BlockCounts fs.blocks place.now by_address forward.old forward.new result)
        (world (R.seen rack.old) vol.old) (world (R.seen rack.new) vol.new) result }
{
    let want = Want::Tree {
        addr: place.addr,
        generation: place.generation,
        level: place.level,
    };
    match fetch(&want, rack, &mut vol.store) {
        Err(fault) => Err(Stop::Tree(TreeFault::from(fault))),
        Ok(loan) => {
            let block = vol.store.bytes(&loan);
            let counted = forward.add_block(place.addr, place.level, by_address, block);
            vol.store.give(loan);
            match counted {
                Ok(()) => Ok(()),
                Err(Memory) => Err(Stop::Memory),
            }
        }
    }
}

// Counts what blocks use.
fn count_blocks<R: Rack>(
    forward: &mut Forward,
    places: &[RootPlace],
    full: &BTreeSet<u64>,
    rack: &mut R,
    vol: &mut Volume,
) -> Result<(), Stop>
    requires ready { CanCheck (world (R.seen rack.old) vol.old) }
    ensures ran { Ran (OfPlaces places.now)
        (λ fs. BlocksCount fs.blocks places.now full.now forward.old forward.new result)
        (world (R.seen rack.old) vol.old) (world (R.seen rack.new) vol.new) result }
{
    for place in places {
        let by_address = full.contains(&place.addr);
        count_block(forward, place, by_address, rack, vol)?;
    }
    Ok(())
}

/// Counts what uses extents, beside what was counted: trees use their root blocks, and the blocks
/// at these places what they point to. A block refers by its address where that is one of `full`.
/// Each block is read again; four slots are free.
///
/// `Tree`: a block could not be had any more. `Memory`: there is no memory for what is counted.
pub fn count_uses<R: Rack>(
    mut forward: Forward,
    trees: &[TreeRoot],
    places: &[RootPlace],
    full: &BTreeSet<u64>,
    rack: &mut R,
    vol: &mut Volume,
) -> Result<Forward, Stop>
    requires ready { CanCheck (world (R.seen rack.old) vol.old) }
    ensures ran { Ran (OfPlaces places.now)
        (λ fs. UsesCount fs.blocks forward trees.now places.now full.now result)
        (world (R.seen rack.old) vol.old) (world (R.seen rack.new) vol.new) result }
{
    match count_roots(&mut forward, trees) {
        Ok(()) => {}
        Err(Memory) => return Err(Stop::Memory),
    }
    count_blocks(&mut forward, places, full, rack, vol)?;
    Ok(forward)
}
