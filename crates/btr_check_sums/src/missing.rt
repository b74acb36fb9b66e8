// Sectors that files use and that have no checksum.
ghost use Rattle.std.specs.Prelude.{◌≡◌, IfOk, map};
ghost use Rattle.btr_check_space.specs.AddressRanges.{HoldSame};
ghost use Rattle.btr_check_sums.specs.Putting.{PutsBySums, PutsMissing};
ghost use Rattle.btr_check_sums.specs.Sums.{len_in_chunk, run_range, tree_missing, used_missing};
ghost use Rattle.btr_check_sums.specs.Ranks.{Inodes};

use crate::sector_test::{SectorTest, put_broken};
use crate::{SumPlaces, UsedRange};
use btr_base::Memory;
use btr_check_space::{AddressRange, AddressRanges, Reach};
use btr_chunk::ChunkTable;
use btr_findings::{Found, SectorRule, push, with_room};
use btr_items::SumRun;
use std::alloc::Global;
use std::collections::BTreeSet;

/// The ranges of addresses that have checksums. `Memory`: there is no memory for them, or a run has 2^64 bytes or more, which no item says.
pub fn sum_ranges(alloc: Global, runs: &[SumRun]) -> Result<AddressRanges, Memory>
    ensures { IfOk result (HoldSame (map run_range runs.now)) }
{
    let mut ranges = with_room(alloc, runs.len())?;
    for run in runs {
        let Some(len) = run.count.checked_mul(4096) else {
            return Err(Memory);
        };
        let range = AddressRange {
            start: run.start,
            len,
        };
        push(&mut ranges, range)?;
    }
    Ok(AddressRanges::new(ranges))
}

// How many bytes of a range lie in the chunk that holds the extent's address.
fn len_in_chunk(chunks: &ChunkTable, range: &UsedRange) -> u64
    ensures { result ≡ len_in_chunk chunks.now range.now }
{
    match chunks.find(range.addr) {
        None => 0,
        Some(chunk) => {
            let end = chunk.start + chunk.length;
            let start = range.addr.saturating_add(range.skip);
            range.len.min(end.saturating_sub(start))
        }
    }
}

// Whether sectors have a checksum.
#[derive(Drop)]
struct Summed<'a>(&'a AddressRanges);

impl SectorTest for Summed<'_> {
    ghost use Rattle.btr_check_space.specs.AddressRanges.{is_held_from};

    ghost keeps = { λ summed sector. is_held_from 1 summed.0.now sector };

    fn reach(&self, sector: u128) -> Reach {
        self.0.reach(sector, 1)
    }
}

// 12: the sectors of a range that have no checksum.
fn put_range(
    found: &mut Found,
    tree: u64,
    range: &UsedRange,
    places: &SumPlaces<'_>,
) -> Result<(), Memory>
    ensures { PutsBySums places.now.sums.now (λ runs. used_missing places.now.chunks.now runs tree range.now) found.old found.new result }
{
    let inode = range.inode;
    let start = u128::from(range.addr) + u128::from(range.skip);
    let count = len_in_chunk(places.chunks, range) / 4096;
    let rule = SectorRule::Missing { tree, inode };
    put_broken(found, rule, start, count, &Summed(places.sums))
}

// 12: the same, unless the file has no checksums.
fn put_range_missing(
    found: &mut Found,
    tree: u64,
    loose: &BTreeSet<u64>,
    range: &UsedRange,
    places: &SumPlaces<'_>,
) -> Result<(), Memory>
    ensures { PutsMissing tree range.now loose.now places.now.chunks.now places.now.sums.now found.old found.new result }
{
    if loose.contains(&range.inode) {
        return Ok(());
    }
    put_range(found, tree, range, places)
}

// The inodes whose data has no checksums.
fn inodes_of(alloc: Global, loose: &[u64]) -> Result<BTreeSet<u64>, Memory>
    ensures { IfOk result (Inodes loose.now) }
{
    let mut inodes = BTreeSet::new(alloc);
    for inode in loose {
        match inodes.insert(*inode) {
            Ok(_) => {}
            Err(_) => return Err(Memory),
        }
    }
    Ok(inodes)
}

/// Puts the findings on checksums that a tree of files lacks: the sectors of the ranges that its files use, and that have no checksum, but for
/// the files in `loose`, whose data has none. Of a range the sectors count that lie in the chunk that holds the extent's address. `Memory`:
/// there is no memory for them.
pub fn put_missing_sums(
    alloc: Global,
    found: &mut Found,
    tree: u64,
    loose: &[u64],
    used: &[UsedRange],
    places: &SumPlaces<'_>,
) -> Result<(), Memory>
    ensures { PutsBySums places.now.sums.now (λ runs. tree_missing places.now.chunks.now runs tree loose.now used.now) found.old found.new result }
{
    let inodes = inodes_of(alloc, loose)?;
    for range in used {
        put_range_missing(found, tree, &inodes, range, places)?;
    }
    Ok(())
}
