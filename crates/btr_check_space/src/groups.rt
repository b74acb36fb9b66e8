// Extents, block groups and chunks that don't agree.
ghost use Rattle.std.specs.Prelude.{◌≡◌, ◌+◌, nat_le, OnOk, IfOk, map, filter_map, option_to_list};
ghost use Rattle.btr_findings.specs.Findings.{Adds};
ghost use Rattle.btr_check_space.specs.AddressRanges.{HoldSame};
ghost use Rattle.btr_check_space.specs.Orders.{group_range};
ghost use Rattle.btr_check_space.specs.Groups.{outside_group, neighbours, overlap, chunk_group, group_chunk, group_used, stated_in, total_used, group_findings};

use crate::bounds::{bounds_of, sum_before, sums_before};
use crate::chunks::spans_of;
use crate::keys::{group_spans, span_ranges};
use crate::span::Span;
use crate::{AddressRange, AddressRanges, Group};
use btr_base::Memory;
use btr_chunk::ChunkTable;
use btr_findings::{Extent, Finding, Found, Kind, push, put_unless, shown, with_room};
use std::alloc::Global;

// The ranges of block groups.
fn group_ranges(alloc: Global, groups: &[Group]) -> Result<AddressRanges, Memory>
    ensures { IfOk result (HoldSame (map group_range groups.now)) }
{
    let mut ranges = with_room(alloc, groups.len())?;
    for group in groups {
        let range = AddressRange {
            start: group.start,
            len: group.len,
        };
        push(&mut ranges, range)?;
    }
    Ok(AddressRanges::new(ranges))
}

// 5: extents that lie in no block group.
fn put_outside(
    alloc: Global,
    found: &mut Found,
    extents: &[Extent],
    groups: &[Group],
) -> Result<(), Memory>
    ensures { OnOk result (Adds (filter_map (outside_group groups.now) extents.now) found.old found.new) }
{
    let ranges = group_ranges(alloc, groups)?;
    for extent in extents {
        let start = u128::from(extent.addr);
        let is_kept = ranges.holds(start, start + u128::from(extent.len));
        put_unless(
            found,
            is_kept,
            Finding::new(Kind::OutsideGroup, [extent.addr, extent.len]),
        )?;
    }
    Ok(())
}

// Whether an extent ends at or before an address.
fn ends_by(extent: &Extent, addr: u64) -> bool
    ensures { result ≡ nat_le (extent.now.addr + extent.now.len) addr }
{
    u128::from(extent.addr) + u128::from(extent.len) <= u128::from(addr)
}

// 6: extents that begin before the end of the one before them.
fn put_overlaps(found: &mut Found, extents: &[Extent]) -> Result<(), Memory>
    ensures { OnOk result (Adds (filter_map overlap (neighbours extents.now)) found.old found.new) }
{
    let Some((mut earlier, rest)) = extents.split_first() else {
        return Ok(());
    };
    for extent in rest {
        let is_kept = ends_by(earlier, extent.addr);
        put_unless(
            found,
            is_kept,
            Finding::new(Kind::Overlap, [extent.addr, earlier.addr]),
        )?;
        earlier = extent;
    }
    Ok(())
}

// 24: chunks without a block group.
fn put_chunk_groups(
    alloc: Global,
    found: &mut Found,
    chunks: &[Span],
    groups: &[Group],
) -> Result<(), Memory>
    ensures { OnOk result (Adds (filter_map (chunk_group groups.now) chunks.now) found.old found.new) }
{
    let spans = group_spans(alloc, groups)?;
    for chunk in chunks {
        put_unless(
            found,
            spans.contains(chunk),
            Finding::new(Kind::ChunkGroup, [chunk.start]),
        )?;
    }
    Ok(())
}

// 25: block groups without a chunk.
fn put_group_chunks(
    alloc: Global,
    found: &mut Found,
    chunks: &[Span],
    groups: &[Group],
) -> Result<(), Memory>
    ensures { OnOk result (Adds (filter_map (group_chunk chunks.now) groups.now) found.old found.new) }
{
    let ranges = span_ranges(alloc, chunks)?;
    for group in groups {
        let range = AddressRange {
            start: group.start,
            len: group.len,
        };
        put_unless(
            found,
            ranges.contains(&range),
            Finding::new(Kind::GroupChunk, [group.start]),
        )?;
    }
    Ok(())
}

// 28: block groups that state another number of bytes in extents.
fn put_group_used(
    alloc: Global,
    found: &mut Found,
    extents: &[Extent],
    groups: &[Group],
) -> Result<(), Memory>
    ensures { OnOk result (Adds (filter_map (group_used extents.now) groups.now) found.old found.new) }
{
    let bounds = bounds_of(alloc, groups)?;
    let sums = sums_before(alloc, &bounds, extents)?;
    for group in groups {
        let start = u128::from(group.start);
        let end = start + u128::from(group.len);
        let used = sum_before(end, &bounds, &sums) - sum_before(start, &bounds, &sums);
        let is_kept = u128::from(group.used) == used;
        put_unless(
            found,
            is_kept,
            Finding::new(Kind::GroupUsed, [group.start, group.used, shown(used)]),
        )?;
    }
    Ok(())
}

// How many bytes block groups state to be in extents. Where the sum would pass the greatest number there is, that is want of memory
// too.
fn stated_in(groups: &[Group]) -> Result<u128, Memory>
    ensures { IfOk result (λ sum. sum ≡ stated_in groups.now) }
{
    let mut sum: u128 = 0;
    for group in groups {
        let Some(more) = sum.checked_add(u128::from(group.used)) else {
            return Err(Memory);
        };
        sum = more;
    }
    Ok(sum)
}

// 30: another sum of these in the superblock.
fn put_total_used(found: &mut Found, stated: u64, groups: &[Group]) -> Result<(), Memory>
    ensures { OnOk result (Adds (option_to_list (total_used stated groups.now)) found.old found.new) }
{
    let sum = stated_in(groups)?;
    put_unless(
        found,
        u128::from(stated) == sum,
        Finding::new(Kind::TotalUsed, [stated, shown(sum)]),
    )
}

/// Puts the findings on extents, block groups and chunks into a set: extents that lie in no block group or
/// overlap the one before them; chunks and block groups without one another; block groups, and a superblock with `bytes_used`, that
/// state another number of bytes in extents. Extents and block groups stand in the order of their items. `Memory`: there is no memory
/// for this.
pub fn put_group_findings(
    alloc: Global,
    found: &mut Found,
    chunks: &ChunkTable,
    extents: &[Extent],
    groups: &[Group],
    bytes_used: u64,
) -> Result<(), Memory>
    ensures { OnOk result (Adds (group_findings chunks.now extents.now groups.now bytes_used) found.old found.new) }
{
    put_outside(alloc, found, extents, groups)?;
    put_overlaps(found, extents)?;
    let spans = spans_of(alloc, chunks)?;
    put_chunk_groups(alloc, found, &spans, groups)?;
    put_group_chunks(alloc, found, &spans, groups)?;
    put_group_used(alloc, found, extents, groups)?;
    put_total_used(found, bytes_used, groups)
}
