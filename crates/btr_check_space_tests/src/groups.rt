// Extents, block groups and chunks.
use super::space::{DATA, METADATA, MIB, extent, finds, group, sound};
use btr_findings::Kind;
use std::test::Fail;

#[test]
fn extents_lie_in_groups_and_apart(rt: HostRuntime) -> Result<(), Fail> {
    let alloc = rt.alloc();
    finds(&rt, alloc, &sound(alloc)?, &[])?;
    let mut at_the_end = sound(alloc)?;
    at_the_end.extents.push(extent(20 * MIB, 0))?;
    finds(&rt, alloc, &at_the_end, &[])?;
    let mut outside = sound(alloc)?;
    outside.extents.push(extent(20 * MIB, 4096))?;
    finds(
        &rt,
        alloc,
        &outside,
        &[(Kind::OutsideGroup, 20 * MIB, 4096, 0)],
    )?;
    let mut overlapping = sound(alloc)?;
    if let Some(second) = overlapping.extents.get_mut(1) {
        second.addr = MIB + 4096;
    }
    finds(
        &rt,
        alloc,
        &overlapping,
        &[(Kind::Overlap, MIB + 4096, MIB, 0)],
    )
}

#[test]
fn groups_are_those_of_chunks(rt: HostRuntime) -> Result<(), Fail> {
    let alloc = rt.alloc();
    let mut other_type = sound(alloc)?;
    if let Some(first) = other_type.groups.get_mut(0) {
        first.flags = METADATA;
    }
    finds(&rt, alloc, &other_type, &[(Kind::ChunkGroup, MIB, 0, 0)])?;
    let mut without_chunk = sound(alloc)?;
    without_chunk.groups.push(group(64 * MIB, MIB, 0, DATA))?;
    finds(
        &rt,
        alloc,
        &without_chunk,
        &[(Kind::GroupChunk, 64 * MIB, 0, 0)],
    )
}

#[test]
fn used_bytes_add_up(rt: HostRuntime) -> Result<(), Fail> {
    let alloc = rt.alloc();
    let mut other_used = sound(alloc)?;
    if let Some(first) = other_used.groups.get_mut(0) {
        first.used = 8192;
    }
    other_used.used = 24576;
    finds(
        &rt,
        alloc,
        &other_used,
        &[(Kind::GroupUsed, MIB, 8192, 12288)],
    )?;
    let mut other_total = sound(alloc)?;
    other_total.used = 28673;
    finds(
        &rt,
        alloc,
        &other_total,
        &[(Kind::TotalUsed, 28673, 28672, 0)],
    )?;
    let mut too_large = sound(alloc)?;
    if let Some(first) = too_large.groups.get_mut(0) {
        first.used = u64::MAX;
    }
    too_large.used = 16383;
    let wanted = [
        (Kind::GroupUsed, MIB, u64::MAX, 12288),
        (Kind::TotalUsed, 16383, u64::MAX, 0),
    ];
    finds(&rt, alloc, &too_large, &wanted)
}
