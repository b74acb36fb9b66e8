// Checks of subvolumes that share blocks, in which one thing is wrong.
mod blocks;
mod damage;
mod places;
mod rows;

use blocks::{entry_at, pointer_at, seal_block, undo, write_over};
use btr_base::Key;
use btr_check::check;
use btr_findings::{Finding, Kind};
use btr_items::item::EXTENT_CSUM;
use btr_make::{RowVolume, row};
use btr_rack::{MemRack, Rack};
use btr_volume::Volume;
use damage::{Row, damage, wanted};
use places::{DIFFERING, DIFFERING_NAMES, EXTENTS, POINTERS, Place, SHARED, SUMS};
use rows::{BLOCK_ROWS, NAME_ROWS, SUBVOLUME_ROWS};
use std::alloc::Global;
use std::process::Abort;
use std::test::Fail;

// What is found on a volume.
fn found_on(alloc: Global, rack: &mut MemRack, data: bool) -> Result<Vec<Finding>, Fail> {
    rack.close_all();
    rack.open("a", false)?;
    let Ok(mut vol) = Volume::open(alloc, rack) else {
        return Err("it wasn't opened")?;
    };
    let Ok(findings) = check(alloc, data, rack, &mut vol) else {
        return Err("it wasn't checked")?;
    };
    Ok(findings.to_vec(alloc)?)
}

// One row after another, in one place after another.
fn try_rows(
    rt: &impl Abort,
    alloc: Global,
    volume: RowVolume,
    places: &[Place],
    rows: &[Row],
) -> Result<(), Fail> {
    let mut rack = row(alloc, volume)?;
    for place in places {
        for one in rows {
            let olds = damage(alloc, &mut rack, place, one)?;
            let found = found_on(alloc, &mut rack, false)?;
            let wanted = wanted(alloc, place, one)?;
            assert_eq!(rt; found.as_slice(), wanted.as_slice(), "{place:?} {one:?}");
            undo(&mut rack, place.leaf, olds.as_slice())?;
        }
    }
    Ok(())
}

#[test]
fn nothing_is_wrong(rt: HostRuntime) -> Result<(), Fail> {
    for volume in [RowVolume::Differing, RowVolume::DifferingNames] {
        let mut rack = row(rt.alloc(), volume)?;
        let found = found_on(rt.alloc(), &mut rack, true)?;
        assert!(rt; found.is_empty(), "{volume:?}");
    }
    Ok(())
}

#[test]
fn blocks_that_are_wrong(rt: HostRuntime) -> Result<(), Fail> {
    try_rows(&rt, rt.alloc(), RowVolume::Differing, &SHARED, &BLOCK_ROWS)?;
    try_rows(
        &rt,
        rt.alloc(),
        RowVolume::Differing,
        &DIFFERING,
        &BLOCK_ROWS,
    )
}

#[test]
fn names_that_are_wrong_in_all_trees(rt: HostRuntime) -> Result<(), Fail> {
    try_rows(&rt, rt.alloc(), RowVolume::Differing, &SHARED, &NAME_ROWS)
}

#[test]
fn names_that_are_wrong_in_some_trees(rt: HostRuntime) -> Result<(), Fail> {
    try_rows(
        &rt,
        rt.alloc(),
        RowVolume::Differing,
        &DIFFERING,
        &NAME_ROWS,
    )
}

#[test]
fn subvolumes_without_their_entries(rt: HostRuntime) -> Result<(), Fail> {
    for place in SHARED.iter().filter(|place| place.child.is_some()) {
        try_rows(
            &rt,
            rt.alloc(),
            RowVolume::Differing,
            &[*place],
            &SUBVOLUME_ROWS,
        )?;
    }
    let volume = RowVolume::DifferingNames;
    try_rows(&rt, rt.alloc(), volume, &DIFFERING_NAMES, &SUBVOLUME_ROWS)?;
    try_rows(&rt, rt.alloc(), volume, &DIFFERING_NAMES, &NAME_ROWS)
}

// A finding of one number.
fn of_one(kind: Kind, n: u64) -> Finding {
    Finding {
        kind,
        n: [n, 0, 0, 0, 0, 0, 0],
    }
}

// An address in no chunk, and one from which a block passes the end of the metadata.
const ASTRAY: [(Kind, u64); 2] = [(Kind::Unmapped, 1 << 40), (Kind::Crosses, 10481664)];

#[test]
fn pointers_that_go_astray(rt: HostRuntime) -> Result<(), Fail> {
    let mut rack = row(rt.alloc(), RowVolume::Differing)?;
    for pointer in &POINTERS {
        for (kind, addr) in &ASTRAY {
            let at = pointer_at(pointer.node, pointer.number);
            let old = write_over(rt.alloc(), &mut rack, at, &addr.to_le_bytes())?;
            seal_block(&mut rack, pointer.node)?;
            let found = found_on(rt.alloc(), &mut rack, false)?;
            let wanted = [of_one(*kind, *addr)];
            assert_eq!(rt; found.as_slice(), wanted.as_slice(), "{pointer:?}");
            undo(&mut rack, pointer.node, &[old])?;
        }
    }
    Ok(())
}

// The beginning of the data, how far two extents are apart, and how long each is.
const DATA: u64 = 16777216;

const STEP: u64 = 8192;

const EXTENT: u64 = 4096;

// The key of the checksum at an address.
fn sum_key(addr: u64) -> Key {
    Key {
        objectid: 0xffff_ffff_ffff_fff6,
        kind: EXTENT_CSUM,
        offset: addr,
    }
}

#[test]
fn checksums_of_other_sectors(rt: HostRuntime) -> Result<(), Fail> {
    let mut rack = row(rt.alloc(), RowVolume::Differing)?;
    for extent in &EXTENTS {
        let addr = extent.number.wrapping_mul(STEP).wrapping_add(DATA);
        let gap = addr.wrapping_add(EXTENT);
        let entry = entry_at(&rack, SUMS, sum_key(addr))?;
        let at = entry.wrapping_add(9);
        let old = write_over(rt.alloc(), &mut rack, at, &gap.to_le_bytes())?;
        seal_block(&mut rack, SUMS)?;
        let mut wanted = Vec::new(rt.alloc());
        for tree in extent.trees {
            wanted.push(Finding {
                kind: Kind::SumMissing,
                n: [*tree, extent.file, addr, 0, 0, 0, 0],
            })?;
        }
        wanted.push(of_one(Kind::SumStray, gap))?;
        let found = found_on(rt.alloc(), &mut rack, false)?;
        assert_eq!(rt; found.as_slice(), wanted.as_slice(), "{extent:?}");
        undo(&mut rack, SUMS, &[old])?;
    }
    Ok(())
}
