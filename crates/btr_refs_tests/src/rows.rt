// Where counted and stored references differ.
use super::stores::{DATA, extent, file, loose, meet, shared};
use btr_base::Memory;
use btr_findings::{Finding, Found, Kind};
use btr_items::item;
use btr_refs::{
    Forward, Stored, StoredList, Used, put_count_findings, put_total_findings, put_use_findings,
};
use std::alloc::Global;
use std::process::Abort;
use std::test::Fail;

// A use of the data extent by each of these inodes, where this is stored.
fn used_by(alloc: Global, stored: StoredList, inodes: &[u64]) -> Result<Forward, Memory> {
    let mut forward = Forward::new(alloc, stored)?;
    for inode in inodes {
        forward.use_extent(DATA, file(*inode), Used::Data(4096))?;
    }
    Ok(forward)
}

// The finding that references of an inode to the data extent are counted otherwise than stored.
fn ref_count(inode: u64, counted: u64, stored: u64) -> Finding {
    Finding {
        kind: Kind::RefCount,
        n: [DATA, 178, 5, inode, 0, counted, stored],
    }
}

// The finding that the data extent states another number of references.
fn ref_total(refs: u64, sum: u64) -> Finding {
    Finding {
        kind: Kind::RefTotal,
        n: [DATA, refs, sum, 0, 0, 0, 0],
    }
}

// The findings are these.
fn finds(
    rt: &impl Abort,
    alloc: Global,
    inodes: &[u64],
    stored: Stored,
    wanted: &[Finding],
) -> Result<(), Fail> {
    let mut found = Found::new(alloc);
    let stored = stored.into_list(alloc)?;
    put_total_findings(&mut found, &stored)?;
    let forward = used_by(alloc, stored, inodes)?;
    put_count_findings(&mut found, &forward)?;
    let found = found.list(alloc)?.to_vec(alloc)?;
    assert_eq!(rt; found.len(), wanted.len());
    for (one, other) in found.iter().zip(wanted) {
        assert_eq!(rt; one, other);
    }
    Ok(())
}

#[test]
fn an_extent_of_two_files(rt: HostRuntime) -> Result<(), Fail> {
    let alloc = rt.alloc();
    finds(&rt, alloc, &[260, 261], shared(alloc, 2)?, &[])?;
    finds(
        &rt,
        alloc,
        &[260, 261],
        shared(alloc, 3)?,
        &[ref_total(3, 2)],
    )?;
    finds(
        &rt,
        alloc,
        &[260],
        shared(alloc, 2)?,
        &[ref_count(261, 0, 1)],
    )?;
    finds(
        &rt,
        alloc,
        &[262, 261, 261],
        shared(alloc, 2)?,
        &[
            ref_count(260, 0, 1),
            ref_count(261, 2, 1),
            ref_count(262, 1, 0),
        ],
    )
}

// A reference that is stored so often, where there is no extent.
fn alone(alloc: Global, count: u32) -> Result<Stored, Fail> {
    let mut stored = Stored::new(alloc, 16384);
    meet(
        &mut stored,
        item::EXTENT_DATA_REF,
        1,
        loose(alloc, count)?.as_slice(),
    )?;
    Ok(stored)
}

#[test]
fn references_without_an_extent(rt: HostRuntime) -> Result<(), Fail> {
    let alloc = rt.alloc();
    finds(&rt, alloc, &[], alone(alloc, 0)?, &[ref_total(0, 0)])?;
    finds(
        &rt,
        alloc,
        &[261],
        alone(alloc, 0)?,
        &[ref_count(261, 1, 0), ref_total(0, 0)],
    )?;
    finds(
        &rt,
        alloc,
        &[],
        alone(alloc, 1)?,
        &[ref_count(261, 0, 1), ref_total(0, 1)],
    )
}

#[test]
fn two_extents_at_one_address(rt: HostRuntime) -> Result<(), Fail> {
    let alloc = rt.alloc();
    let mut stored = shared(alloc, 3)?;
    meet(
        &mut stored,
        item::EXTENT_ITEM,
        8192,
        extent(alloc, 1)?.as_slice(),
    )?;
    finds(&rt, alloc, &[260, 260, 261], stored, &[ref_total(1, 3)])
}

// The findings on the data extent where it is used so.
fn misused(alloc: Global, used: Used) -> Result<Vec<Finding>, Fail> {
    let mut forward = Forward::new(alloc, shared(alloc, 2)?.into_list(alloc)?)?;
    forward.use_extent(DATA, file(260), used)?;
    forward.use_extent(DATA + 4096, file(260), Used::TreeBlock(1))?;
    let mut found = Found::new(alloc);
    put_use_findings(&mut found, &forward)?;
    Ok(found.list(alloc)?.to_vec(alloc)?)
}

#[test]
fn an_extent_that_is_used_otherwise(rt: HostRuntime) -> Result<(), Fail> {
    let alloc = rt.alloc();
    assert_eq!(rt; misused(alloc, Used::Data(4096))?.len(), 0);
    let longer = misused(alloc, Used::Data(8192))?;
    assert_eq!(rt; longer.len(), 1);
    assert_eq!(rt; longer[0].kind, Kind::ExtentLength);
    assert_eq!(rt; longer[0].n, [DATA, 4096, 8192, 0, 0, 0, 0]);
    let block = misused(alloc, Used::TreeBlock(0))?;
    assert_eq!(rt; block.len(), 2);
    assert_eq!(rt; block[0].kind, Kind::ExtentKind);
    assert_eq!(rt; block[0].n, [DATA, 1, 0, 0, 0, 0, 0]);
    assert_eq!(rt; block[1].n, [DATA, 4096, 16384, 0, 0, 0, 0]);
    Ok(())
}
