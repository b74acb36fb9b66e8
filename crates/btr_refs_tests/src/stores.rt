// What items of an extent tree store.
use btr_base::{Key, Memory};
use btr_items::{ExtentFlags, Link, item};
use btr_make_blocks::Body;
use btr_refs::{RefKey, Stored, StoredList};
use btr_tour::{Met, Visitor};
use btr_walk::Found;
use std::alloc::{AllocError, Global};
use std::test::Fail;

/// Where the data extent of these tests is.
pub(super) const DATA: u64 = 16777216;

/// A reference of a file of tree 5, from the file's beginning on.
pub(super) fn file(objectid: u64) -> Link {
    Link::File {
        root: 5,
        objectid,
        offset: 0,
    }
}

// The key of an item of the data extent.
fn key(kind: u8, offset: u64) -> Key {
    Key {
        objectid: DATA,
        kind,
        offset,
    }
}

/// The item of an extent that states `refs`, with one reference in it, of inode 260.
pub(super) fn extent(alloc: Global, refs: u64) -> Result<Body, AllocError> {
    Body::new(alloc)
        .u64(refs)?
        .u64(8)?
        .u64(ExtentFlags::DATA.0)?
        .u8(item::EXTENT_DATA_REF)?
        .u64(5)?
        .u64(260)?
        .u64(0)?
        .u32(1)
}

/// A reference in an item of its own, of inode 261.
pub(super) fn loose(alloc: Global, count: u32) -> Result<Body, AllocError> {
    Body::new(alloc).u64(5)?.u64(261)?.u64(0)?.u32(count)
}

/// Meets an item.
pub(super) fn meet(stored: &mut Stored, kind: u8, offset: u64, body: &[u8]) -> Result<(), Memory> {
    stored.meet(&Met::Item(Found {
        key: key(kind, offset),
        block: 2129920,
        body,
    }))
}

/// How often a reference to the data extent is stored.
pub(super) fn times(stored: &StoredList, link: Link) -> u64 {
    let key = RefKey::new(DATA, link);
    let mut times = 0;
    for one in stored.refs() {
        if one.key == key {
            times = one.count;
        }
    }
    times
}

/// The extent with two references, one in its item and one in an item of its own.
pub(super) fn shared(alloc: Global, refs: u64) -> Result<Stored, Fail> {
    let mut stored = Stored::new(alloc, 16384);
    meet(
        &mut stored,
        item::EXTENT_ITEM,
        4096,
        extent(alloc, refs)?.as_slice(),
    )?;
    meet(
        &mut stored,
        item::EXTENT_DATA_REF,
        1,
        loose(alloc, 1)?.as_slice(),
    )?;
    Ok(stored)
}

#[test]
fn inline_and_loose_references_are_stored(rt: HostRuntime) -> Result<(), Fail> {
    let alloc = rt.alloc();
    let stored = shared(alloc, 2)?.into_list(alloc)?;
    assert_eq!(rt; stored.extents().len(), 1);
    assert_eq!(rt; stored.extents()[0].len, 4096);
    assert_eq!(rt; stored.extents()[0].refs, 2);
    for (objectid, count) in [(259, 0), (260, 1), (261, 1)] {
        assert_eq!(rt; times(&stored, file(objectid)), count);
    }
    Ok(())
}

#[test]
fn other_items_and_broken_ones_say_nothing(rt: HostRuntime) -> Result<(), Fail> {
    let alloc = rt.alloc();
    let mut stored = Stored::new(alloc, 16384);
    meet(&mut stored, item::BLOCK_GROUP_ITEM, 4096, &[])?;
    meet(&mut stored, item::EXTENT_ITEM, 4096, &[0; 23])?;
    meet(&mut stored, item::EXTENT_DATA_REF, 1, &[0; 27])?;
    // A level that no block has.
    let extent = extent(alloc, 1)?;
    meet(&mut stored, item::METADATA_ITEM, 8, extent.as_slice())?;
    let stored = stored.into_list(alloc)?;
    assert_eq!(rt; stored.extents().len(), 0);
    assert_eq!(rt; stored.refs().len(), 0);
    Ok(())
}

#[test]
fn references_that_come_again_and_in_any_order_are_summed(rt: HostRuntime) -> Result<(), Fail> {
    let alloc = rt.alloc();
    let mut stored = shared(alloc, 4)?;
    let extent = extent(alloc, 4)?;
    meet(&mut stored, item::EXTENT_ITEM, 4096, extent.as_slice())?;
    let loose = loose(alloc, 3)?;
    meet(&mut stored, item::EXTENT_DATA_REF, 2, loose.as_slice())?;
    let stored = stored.into_list(alloc)?;
    assert_eq!(rt; stored.refs().len(), 2);
    assert_eq!(rt; times(&stored, file(260)), 2);
    assert_eq!(rt; times(&stored, file(261)), 4);
    Ok(())
}
