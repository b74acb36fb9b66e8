// What items of trees say of names.
use btr_base::Key;
use btr_items::item;
use btr_make_blocks::Body;
use btr_tour::{Met, Visitor};
use btr_walk::Found;
use std::alloc::{AllocError, Global};
use std::test::Fail;

/// The key of an item.
pub(super) fn key(objectid: u64, kind: u8, offset: u64) -> Key {
    Key {
        objectid,
        kind,
        offset,
    }
}

/// Meets an item.
pub(super) fn meet<V: Visitor<btr_base::Memory>>(
    visitor: &mut V,
    key: Key,
    body: &Body,
) -> Result<(), Fail> {
    let found = Found {
        key,
        block: 0,
        body: body.as_slice(),
    };
    visitor.meet(&Met::Item(found))?;
    Ok(())
}

/// The body of an INODE_ITEM.
pub(super) fn inode(alloc: Global, size: u64, nlink: u32, mode: u32) -> Result<Body, AllocError> {
    Body::new(alloc)
        .zeros(16)?
        .u64(size)?
        .zeros(16)?
        .u32(nlink)?
        .zeros(8)?
        .u32(mode)?
        .zeros(104)
}

/// The body of an INODE_REF with one name.
pub(super) fn inode_ref(alloc: Global, index: u64, name: &[u8]) -> Result<Body, AllocError> {
    Body::new(alloc)
        .u64(index)?
        .low_u16(name.len())?
        .bytes(name)
}

/// The body of an INODE_EXTREF with one name in directory 256.
pub(super) fn ext_ref(alloc: Global, index: u64, name: &[u8]) -> Result<Body, AllocError> {
    Body::new(alloc)
        .u64(256)?
        .u64(index)?
        .low_u16(name.len())?
        .bytes(name)
}

/// The body of a DIR_INDEX, or of a DIR_ITEM with one entry.
pub(super) fn entry(
    alloc: Global,
    location: Key,
    kind: u8,
    name: &[u8],
) -> Result<Body, AllocError> {
    Body::new(alloc)
        .key(location)?
        .u64(7)?
        .u16(0)?
        .low_u16(name.len())?
        .u8(kind)?
        .bytes(name)
}

/// The body of a ROOT_REF or a ROOT_BACKREF with the name `sub` in directory 256, at index 2.
pub(super) fn root_ref(alloc: Global) -> Result<Body, AllocError> {
    Body::new(alloc).u64(256)?.u64(2)?.u16(3)?.bytes(b"sub")
}

/// The entry of file 257 by a name.
pub(super) fn file_entry(alloc: Global, name: &[u8]) -> Result<Body, AllocError> {
    entry(alloc, key(257, item::INODE_ITEM, 0), 1, name)
}
