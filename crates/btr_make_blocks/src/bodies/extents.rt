// Extents, and what refers to them.
use crate::Body;
use crate::block::NO_KEY;
use btr_base::crc_register;
use btr_items::{ExtentItem, Link, item};
use std::alloc::{AllocError, Global};

/// The front of an EXTENT_ITEM or, for a tree block without a level, of a METADATA_ITEM: 24 bytes, and 18 for a key and a
/// level, where there is one. Inline references come behind it.
pub fn extent_item(alloc: Global, extent: &ExtentItem) -> Result<Body, AllocError> {
    let front = Body::new(alloc)
        .u64(extent.refs)?
        .u64(extent.generation)?
        .u64(extent.flags)?;
    match extent.level {
        Some(level) => front.key(NO_KEY)?.u8(level),
        None => Ok(front),
    }
}

/// An extent's item with one more inline reference.
pub fn inline_ref(extent: Body, link: &Link, count: u32) -> Result<Body, AllocError> {
    match *link {
        Link::Tree(root) => extent.u8(item::TREE_BLOCK_REF)?.u64(root),
        Link::SharedTree(parent) => extent.u8(item::SHARED_BLOCK_REF)?.u64(parent),
        Link::SharedFile(parent) => extent.u8(item::SHARED_DATA_REF)?.u64(parent)?.u32(count),
        Link::File {
            root,
            objectid,
            offset,
        } => extent
            .u8(item::EXTENT_DATA_REF)?
            .u64(root)?
            .u64(objectid)?
            .u64(offset)?
            .u32(count),
    }
}

/// A reference in an item of its own, whose key has the type of the link, and the root or the block as its offset, or
/// `data_ref_hash`.
pub fn loose_ref(alloc: Global, link: &Link, count: u32) -> Result<Body, AllocError> {
    match *link {
        Link::Tree(_) | Link::SharedTree(_) => Ok(Body::new(alloc)),
        Link::SharedFile(_) => Body::new(alloc).u32(count),
        Link::File {
            root,
            objectid,
            offset,
        } => Body::new(alloc)
            .u64(root)?
            .u64(objectid)?
            .u64(offset)?
            .u32(count),
    }
}

/// The key's offset of an EXTENT_DATA_REF.
pub fn data_ref_hash(root: u64, objectid: u64, offset: u64) -> u64 {
    let high = crc_register(u32::MAX, &root.to_le_bytes());
    let low = crc_register(
        crc_register(u32::MAX, &objectid.to_le_bytes()),
        &offset.to_le_bytes(),
    );
    u64::from(high) << 31 ^ u64::from(low)
}
