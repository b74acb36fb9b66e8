// Chunks, their groups and their devices.
use crate::Body;
use btr_chunk::Stripe;
use btr_items::{BlockGroup, DevExtent, DevItem};
use std::alloc::{AllocError, Global};

const ELEMENT: u32 = 65536;

const SECTOR: u32 = 4096;

// The bit of the type RAID10.
const RAID10: u64 = 0x40;

/// A CHUNK_ITEM of a length in bytes and a type, whose bytes lie on these stripes: 48 bytes, and 32 a stripe.
pub fn chunk_item(
    alloc: Global,
    length: u64,
    kind: u64,
    stripes: &[Stripe],
) -> Result<Body, AllocError> {
    let mut body = Body::new(alloc)
        .u64(length)?
        .u64(2)?
        .u64(u64::from(ELEMENT))?
        .u64(kind)?
        .u32(ELEMENT)?
        .u32(ELEMENT)?
        .u32(SECTOR)?
        .low_u16(stripes.len())?
        .u16(if kind & RAID10 != 0 { 2 } else { 1 })?;
    for stripe in stripes {
        body = body
            .u64(stripe.devid)?
            .u64(stripe.offset)?
            .bytes(&stripe.uuid)?;
    }
    Ok(body)
}

/// A BLOCK_GROUP_ITEM, of 24 bytes.
pub fn block_group(alloc: Global, group: &BlockGroup) -> Result<Body, AllocError> {
    Body::new(alloc)
        .u64(group.used)?
        .u64(group.owner)?
        .u64(group.flags)
}

/// A DEV_EXTENT, of 48 bytes.
pub fn dev_extent(
    alloc: Global,
    extent: &DevExtent,
    chunk_tree_uuid: &[u8; 16],
) -> Result<Body, AllocError> {
    Body::new(alloc)
        .u64(3)?
        .u64(256)?
        .u64(extent.chunk)?
        .u64(extent.length)?
        .bytes(chunk_tree_uuid)
}

/// A DEV_ITEM, of 98 bytes, as the chunk tree has it and a superblock for its own device.
pub fn dev_item(alloc: Global, device: &DevItem, fsid: &[u8; 16]) -> Result<Body, AllocError> {
    Body::new(alloc)
        .u64(device.devid)?
        .u64(device.total)?
        .u64(device.used)?
        .u32(SECTOR)?
        .u32(SECTOR)?
        .u32(SECTOR)?
        .zeros(30)?
        .bytes(&device.uuid)?
        .bytes(fsid)
}
