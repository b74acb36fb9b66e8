// Inodes, ranges of files and checksums.
use crate::Body;
use btr_base::{Sum, SumKind};
use btr_items::{FileExtent, Inode, Shape};
use std::alloc::{AllocError, Global};

/// An INODE_ITEM, of 160 bytes, of a generation, with `nbytes` bytes in extents.
pub fn inode_item(
    alloc: Global,
    inode: &Inode,
    generation: u64,
    nbytes: u64,
) -> Result<Body, AllocError> {
    Body::new(alloc)
        .u64(generation)?
        .u64(generation)?
        .u64(inode.size)?
        .u64(nbytes)?
        .zeros(8)?
        .u32(inode.nlink)?
        .zeros(8)?
        .u32(inode.mode)?
        .zeros(8)?
        .u64(inode.flags)?
        .zeros(88)
}

/// An EXTENT_DATA that holds the file's bytes, behind 21 of its own.
pub fn inline(alloc: Global, generation: u64, bytes: &[u8]) -> Result<Body, AllocError> {
    let extent = FileExtent {
        generation,
        ram: bytes.len() as u64,
        compression: 0,
        encoded: false,
        shape: Shape::Inline { len: 0 },
    };
    front(alloc, &extent, 0)?.bytes(bytes)
}

/// An EXTENT_DATA, of 53 bytes. One of inline shape has 21, and holds zeros behind them.
pub fn file_extent(alloc: Global, extent: &FileExtent) -> Result<Body, AllocError> {
    match extent.shape {
        Shape::Inline { len } => front(alloc, extent, 0)?.zeros(len as usize),
        Shape::Regular {
            addr,
            disk_len,
            skip,
            len,
        } => place(front(alloc, extent, 1)?, addr, disk_len, skip, len),
        Shape::Prealloc {
            addr,
            disk_len,
            skip,
            len,
        } => place(front(alloc, extent, 2)?, addr, disk_len, skip, len),
    }
}

// The 21 bytes that each EXTENT_DATA begins with.
fn front(alloc: Global, extent: &FileExtent, kind: u8) -> Result<Body, AllocError> {
    Body::new(alloc)
        .u64(extent.generation)?
        .u64(extent.ram)?
        .low_u8(extent.compression)?
        .u8(u8::from(extent.encoded))?
        .u16(0)?
        .u8(kind)
}

// Where an extent lies that isn't inline.
fn place(front: Body, addr: u64, disk_len: u64, skip: u64, len: u64) -> Result<Body, AllocError> {
    front.u64(addr)?.u64(disk_len)?.u64(skip)?.u64(len)
}

/// An EXTENT_CSUM with one more checksum than `sums` has.
pub fn with_sum(sums: Body, kind: SumKind, sum: &Sum) -> Result<Body, AllocError> {
    sums.bytes(&sum.bytes[..kind.size()])
}
