// Names of inodes and subvolumes.
use crate::Body;
use crate::block::NO_KEY;
use btr_base::Key;
use std::alloc::{AllocError, Global};

/// The kind of an entry that is an extended attribute.
const XATTR: u8 = 8;

/// An entry of a DIR_ITEM or a DIR_INDEX: 30 bytes, and the name. `kind` is 1 for a file, 2 for a directory and so on.
pub fn entry(
    alloc: Global,
    location: Key,
    transid: u64,
    kind: u8,
    name: &[u8],
) -> Result<Body, AllocError> {
    Body::new(alloc)
        .key(location)?
        .u64(transid)?
        .u16(0)?
        .low_u16(name.len())?
        .u8(kind)?
        .bytes(name)
}

/// An extended attribute of an XATTR_ITEM: 30 bytes, the name and the data.
pub fn xattr(alloc: Global, transid: u64, name: &[u8], data: &[u8]) -> Result<Body, AllocError> {
    Body::new(alloc)
        .key(NO_KEY)?
        .u64(transid)?
        .low_u16(data.len())?
        .low_u16(name.len())?
        .u8(XATTR)?
        .bytes(name)?
        .bytes(data)
}

/// A name of an INODE_REF, by its index in the directory: 10 bytes, and the name.
pub fn inode_ref(alloc: Global, index: u64, name: &[u8]) -> Result<Body, AllocError> {
    Body::new(alloc)
        .u64(index)?
        .low_u16(name.len())?
        .bytes(name)
}

/// A name of an INODE_EXTREF, by its directory and its index there: 18 bytes, and the name.
pub fn ext_ref(alloc: Global, parent: u64, index: u64, name: &[u8]) -> Result<Body, AllocError> {
    Body::new(alloc)
        .u64(parent)?
        .u64(index)?
        .low_u16(name.len())?
        .bytes(name)
}

/// A ROOT_REF or a ROOT_BACKREF: the name of a subvolume, by its directory and its index there. It has 18 bytes, and the name.
pub fn root_ref(alloc: Global, dirid: u64, sequence: u64, name: &[u8]) -> Result<Body, AllocError> {
    ext_ref(alloc, dirid, sequence, name)
}
