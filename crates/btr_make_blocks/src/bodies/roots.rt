use crate::{Body, bodies};
use btr_items::{Inode, RootItem};
use std::alloc::{AllocError, Global};

// The inode that each ROOT_ITEM begins with says nothing of the tree.
const INODE: Inode = Inode {
    size: 3,
    nlink: 1,
    mode: 0o40755,
    flags: 0x8000_0000,
};

/// A ROOT_ITEM of 439 bytes for a tree whose blocks have `used` bytes in all.
pub fn root_item(alloc: Global, root: &RootItem, used: u64) -> Result<Body, AllocError> {
    bodies::inode_item(alloc, &INODE, 1, used)?
        .u64(root.generation)?
        .u64(root.dirid)?
        .u64(root.bytenr)?
        .zeros(8)?
        .u64(used)?
        .zeros(8)?
        .u64(root.flags)?
        .u32(root.refs)?
        .zeros(18)?
        .low_u8(root.level)?
        .u64(root.generation)?
        .zeros(192)
}
