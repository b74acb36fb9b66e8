//! The bodies of items, one function a type. Times, users and whatever nothing reads are zeros. `AllocError` of
//! each is want of memory.

mod chunks;
mod extents;
mod files;
mod names;
mod roots;

pub use chunks::{block_group, chunk_item, dev_extent, dev_item};
pub use extents::{data_ref_hash, extent_item, inline_ref, loose_ref};
pub use files::{file_extent, inline, inode_item, with_sum};
pub use names::{entry, ext_ref, inode_ref, root_ref, xattr};
pub use roots::root_item;
