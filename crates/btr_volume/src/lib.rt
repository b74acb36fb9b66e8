//! Volumes: the images of one filesystem, opened. The newest superblock says where the chunk tree stands, which gives the table of
//! chunks; from then on every tree is found by the root tree. Where its root block has copies that differ, or superblocks of one
//! generation do, the images were written each without the other, and aren't opened together. It is promised to the layer
//! above that the table is that of the chunk tree, or the first refusal, and that a tree's root is the one of its ROOT_ITEM.
//! The definitions are in `specs/`.
#![tactic(auto)]

mod devices;
mod fault;
mod laws;
mod opening;
mod refusing;
mod root;
mod stop;
mod supers;
mod table;
mod tree;
mod volume;
mod which;

pub use fault::{OpenFault, TableFault};
pub use laws::{opened_is_alike, opened_is_of_images};
pub use root::TreeRoot;
pub use stop::Stop;
pub use supers::read_supers;
pub use tree::{chunk_root, named_root, root_at, root_root};
pub use volume::Volume;
pub use which::Which;
