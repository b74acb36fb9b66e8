use btr_read::Store;
use btr_super::Super;

/// An opened filesystem.
#[derive(Drop)]
pub struct Volume {
    /// What its blocks are read by.
    pub store: Store,
    /// The newest superblock of its images.
    pub sup: Super,
}
