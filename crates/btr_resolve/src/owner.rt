use btr_volume::TreeRoot;

/// Whose byte is at an address: a file of a tree, and the position in it in bytes.
#[derive(Clone, Copy, Debug, PartialEq, Eq)]
pub(crate) struct Owner {
    pub(crate) tree: TreeRoot,
    pub(crate) inode: u64,
    pub(crate) position: u64,
}

/// Where the extents end that were met last: the file, and the position in it in bytes.
#[derive(Clone, Copy, Debug, PartialEq, Eq)]
pub(crate) struct Met {
    pub(crate) inode: u64,
    pub(crate) end: u128,
}
