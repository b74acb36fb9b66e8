/// What an extent is referred to by. In the order of the types of references (176, 178, 182, 184), and then field by field.
#[derive(Clone, Copy, Debug, PartialEq, Eq, PartialOrd, Ord)]
pub enum Link {
    /// A tree, by its id, to a tree block.
    Tree(u64),
    /// A file, to a data extent.
    File {
        /// The id of the tree that has the file.
        root: u64,
        /// The inode.
        objectid: u64,
        /// The offset of the extent's beginning in the file, modulo 2^64.
        offset: u64,
    },
    /// A tree block, by its logical address, to a tree block.
    SharedTree(u64),
    /// A tree block, by its logical address, to a data extent.
    SharedFile(u64),
}
