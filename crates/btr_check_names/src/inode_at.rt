// An inode of a tree.
ghost use Rattle.std.specs.Prelude.{◌≡◌};
ghost use Rattle.btr_check_names.specs.Names as words;

use crate::mode_at::{DIRECTORY, format_of};
use btr_items::Inode;

// The number of the old inode cache, which is no inode.
const INODE_CACHE: u64 = u64::MAX - 11;

/// An inode of a tree, and its number.
#[derive(Clone, Copy, Debug, PartialEq, Eq)]
pub struct InodeAt {
    pub number: u64,
    pub inode: Inode,
}

impl InodeAt {
    /// Whether the inode states this many references. The old inode cache is no inode, and may state any number.
    pub(crate) fn has_links(&self, links: u128) -> bool
        ensures { result ≡ words.has_links self.now links }
    {
        self.number == INODE_CACHE || u128::from(self.inode.nlink) == links
    }

    /// Whether the inode is a directory without links.
    pub(crate) fn is_unlinked(&self) -> bool
        ensures { result ≡ words.is_unlinked self.now }
    {
        format_of(&self.inode) == DIRECTORY && self.inode.nlink == 0
    }

    /// Whether the inode has this size, if it is a directory.
    pub(crate) fn has_size(&self, size: u128) -> bool
        ensures { result ≡ words.has_size self.now size }
    {
        format_of(&self.inode) != DIRECTORY || u128::from(self.inode.size) == size
    }
}
