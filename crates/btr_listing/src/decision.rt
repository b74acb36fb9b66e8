use crate::cause::Cause;
use btr_items::Inode;
use btr_volume::TreeRoot;

/// What an entry of a directory comes to.
#[derive(Clone, Copy, Debug, PartialEq, Eq)]
pub enum Decision {
    /// It is left out.
    Skip(Cause),
    /// A file, by its inode: all its bytes can be read.
    File(Inode),
    /// A directory that stays empty: an entry that isn't the one name of its subvolume.
    Empty,
    /// A directory of a tree, in which is to be listed.
    Folder { tree: TreeRoot, dirid: u64 },
}
