use btr_files::{DirRow, NameBuf};
use btr_volume::TreeRoot;

/// An entry of a directory.
#[derive(Clone, Copy)]
pub struct Entry<'a> {
    /// The tree that the directory stands in.
    pub tree: TreeRoot,
    /// The inode of the directory.
    pub dirid: u64,
    /// 512 directories are entered already.
    pub deep: bool,
    /// What stands in its directory item.
    pub row: DirRow,
    /// Its name.
    pub name: &'a NameBuf,
    /// The path of the entry.
    pub path: &'a [u8],
}
