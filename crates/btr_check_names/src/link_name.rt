/// A name of an inode, as the inode has it. Names are ordered field by field.
#[derive(Clone, Copy, Debug, PartialEq, Eq, PartialOrd, Ord)]
pub(crate) struct LinkName<'a> {
    pub(crate) inode: u64,
    /// The inode of the directory that has the name.
    pub(crate) parent: u64,
    /// The index of the name in that directory.
    pub(crate) index: u64,
    pub(crate) name: &'a [u8],
}
