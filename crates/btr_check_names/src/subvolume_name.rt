/// A name of a subvolume. Names are ordered field by field.
#[derive(Clone, Copy, Debug, PartialEq, Eq, PartialOrd, Ord)]
pub(crate) struct SubvolumeName<'a> {
    /// The tree that has the name, by its id.
    pub(crate) parent: u64,
    /// The inode of the directory that has it.
    pub(crate) dirid: u64,
    /// The index of the name in that directory.
    pub(crate) index: u64,
    /// The subvolume's tree, by its id.
    pub(crate) child: u64,
    pub(crate) name: &'a [u8],
}
