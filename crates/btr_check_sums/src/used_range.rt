/// A range of an extent that a file uses, as an EXTENT_DATA describes it: all of the extent where it is compressed.
#[derive(Clone, Copy, Debug, PartialEq, Eq)]
pub struct UsedRange {
    /// The inode of the file.
    pub inode: u64,
    /// The logical address of the extent.
    pub addr: u64,
    /// Where in the extent the range begins, in bytes.
    pub skip: u64,
    /// How many bytes it has.
    pub len: u64,
}
