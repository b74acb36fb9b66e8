/// Which full stripe of a filesystem (`docs/FORMAT.md`, "Full stripes").
#[derive(Clone, Copy, Debug, PartialEq, Eq)]
pub struct RowAt {
    /// The start of its chunk.
    pub chunk: u64,
    /// Its number in the chunk, from 0.
    pub number: u64,
    /// The size of a node of the filesystem, in bytes.
    pub nodesize: u32,
}
