/// How blocks are mended.
#[derive(Clone, Copy)]
pub(crate) struct Task<'a> {
    /// The size of a node of the filesystem, in bytes.
    pub(crate) nodesize: u32,
    /// Whether what is bad is written anew.
    pub(crate) write: bool,
    /// By slot, whether some checked block doesn't pass at its place on the image.
    pub(crate) failing: &'a [bool],
}

/// Which chunk is scrubbed, and how.
#[derive(Clone, Copy)]
pub(crate) struct ChunkTask<'a> {
    /// Its number in the table.
    pub(crate) number: usize,
    pub(crate) how: Task<'a>,
}
