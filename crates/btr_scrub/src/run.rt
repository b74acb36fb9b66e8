/// Blocks or sectors that follow each other.
#[derive(Clone, Copy, Debug, PartialEq, Eq)]
pub(crate) struct Run {
    /// The address of the first.
    pub(crate) addr: u64,
    /// What they are.
    pub(crate) kind: RunKind,
}

/// What a run is of.
#[derive(Clone, Copy, Debug, PartialEq, Eq)]
pub(crate) enum RunKind {
    /// One tree block.
    TreeBlock,
    /// So many sectors of data that have a checksum.
    Sectors(u32),
    /// So many that have none.
    Unsummed(u32),
}

/// What is wanted of a tree block beside its address.
#[derive(Clone, Copy, Debug, PartialEq, Eq)]
pub(crate) struct TreeMark {
    /// The transaction that wrote it.
    pub(crate) generation: u64,
    pub(crate) level: u8,
}
