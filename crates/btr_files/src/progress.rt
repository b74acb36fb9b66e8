use btr_volume::TreeRoot;
use btr_walk::Rest;

/// What is known of a file before its extents are read.
#[derive(Clone, Copy, Debug)]
pub(crate) struct Source {
    /// Its size in bytes.
    pub(crate) size: u64,
    /// Its sectors have no checksums.
    pub(crate) nosum: bool,
    /// The checksum tree, if there is one.
    pub(crate) sums: Option<TreeRoot>,
}

/// An inline extent whose bytes are still to come.
#[derive(Clone, Copy, Debug, PartialEq, Eq)]
pub(crate) struct InlinePart {
    /// Its position in the file.
    pub(crate) start: u64,
    /// The logical address of the leaf that it stands in.
    pub(crate) leaf: u64,
    /// How many bytes stand there.
    pub(crate) len: u64,
}

/// Sectors of an extent that are still to come.
#[derive(Clone, Copy, Debug, PartialEq, Eq)]
pub(crate) struct SectorPart {
    /// The position of the first in the file.
    pub(crate) start: u64,
    /// Its logical address.
    pub(crate) addr: u64,
    /// How many there are.
    pub(crate) count: u64,
}

/// What is still to come of the extent that was met last.
#[derive(Clone, Copy, Debug, PartialEq, Eq)]
pub(crate) enum Todo {
    /// Nothing: the next extent is to be read.
    Next,
    /// Zeros up to where it begins, and then its bytes.
    Inline(InlinePart),
    /// Zeros up to where they begin, and then the sectors.
    Sectors(SectorPart),
    /// Nothing, and there is no extent more before the size: only zeros up to it.
    Over,
}

/// How far a file has been given.
#[derive(Clone, Copy, Debug)]
pub(crate) struct Progress {
    /// Where its extents go on: behind the one that was met last.
    pub(crate) rest: Rest,
    /// The file has been given up to this position.
    pub(crate) at: u64,
    /// Where the extent that was met last ends.
    pub(crate) end: u128,
    pub(crate) todo: Todo,
}
