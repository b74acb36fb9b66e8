/// A range of logical addresses and its type: what a chunk and its block group agree on.
#[derive(Clone, Copy, Debug, PartialEq, Eq, PartialOrd, Ord)]
pub(crate) struct Span {
    pub(crate) start: u64,
    pub(crate) len: u64,
    pub(crate) flags: u64,
}
