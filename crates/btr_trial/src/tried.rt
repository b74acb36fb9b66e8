/// What the four steps of a trial that are told came to; `None` where one was refused.
#[derive(Clone, Copy, Debug, PartialEq, Eq)]
pub(crate) struct Tried {
    /// How many findings the check had.
    pub(crate) findings: Option<u64>,
    /// Whether the first restore had exactly the files that the volume should hold.
    pub(crate) first: Option<bool>,
    /// How many blocks the scrub left lost.
    pub(crate) lost: Option<u64>,
    /// The same of the second restore.
    pub(crate) second: Option<bool>,
}
