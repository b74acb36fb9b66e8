use crate::listed::Listed;

/// What was met of a filesystem's blocks (`docs/FORMAT.md`, "Checked blocks").
#[derive(Drop)]
pub(crate) struct Gathered {
    /// The checked blocks, and the sectors without a checksum.
    pub list: Listed,
    /// How many sectors of data have no checksum.
    pub unchecked: u64,
}
