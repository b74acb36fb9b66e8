use crate::tally::Tally;

/// How far a scrub has come: what it wrote, and what it counted.
#[derive(Drop)]
pub(crate) struct ScrubState {
    /// By slot, whether the image was written and not synced since.
    pub(crate) marks: Vec<bool>,
    /// The counts so far.
    pub(crate) tally: Tally,
}
