use crate::doubts::Doubts;
use crate::stripe::FullStripe;
use btr_read::Want;

// The row of some wants, which are its checked blocks and plain sectors.
#[derive(Clone, Copy)]
pub(crate) struct WantedRow<'a> {
    pub(crate) wants: &'a [Want],
    pub(crate) stripe: FullStripe,
    // What is known of its images.
    pub(crate) doubts: Doubts,
}
