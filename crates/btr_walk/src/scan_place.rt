use crate::frame::Frame;
use crate::going::Where;

/// Where a scan is: the leaf that was given back, of which some items are still to come, if there is one, and what comes
/// behind it.
#[derive(Clone, Copy, Debug, PartialEq, Eq)]
pub(crate) struct ScanPlace {
    pub(crate) leaf: Option<Frame>,
    pub(crate) rest: Where,
}
