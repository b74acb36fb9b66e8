// What the copies of an image were so far.
use crate::Super;

/// The newest valid copy, and the first checksum type that isn't supported.
#[derive(Clone, Copy)]
pub(crate) struct Seen {
    pub(crate) newest: Option<Super>,
    pub(crate) kind: Option<u16>,
}
