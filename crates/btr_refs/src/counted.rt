use crate::RefKey;

/// A reference that is met, and how often it is.
#[derive(Clone, Copy, Debug, PartialEq, Eq)]
pub struct Counted {
    /// The reference.
    pub key: RefKey,
    /// How often it is met.
    pub count: u64,
}
