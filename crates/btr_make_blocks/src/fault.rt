use btr_base::Key;
use std::alloc::{AllocError, AllocFailed};

/// Why items make no tree.
#[derive(Clone, Copy, Debug, PartialEq, Eq)]
pub enum GrowFault {
    /// The item of this key is longer than a leaf has room for.
    Long(Key),
    /// There are more blocks than seven levels of nodes have pointers for.
    Tall,
    /// Want of memory.
    Memory,
}

impl From<AllocError> for GrowFault {
    fn from(_: AllocError) -> GrowFault {
        GrowFault::Memory
    }
}

impl<T: Drop> From<AllocFailed<T>> for GrowFault {
    fn from(_: AllocFailed<T>) -> GrowFault {
        GrowFault::Memory
    }
}
