use btr_base::Memory;
use btr_rack::{AddError, PokeError};
use std::alloc::{AllocError, AllocFailed};

/// Why a test's call of `run` couldn't be made, or what came of it not be kept.
#[derive(Clone, Copy, Debug, PartialEq, Eq)]
pub enum CallFault {
    /// Want of memory.
    Memory,
    /// Images are open already.
    Open,
    /// There is no such image or no such place in it, or it has no superblock.
    Image,
}

impl From<AllocError> for CallFault {
    fn from(_: AllocError) -> CallFault {
        CallFault::Memory
    }
}

impl<T: Drop> From<AllocFailed<T>> for CallFault {
    fn from(_: AllocFailed<T>) -> CallFault {
        CallFault::Memory
    }
}

impl From<Memory> for CallFault {
    fn from(_: Memory) -> CallFault {
        CallFault::Memory
    }
}

impl From<AddError> for CallFault {
    fn from(fault: AddError) -> CallFault {
        match fault {
            AddError::Name => CallFault::Image,
            AddError::Memory => CallFault::Memory,
        }
    }
}

impl From<PokeError> for CallFault {
    fn from(fault: PokeError) -> CallFault {
        match fault {
            PokeError::NoImage => CallFault::Image,
            PokeError::Range => CallFault::Image,
            PokeError::Memory => CallFault::Memory,
        }
    }
}
