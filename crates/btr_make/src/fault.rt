use btr_base::Memory;
use btr_chunk::{AddFault, ChunkFault};
use btr_make_blocks::GrowFault;
use btr_rack::{AddError, PokeError};
use std::alloc::{AllocError, AllocFailed};

/// Why no volume is made. With memory at hand only a plan that contradicts itself is refused, and none here does.
#[derive(Clone, Copy, Debug, PartialEq, Eq)]
pub(crate) enum MakeFault {
    /// Want of memory.
    Memory,
    /// The items of a tree make none.
    Tree(GrowFault),
    /// A chunk breaks the rule of chunks, or meets another.
    Chunk,
    /// Bytes lie in no chunk, or not in one piece.
    Unmapped,
    /// A place isn't in an image.
    Place,
    /// The extent tree's own blocks don't become settled, or the root tree has more than one leaf.
    Unsettled,
}

impl From<AllocError> for MakeFault {
    fn from(_: AllocError) -> MakeFault {
        MakeFault::Memory
    }
}

impl<T: Drop> From<AllocFailed<T>> for MakeFault {
    fn from(_: AllocFailed<T>) -> MakeFault {
        MakeFault::Memory
    }
}

impl From<GrowFault> for MakeFault {
    fn from(fault: GrowFault) -> MakeFault {
        match fault {
            GrowFault::Memory => MakeFault::Memory,
            _ => MakeFault::Tree(fault),
        }
    }
}

impl From<ChunkFault> for MakeFault {
    fn from(fault: ChunkFault) -> MakeFault {
        match fault {
            ChunkFault::Memory => MakeFault::Memory,
            _ => MakeFault::Chunk,
        }
    }
}

impl From<AddFault> for MakeFault {
    fn from(fault: AddFault) -> MakeFault {
        match fault {
            AddFault::Memory => MakeFault::Memory,
            _ => MakeFault::Chunk,
        }
    }
}

impl From<AddError> for MakeFault {
    fn from(fault: AddError) -> MakeFault {
        match fault {
            AddError::Memory => MakeFault::Memory,
            AddError::Name => MakeFault::Place,
        }
    }
}

impl From<PokeError> for MakeFault {
    fn from(fault: PokeError) -> MakeFault {
        match fault {
            PokeError::Memory => MakeFault::Memory,
            _ => MakeFault::Place,
        }
    }
}

impl From<MakeFault> for Memory {
    fn from(_: MakeFault) -> Memory {
        Memory
    }
}
