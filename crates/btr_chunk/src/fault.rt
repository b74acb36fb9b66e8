ghost use Rattle.std.specs.Prelude.{◌≡◌};
ghost use Rattle.btr_chunk.specs.declared.fault.ChunkFault.TheVariants.{Memory};

use std::alloc::AllocError;

/// Why an item is no chunk.
#[derive(Clone, Copy, Debug, PartialEq, Eq)]
pub enum ChunkFault {
    /// It has this number of stripes, more than 64.
    Stripes(u16),
    /// It breaks another rule of chunks, or is shorter than 48 bytes.
    Bad,
    /// There is no memory for its stripes.
    Memory,
}

impl From<AllocError> for ChunkFault {
    ghost from_gives = { λ _ fault. fault ≡ Memory };

    fn from(_error: AllocError) -> ChunkFault {
        ChunkFault::Memory
    }
}
