ghost use Rattle.std.specs.Prelude.{◌≡◌};
ghost use Rattle.btr_chunk.specs.declared.add.AddFault.TheVariants.{Memory};

use std::alloc::{AllocError, AllocFailed};

/// Why a chunk isn't added to a table.
#[derive(Clone, Copy, Debug, PartialEq, Eq)]
pub enum AddFault {
    /// It shares a logical address or a byte of a device with another chunk, or its own stripes share a byte.
    Overlap,
    /// The table has 65536 chunks.
    Chunks,
    /// There is no memory for it.
    Memory,
}

impl From<AllocError> for AddFault {
    ghost from_gives = { λ _ fault. fault ≡ Memory };

    fn from(_error: AllocError) -> AddFault {
        AddFault::Memory
    }
}
