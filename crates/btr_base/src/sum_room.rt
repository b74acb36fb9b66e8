// Checksums one after another.
use crate::checksum::sum;
use crate::crc::FoldRoom;
use crate::stored::from_array;
use crate::{Sum, SumKind};

/// Room of 4972 bytes in which checksums are computed one after another: it is cleared once, and then only as far as the next
/// one looks at it, where the function `sum` clears as many bytes each time.
#[derive(Drop)]
pub struct SumRoom {
    folds: FoldRoom,
}

impl SumRoom {
    ghost use Rattle.std.specs.Prelude.{◌≡◌};
    ghost use Rattle.btr_base.specs.Sum.{sum_of};

    /// Room in which no checksum was computed yet.
    pub fn new() -> SumRoom {
        SumRoom {
            folds: FoldRoom::new(),
        }
    }

    /// The checksum of the bytes, as by `sum`.
    pub fn sum(&mut self, kind: SumKind, bytes: &[u8]) -> Sum
        ensures { result ≡ sum_of kind bytes.now }
    {
        match kind {
            SumKind::Crc32c => from_array(self.folds.crc32c_of(bytes).to_le_bytes()),
            SumKind::Sha256 | SumKind::Xxh64 => sum(kind, bytes),
        }
    }
}
