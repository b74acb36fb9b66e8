// The checksum of a block or a sector.
ghost use Rattle.std.specs.Prelude.{◌≡◌};
ghost use Rattle.btr_base.specs.Sum.{sum_of};

use crate::crc::crc32c_of;
use crate::stored::from_array;
use crate::xxhash::xxh64;
use crate::{Sum, SumKind};
use sha2::{Digest, Sha256};

/// The checksum of the bytes.
pub fn sum(kind: SumKind, bytes: &[u8]) -> Sum
    ensures { result ≡ sum_of kind bytes.now }
{
    match kind {
        SumKind::Crc32c => from_array(crc32c_of(bytes).to_le_bytes()),
        SumKind::Sha256 => from_array(Sha256::digest(bytes)),
        SumKind::Xxh64 => from_array(xxh64(bytes).to_le_bytes()),
    }
}
