ghost use Rattle.std.specs.Prelude.{◌≡◌, ◌-◌, ◌≤◌, ◌++◌, replicate};

use crate::SumKind;
use crate::field::array_at;

/// A checksum: its first `size` bytes, and zeros behind them.
#[derive(Clone, Copy, Debug, PartialEq, Eq)]
pub struct Sum {
    pub bytes: [u8; 32],
    pub size: u8,
}

// The sum that has these bytes.
pub(crate) fn from_array<const N: usize>(array: [u8; N]) -> Sum
    requires { N ≤ 32 }
    ensures bytes { result.bytes ≡ array.entry ++ replicate (32 - N) 0 }
    ensures size { result.size ≡ N }
{
    let mut bytes = [0; 32];
    bytes[..N].copy_from_slice(&array);
    Sum {
        bytes,
        size: N as u8,
    }
}

impl Sum {
    ghost use Rattle.std.specs.Prelude.{◌≡◌, ◌≤◌, length};
    ghost use Rattle.btr_base.specs.Sum.{stored_sum};

    /// The checksum that is stored at the beginning of the bytes.
    pub fn read(kind: SumKind, bytes: &[u8]) -> Sum
        requires { 32 ≤ length bytes.now }
        ensures { result ≡ stored_sum kind bytes.now }
    {
        match kind {
            SumKind::Crc32c => from_array::<4>(array_at(bytes, 0)),
            SumKind::Sha256 => from_array::<32>(array_at(bytes, 0)),
            SumKind::Xxh64 => from_array::<8>(array_at(bytes, 0)),
        }
    }
}
