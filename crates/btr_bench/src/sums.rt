// Checksums.
ghost use Rattle.std.specs.Prelude.{◌≡◌};
ghost use Rattle.btr_bench.specs.Sums.{crc_result, xxh64_result, sha256_result};

use btr_base::{SumKind, array_at, crc_register, sum, xxh64};

/// The CRC-32C of a piece, as a number below 2^32.
pub fn crc(piece: &[u8]) -> u64
    ensures { result ≡ crc_result piece.now }
{
    u64::from(!crc_register(0xFFFF_FFFF, piece))
}

/// The XXH64 of a piece, with seed 0.
pub fn xxhash(piece: &[u8]) -> u64
    ensures { result ≡ xxh64_result piece.now }
{
    xxh64(piece)
}

/// The first 8 bytes of the SHA-256 of a piece, as a number, the first of them highest.
pub fn sha256(piece: &[u8]) -> u64
    ensures { result ≡ sha256_result piece.now }
{
    u64::from_be_bytes(array_at(&sum(SumKind::Sha256, piece).bytes, 0))
}
