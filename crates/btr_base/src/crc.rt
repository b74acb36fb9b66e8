// CRC-32C and the hash of names.
ghost use Rattle.std.specs.Prelude.{◌≡◌};
ghost use Rattle.btr_base.specs.Poly.{IsRemainder, bits};
ghost use Rattle.btr_base.specs.Crc.{register, crc32c, hash_of, dividend, generator};

mod fold;
#[cfg(test)]
mod plain;
mod room;
mod tables;
#[cfg(test)]
mod tests;
mod words;

pub(crate) use room::FoldRoom;

// How many bytes are worth folding.
const LONG: usize = 2048;

/// The register of CRC-32C after the bytes, from the register `start`, with no inversion. Bit 0 of both is
/// the coefficient of x^31.
#[tactic(auto, using(crate::proofs::Shifts::is_remainder))]
pub fn crc_register(start: u32, bytes: &[u8]) -> u32
    ensures value { result ≡ register start bytes.now }
    ensures remainder { IsRemainder (dividend start bytes.now) generator (bits 32 result) }
{
    if bytes.len() < LONG {
        words::register_of(start, bytes)
    } else {
        fold::register_of(start, bytes)
    }
}

// CRC-32C of the bytes.
pub(crate) fn crc32c_of(bytes: &[u8]) -> u32
    ensures { result ≡ crc32c bytes.now }
{
    !crc_register(0xFFFF_FFFF, bytes)
}

/// The hash of a name, which is the offset in the key of its directory item.
pub fn name_hash(name: &[u8]) -> u32
    ensures { result ≡ hash_of name.now }
{
    crc_register(0xFFFF_FFFE, name)
}
