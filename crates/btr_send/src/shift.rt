// The register of CRC-32C behind a sector whose checksum is known.
ghost use Rattle.std.specs.Prelude.{◌≡◌, ℕ, ◌<◌, ◌^◌, List, length, slice_index};
ghost use Rattle.btr_base.specs.Crc.{crc32c, register, shifted_by};

use btr_base::crc_register;

/// How many bytes a sector has.
pub(crate) const SECTOR: usize = 4096;

/// What becomes of each bit of a register behind a sector of zeros. The register is linear: what becomes of any is their sum, and a sector's own bytes
/// are added to it. So from the CRC-32C of a sector follows its register from any other start, by 32 words in place of 4096 bytes.
#[derive(Drop)]
pub(crate) struct SectorShift {
    words: [u32; 32],
    ghost shifted: { (i : ℕ) → i < 32 → slice_index words i ≡ shifted_by 32768 (2 ^ i) },
}

// The register that a bit comes to behind a sector of zeros.
fn word_of(bit: usize) -> u32
    requires { bit < 32 }
    ensures { result ≡ shifted_by 32768 (2 ^ bit) }
{
    crc_register(1 << bit, &[0; SECTOR])
}

impl SectorShift {
    pub(crate) fn new() -> SectorShift {
        let mut words = [0; 32];
        for bit in 0..32 {
            words[bit] = word_of(bit);
        }
        SectorShift { words }
    }

    // The register behind a sector of zeros.
    fn append_zeros(&self, reg: u32) -> u32
        ensures { result ≡ shifted_by 32768 reg }
    {
        let mut sum = 0;
        for bit in 0..32 {
            if (reg >> bit) % 2 == 1 {
                sum ^= self.words[bit];
            }
        }
        sum
    }

    /// The register after a sector, from the register `reg`, by the CRC-32C of the sector.
    pub(crate) fn register_behind(&self, reg: u32, crc: u32) -> u32
        ensures { (bytes : List ℕ) → ((i : ℕ) → slice_index bytes i < 2 ^ 8) → length bytes ≡ 4096 → crc ≡ crc32c bytes
            → result ≡ register reg bytes }
    {
        self.append_zeros(reg ^ u32::MAX) ^ !crc
    }
}
