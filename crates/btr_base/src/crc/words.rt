// The register by words of 4 bytes, by tables.
ghost use Rattle.std.specs.Prelude.{◌≡◌, ◌+◌, ◌*◌, ◌%◌, ◌≤◌, ◌<◌, length, slice_index, [], ◌∷◌, bit_xor};
ghost use Rattle.btr_base.specs.Crc.{register, shifted_by};
ghost use Rattle.btr_base.specs.Field.{number_at};
ghost use Rattle.btr_base.specs.Fold.{after};

use super::tables::AFTER_ZEROS;
use crate::field::u32_at;

// The register after `zeros` + 1 bytes of zeros, from the low byte of `word`.
fn after_zeros(zeros: usize, word: u32) -> u32
    requires { zeros < 16 }
    ensures { result ≡ shifted_by (8 * (zeros + 1)) (word % 256) }
{
    AFTER_ZEROS[zeros][(word & 255) as usize]
}

// The register after one more byte.
fn take_byte(reg: u32, byte: u8) -> u32
    ensures { result ≡ shifted_by 8 (bit_xor reg byte) }
{
    let sum = reg ^ u32::from(byte);
    after_zeros(0, sum) ^ (sum >> 8)
}

// The register after a word and `zeros` words of zeros.
fn after_word(zeros: usize, word: u32) -> u32
    requires { zeros < 4 }
    ensures { result ≡ shifted_by (32 * (zeros + 1)) word }
{
    after_zeros(4 * zeros, word >> 24)
        ^ after_zeros(4 * zeros + 1, word >> 16)
        ^ after_zeros(4 * zeros + 2, word >> 8)
        ^ after_zeros(4 * zeros + 3, word)
}

// The register after one more word.
fn take_word(reg: u32, word: u32) -> u32
    ensures { result ≡ shifted_by 32 (bit_xor reg word) }
{
    after_word(0, reg ^ word)
}

// The register after four more words. Only the look-ups of the first wait for the register: they come last.
fn take_four(reg: u32, words: [u32; 4]) -> u32
    ensures { result ≡ after 32 reg 4 (slice_index words) }
{
    let [first, second, third, fourth] = words;
    after_word(0, fourth)
        ^ after_word(1, third)
        ^ after_word(2, second)
        ^ after_word(3, reg ^ first)
}

// The four words from an offset in bytes on.
fn four_at(bytes: &[u8], off: usize) -> [u32; 4]
    requires { off + 16 ≤ length bytes.now }
    ensures { result ≡ number_at 4 off bytes.now ∷ number_at 4 (off + 4) bytes.now
        ∷ number_at 4 (off + 8) bytes.now ∷ number_at 4 (off + 12) bytes.now ∷ [] }
{
    [
        u32_at(bytes, off),
        u32_at(bytes, off + 4),
        u32_at(bytes, off + 8),
        u32_at(bytes, off + 12),
    ]
}

// The register after the bytes, one by one.
fn register_by_bytes(start: u32, bytes: &[u8]) -> u32
    ensures { result ≡ register start bytes.now }
{
    let mut reg = start;
    for byte in bytes {
        reg = take_byte(reg, *byte);
    }
    reg
}

// The register after the bytes, word by word.
fn register_by_words(start: u32, bytes: &[u8]) -> u32
    ensures { result ≡ register start bytes.now }
{
    let mut reg = start;
    let mut rest = bytes;
    while rest.len() >= 4 {
        reg = take_word(reg, u32_at(rest, 0));
        rest = &rest[4..];
    }
    register_by_bytes(reg, rest)
}

// The register after the bytes, four words at a time.
pub(super) fn register_of(start: u32, bytes: &[u8]) -> u32
    ensures { result ≡ register start bytes.now }
{
    let mut reg = start;
    let mut rest = bytes;
    while rest.len() >= 16 {
        reg = take_four(reg, four_at(rest, 0));
        rest = &rest[16..];
    }
    register_by_words(reg, rest)
}
