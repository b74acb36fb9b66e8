// Fields of a block, at an offset in bytes. All numbers on disk are little-endian.
ghost use Rattle.std.specs.Prelude.{◌≡◌, ◌+◌, ◌≤◌, length};
ghost use Rattle.btr_base.specs.Field.{number_at, bytes_at};

use byteorder::{ByteOrder, LittleEndian};

/// The number in the two bytes from `off`.
pub fn u16_at(bytes: &[u8], off: usize) -> u16
    requires { off + 2 ≤ length bytes.now }
    ensures { result ≡ number_at 2 off bytes.now }
{
    LittleEndian::read_u16(&bytes[off..])
}

/// The number in the four bytes from `off`.
pub fn u32_at(bytes: &[u8], off: usize) -> u32
    requires { off + 4 ≤ length bytes.now }
    ensures { result ≡ number_at 4 off bytes.now }
{
    LittleEndian::read_u32(&bytes[off..])
}

/// The number in the eight bytes from `off`.
pub fn u64_at(bytes: &[u8], off: usize) -> u64
    requires { off + 8 ≤ length bytes.now }
    ensures { result ≡ number_at 8 off bytes.now }
{
    LittleEndian::read_u64(&bytes[off..])
}

/// The `N` bytes from `off`.
pub fn array_at<const N: usize>(bytes: &[u8], off: usize) -> [u8; N]
    requires { off + N ≤ length bytes.now }
    ensures { result ≡ bytes_at N off bytes.now }
{
    let mut array = [0; N];
    array.copy_from_slice(&bytes[off..off + N]);
    array
}
