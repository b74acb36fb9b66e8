// The text of a byte that may not be printable.
ghost use Rattle.std.specs.Prelude.{◌≡◌, ◌<◌, ◌≤◌, take};
ghost use Rattle.btr_base.specs.Shown.{shown, digit_of};

/// The text of a byte: the first `len` of `bytes`.
#[derive(Clone, Copy, Debug, PartialEq, Eq)]
pub struct Shown {
    pub bytes: [u8; 4],
    pub len: u8,
    ghost in_range: { len ≤ 4 },
}

impl Shown {
    /// The text, one to four bytes.
    pub fn as_slice(&self) -> &[u8]
        ensures { result.now ≡ take self.now.len self.now.bytes }
    {
        &self.bytes[..self.len as usize]
    }
}

fn digit(n: u8) -> u8
    requires { n < 16 }
    ensures { result ≡ digit_of n }
{
    if n < 10 { b'0' + n } else { b'a' + (n - 10) }
}

/// The text of a byte: 20h to 7Eh other than the backslash are themselves, and all others are `\x` and
/// two lower-case hexadecimal digits.
pub fn show_byte(b: u8) -> Shown
    ensures { take result.len result.bytes ≡ shown b }
{
    if b < 0x20 || b > 0x7e || b == b'\\' {
        Shown {
            bytes: [b'\\', b'x', digit(b / 16), digit(b % 16)],
            len: 4,
        }
    } else {
        Shown {
            bytes: [b, 0, 0, 0],
            len: 1,
        }
    }
}
