// The digits of a number, without taking memory.
ghost use Rattle.std.specs.Prelude.{◌≡◌, ◌≤◌, [], ◌∷◌, drop};
ghost use Rattle.btr_text.specs.Pieces.{hex_text, octal_text, bytes_text};

// The octal digits of a number: those of `bytes` from `start` on.
#[derive(Clone, Copy)]
pub(crate) struct OctalDigits {
    bytes: [u8; 64],
    start: usize,
    ghost in_range: { start ≤ 64 },
}

impl OctalDigits {
    pub(crate) fn as_slice(&self) -> &[u8]
        ensures { result.now ≡ drop self.now.start self.now.bytes }
    {
        &self.bytes[self.start..]
    }
}

pub(crate) fn octal(n: u64) -> OctalDigits
    ensures { drop result.start result.bytes ≡ octal_text n }
{
    let mut bytes = [b'0'; 64];
    let mut start = 64;
    let mut rest = n;
    while start > 0 {
        start -= 1;
        bytes[start] = b'0' + (rest % 8) as u8;
        rest /= 8;
        if rest == 0 {
            break;
        }
    }
    OctalDigits { bytes, start }
}

// 16 lower-case hexadecimal digits.
pub(crate) fn hexadecimal(n: u64) -> [u8; 16]
    ensures { result ≡ hex_text n }
{
    let bytes = n.to_be_bytes();
    let mut digits = [b'0'; 16];
    match hex::encode_to_slice(bytes.as_slice(), &mut digits) {
        Ok(()) => digits,
        Err(_) => unreachable!(),
    }
}

// Two lower-case hexadecimal digits.
pub(crate) fn byte_digits(b: u8) -> [u8; 2]
    ensures { result ≡ bytes_text (b ∷ []) }
{
    let mut digits = [b'0'; 2];
    match hex::encode_to_slice([b].as_slice(), &mut digits) {
        Ok(()) => digits,
        Err(_) => unreachable!(),
    }
}
