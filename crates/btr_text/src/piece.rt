// The pieces of a text.
use btr_base::Key;

/// A piece of a text.
#[derive(Clone, Copy)]
pub enum Piece<'a> {
    /// These bytes, as they are.
    Plain(&'a [u8]),
    /// A number in decimal digits.
    Decimal(u64),
    /// A number in 16 lower-case hexadecimal digits.
    Hexadecimal(u64),
    /// A number in octal digits, without a prefix.
    Octal(u64),
    /// A name: each byte as `show_byte` shows it.
    Name(&'a [u8]),
    /// A key: its object, the name of its item type and its offset, in parentheses.
    Key(Key),
    /// Bytes: two lower-case hexadecimal digits each.
    HexadecimalBytes(&'a [u8]),
    /// A UUID: 32 lower-case hexadecimal digits with hyphens.
    Id([u8; 16]),
}
