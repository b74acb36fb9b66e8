// Bytes as elements of the field.
ghost use Rattle.std.specs.Prelude.{◌≡◌, ◌<◌, ◌≤◌};
ghost use Rattle.btr_parity.specs.Field.{product, power};

use crate::tables::{INVERSES, POWERS};

/// The greatest index of a slice: of the 64 elements that a full stripe may have, one at least is
/// parity.
pub const LAST_INDEX: u8 = 62;

// `2 * b`: where the product has the term x^8, the modulus is taken away.
#[inline(always)]
pub(crate) fn doubled(b: u8) -> u8
    ensures { result ≡ product 2 b }
{
    (b << 1) ^ if b < 0x80 { 0 } else { 0x1d }
}

// `a * b`, the sum of the multiples of `a` by the coefficients of `b`.
#[inline(always)]
pub(crate) fn product(a: u8, b: u8) -> u8
    ensures { result ≡ product a b }
{
    let mut multiple = a;
    let mut sum = 0;
    for k in 0..8u8 {
        sum ^= if (b >> k) & 1 == 1 { multiple } else { 0 };
        multiple = doubled(multiple);
    }
    sum
}

// `2^index`.
pub(crate) fn power(index: u8) -> u8
    requires { index ≤ 62 }
    ensures { result ≡ power index }
{
    POWERS[index as usize]
}

// `1 / b`.
pub(crate) fn inverse(b: u8) -> u8
    requires { 0 < b }
    ensures { product b result ≡ 1 }
{
    INVERSES[b as usize]
}

/// `2^index * b`: what the byte `b` of slice `index` adds to the same byte of Q. The index is at most
/// [`LAST_INDEX`].
pub fn times(index: u8, b: u8) -> u8
    requires { index ≤ 62 }
    ensures { result ≡ product (power index) b }
{
    product(power(index), b)
}
