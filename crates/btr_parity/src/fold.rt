// Sums of slices.
ghost use Rattle.std.specs.Prelude.{◌≡◌, ◌≤◌, length};
ghost use Rattle.btr_parity.specs.Field.{power};
ghost use Rattle.btr_parity.specs.Slices.{plus, scaled};

use crate::field::{LAST_INDEX, doubled, power};
use crate::multiples::Multiples;

/// Adds a slice to P: `acc` becomes `acc + piece`. Both have one length. Adding a slice again takes
/// it away.
pub fn fold_p(acc: &mut [u8], piece: &[u8])
    requires { length acc.old ≡ length piece.now }
    ensures { acc.new ≡ plus acc.old piece.now }
{
    for (i, x) in acc.iter_mut().enumerate() {
        *x ^= piece[i];
    }
}

/// Adds slice `index` to Q: `acc` becomes `acc + 2^index * piece`. Both have one length, and the
/// index is at most [`LAST_INDEX`]. Adding a slice again takes it away.
pub fn fold_q(acc: &mut [u8], piece: &[u8], index: u8)
    requires same_length { length acc.old ≡ length piece.now }
    requires is_index { index ≤ 62 }
    ensures { acc.new ≡ plus acc.old (scaled (power index) piece.now) }
{
    Multiples::of(power(index)).add_scaled(acc, piece);
}

/// Adds the slice in front: `acc` becomes `2 * acc + piece`. Both have one length. From zeros on,
/// over all slices from the last to the first, this makes Q, faster than by [`fold_q`].
pub fn double_and_add(acc: &mut [u8], piece: &[u8])
    requires { length acc.old ≡ length piece.now }
    ensures { acc.new ≡ plus (scaled 2 acc.old) piece.now }
{
    for (i, x) in acc.iter_mut().enumerate() {
        *x = doubled(*x) ^ piece[i];
    }
}
