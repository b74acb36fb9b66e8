// The sums and products of slices, one byte after another.
ghost use Rattle.std.specs.Prelude.{◌≡◌, ◌≤◌, length};
ghost use Rattle.btr_parity.specs.Field.{power};
ghost use Rattle.btr_parity.specs.Slices.{plus, scaled};

use crate::{LAST_INDEX, times};

pub(super) fn fold_q(acc: &mut [u8], piece: &[u8], index: u8)
    requires same_length { length acc.old ≡ length piece.now }
    requires is_index { index ≤ 62 }
    ensures { acc.new ≡ plus acc.old (scaled (power index) piece.now) }
{
    for (i, x) in acc.iter_mut().enumerate() {
        *x ^= times(index, piece[i]);
    }
}

pub(super) fn scale(slice: &mut [u8], index: u8)
    requires { index ≤ 62 }
    ensures { slice.new ≡ scaled (power index) slice.old }
{
    for x in slice.iter_mut() {
        *x = times(index, *x);
    }
}
