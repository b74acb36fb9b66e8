// Lost slices, from what the others leave of P and Q.
ghost use Rattle.std.specs.Prelude.{◌≡◌, ◌≢◌, ◌≤◌, length};
ghost use Rattle.btr_parity.specs.Solutions.{IsTheOne, Weighs, WeighsWith};

use crate::field::{LAST_INDEX, inverse, power, product};
use crate::multiples::Multiples;

/// Divides by `2^index`: `acc`, which is Q less all slices but slice `index`, becomes that slice. The
/// index is at most [`LAST_INDEX`]. (P less all slices but one is that slice, with no division.)
pub fn rebuild_q(acc: &mut [u8], index: u8)
    requires { index ≤ 62 }
    ensures { IsTheOne (length acc.old) (Weighs index acc.old) acc.new }
{
    Multiples::of(inverse(power(index))).scale(acc);
}

/// Solves for the first of two slices: `p` is `Dx + Dy` and `q` is `2^x * Dx + 2^y * Dy`, that is P and
/// Q less all slices but `x` and `y`, and `p` becomes `Dx`. Both have one length, and the indexes
/// differ and are at most [`LAST_INDEX`].
pub fn rebuild_pq(p: &mut [u8], q: &[u8], x: u8, y: u8)
    requires same_length { length p.old ≡ length q.now }
    requires is_index { x ≤ 62 }
    requires is_other_index { y ≤ 62 }
    requires differ { x ≢ y }
    ensures { IsTheOne (length p.old) (WeighsWith p.old q.now x y) p.new }
{
    // q + 2^y * p is (2^x + 2^y) * Dx
    let quotient = inverse(power(x) ^ power(y));
    Multiples::of(product(quotient, power(y))).scale(p);
    Multiples::of(quotient).add_scaled(p, q);
}
