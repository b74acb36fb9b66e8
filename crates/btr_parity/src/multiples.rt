// Slices times one factor. A product is the sum of the products with the two halves of a byte, which
// are looked up in two tables of sixteen, for sixteen bytes at a time.
ghost use Rattle.std.specs.Prelude.{◌≡◌, ◌≤◌, length};
ghost use Rattle.btr_parity.specs.Multiples.{multiples};
ghost use Rattle.btr_parity.specs.Slices.{plus, scaled};

use crate::field::product;
use std::simd::prelude::*;

const LANES: usize = 16;

// The products of the factor with 0 to 15, and with 0 to 15 times 16.
#[derive(Clone, Copy)]
pub(crate) struct Multiples {
    factor: u8,
    low: u8x16,
    high: u8x16,
    ghost low_halves: { low ≡ multiples factor 1 },
    ghost high_halves: { high ≡ multiples factor 16 },
}

fn table(factor: u8, step: u8) -> [u8; LANES]
    requires { step ≤ 16 }
    ensures { result ≡ multiples factor step }
{
    let mut entries = [0; LANES];
    for k in 0..16u8 {
        entries[k as usize] = product(factor, step * k);
    }
    entries
}

impl Multiples {
    pub(crate) fn of(factor: u8) -> Multiples
        ensures { result.factor ≡ factor }
    {
        Multiples {
            factor,
            low: u8x16::from_array(table(factor, 1)),
            high: u8x16::from_array(table(factor, 16)),
        }
    }

    #[inline(always)]
    fn times(&self, bytes: u8x16) -> u8x16
        ensures { result ≡ scaled self.now.factor bytes }
    {
        let low = self.low.swizzle_dyn(bytes & u8x16::splat(0x0f));
        let high = self.high.swizzle_dyn(bytes >> u8x16::splat(4));
        low ^ high
    }

    // `slice` becomes `factor * slice`.
    pub(crate) fn scale(&self, slice: &mut [u8])
        ensures { slice.new ≡ scaled self.now.factor slice.old }
    {
        let whole = slice.len() / LANES;
        for k in 0..whole {
            let at = LANES * k;
            let lanes = self.times(u8x16::from_slice(&slice[at..]));
            lanes.copy_to_slice(&mut slice[at..]);
        }
        for i in LANES * whole..slice.len() {
            slice[i] = product(self.factor, slice[i]);
        }
    }

    // `acc` becomes `acc + factor * piece`.
    pub(crate) fn add_scaled(&self, acc: &mut [u8], piece: &[u8])
        requires { length acc.old ≡ length piece.now }
        ensures { acc.new ≡ plus acc.old (scaled self.now.factor piece.now) }
    {
        let whole = acc.len() / LANES;
        for k in 0..whole {
            let at = LANES * k;
            let lanes = self.times(u8x16::from_slice(&piece[at..]));
            let sum = u8x16::from_slice(&acc[at..]) ^ lanes;
            sum.copy_to_slice(&mut acc[at..]);
        }
        for i in LANES * whole..acc.len() {
            acc[i] ^= product(self.factor, piece[i]);
        }
    }
}
