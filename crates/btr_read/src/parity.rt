ghost use Rattle.std.specs.Prelude.{◌≡◌, ◌+◌, ◌≤◌, length};
ghost use Rattle.btr_read.specs.Gathering.{part_of};
ghost use Rattle.btr_read.specs.Folding.{with_added};

use btr_chunk::Part;
use btr_parity::{fold_p, fold_q};

/// A parity of a full stripe (`docs/FORMAT.md`, "Full stripes").
#[derive(Clone, Copy, Debug, PartialEq, Eq)]
pub enum Parity {
    /// The sum of the slices.
    P,
    /// The sum of the slices, each weighed by its power of two.
    Q,
}

impl Parity {
    /// The part that it is.
    pub fn part(self) -> Part
        ensures { result ≡ part_of self }
    {
        match self {
            Parity::P => Part::P,
            Parity::Q => Part::Q,
        }
    }
}

// Adds a piece of a slice to what a buffer has of a parity from a place on.
pub(crate) fn add_range(parity: Parity, buffer: &mut [u8], start: usize, piece: &[u8], index: u8)
    requires fits { start + length piece.now ≤ length buffer.old }
    requires is_index { index ≤ 62 }
    ensures { buffer.new ≡ with_added parity index buffer.old start piece.now }
{
    let range = &mut buffer[start..start + piece.len()];
    match parity {
        Parity::P => fold_p(range, piece),
        Parity::Q => fold_q(range, piece, index),
    }
}
