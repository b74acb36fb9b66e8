// The turns of a kernel over a piece.
ghost use Rattle.std.specs.Prelude.{◌≡◌, ◌<◌, length, IfOk, IsTrue};
ghost use Rattle.btr_bench.specs.Kernel.{takes};
ghost use Rattle.btr_bench.specs.Turns.{first_piece, first_kept, kept_size, flipped, TurnsGive};

use crate::kernel::Kernel;
use std::alloc::{AllocError, Global};

fn flip(piece: &mut [u8], place: usize)
    requires { place < length piece.old }
    ensures { piece.new ≡ flipped piece.old place }
{
    piece[place] ^= 1;
}

// The exclusive or of the results of `times` turns.
fn exclusive_or(kernel: Kernel, piece: &mut [u8], kept: &mut [u8], times: u64) -> u64
    requires takes { IsTrue (takes kernel (length piece.old)) }
    requires kept { length kept.old ≡ kept_size kernel (length piece.old) }
    ensures { TurnsGive kernel piece.old kept.old 0 times result }
{
    let mut all = 0;
    for turn in 0..times {
        flip(piece, kernel.place(turn, piece.len()));
        kernel.keep(turn, piece, kept);
        all ^= kernel.result(turn, piece, kept);
    }
    all
}

/// Runs the turns of a kernel over a piece of `size` bytes, and answers the exclusive or of their results. `AllocError`: want
/// of memory.
pub fn run(alloc: Global, kernel: Kernel, size: usize, times: u64) -> Result<u64, AllocError>
    requires { IsTrue (takes kernel size) }
    ensures { IfOk result (TurnsGive kernel (first_piece kernel size) (first_kept kernel size) 0 times) }
{
    let mut piece = kernel.first_piece(alloc, size)?;
    let mut kept = kernel.first_kept(alloc, size)?;
    Ok(exclusive_or(kernel, piece.as_mut_slice(), kept.as_mut_slice(), times))
}
