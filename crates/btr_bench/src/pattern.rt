// The bytes that pieces are made of.
ghost use Rattle.std.specs.Prelude.{◌≡◌, length, IfOk};
ghost use Rattle.btr_bench.specs.Pattern.{pattern};

use std::alloc::{AllocError, Global};

fn fill(piece: &mut [u8])
    ensures { piece.new ≡ pattern (length piece.old) }
{
    let mut byte = 3u8;
    for place in piece.iter_mut() {
        *place = byte;
        byte = byte.wrapping_add(7);
    }
}

/// Makes a piece of `size` bytes, of which byte i is (7i + 3) mod 256. `AllocError`: want of memory.
pub fn pattern(alloc: Global, size: usize) -> Result<Vec<u8>, AllocError>
    ensures value { IfOk result (λ piece. piece.items ≡ pattern size) }
    ensures len { IfOk result (λ piece. length piece.items ≡ size) }
{
    let mut piece = vec![in alloc; 0u8; size]?;
    fill(piece.as_mut_slice());
    Ok(piece)
}
