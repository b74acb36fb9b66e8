ghost use Rattle.std.specs.Prelude.{◌≡◌, ◌≤◌};
ghost use Rattle.btr_scrub_row.specs.Memory.{element_of};

use btr_read::Parity;

// The number of a parity's element, behind the slices.
pub(crate) fn element_of(parity: Parity, slices: u32) -> u32
    requires { slices ≤ 64 }
    ensures { result ≡ element_of parity slices }
{
    match parity {
        Parity::P => slices,
        Parity::Q => slices + 1,
    }
}
