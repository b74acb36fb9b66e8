ghost use Rattle.std.specs.Prelude.{◌≡◌};
ghost use Rattle.btr_scrub_row.specs.Preparing.{sums_of};

use crate::RowBuffer;
use crate::judged::Judged;
use crate::stripe::FullStripe;
use btr_read::Parity;

// A row whose blocks were judged, and whose parities were made.
#[derive(Clone, Copy)]
pub(crate) struct PreparedRow<'a> {
    pub(crate) stripe: FullStripe,
    pub(crate) judged: &'a Judged,
    pub(crate) buffer: &'a RowBuffer,
}

// A parity of the new data in a buffer.
pub(crate) fn sums_of(parity: Parity, buffer: &RowBuffer) -> &[u8]
    ensures { result.now ≡ sums_of parity buffer.now }
{
    match parity {
        Parity::P => &buffer.p,
        Parity::Q => &buffer.q,
    }
}
