// What a wanted block of a row gets: a checked block, or a plain sector.
ghost use Rattle.std.specs.Prelude.{◌≡◌, ◌≤◌, length};
ghost use Rattle.btr_read.specs.Fate.{is_plain};
ghost use Rattle.btr_scrub_row.specs.Memory.{IsSettled, IsPieceOf, OfHeld};

use crate::accepting::accept;
use crate::freshening::is_stale;
use crate::row_view::RowView;
use crate::slice_piece::SlicePiece;
use btr_read::Want;

// What comes of a block.
#[derive(Clone, Copy, Debug, PartialEq, Eq)]
pub(crate) struct Settled {
    // Whether nothing is wrong at its own place.
    pub(crate) good: bool,
    // Whether it gets bytes in the new data.
    pub(crate) given: bool,
}

/// Whether a want makes no test (`docs/FORMAT.md`, "Reading a block"): that of a sector without a checksum.
pub fn is_plain(want: &Want) -> bool
    ensures { result ≡ is_plain want.now }
{
    matches!(want, Want::Plain { .. })
}

// Puts what a block gets into the front of a buffer: the bytes of the first candidate that passes, or the fresh bytes of a plain sector that is stale.
pub(crate) fn settle(
    want: &Want,
    piece: &SlicePiece,
    view: &RowView<'_>,
    block: &mut [u8],
    spare: &mut [u8],
) -> Settled
    requires piece { IsPieceOf view.now want.now piece.now }
    requires fits { piece.now.len ≤ length block.old }
    requires spare_fits { piece.now.len ≤ length spare.old }
    ensures { OfHeld view.now want.now piece.now (λ images row t. IsSettled images row t block.new result) }
{
    if is_plain(want) {
        let stale = is_stale(want, piece, view, block, spare);
        return Settled {
            good: !stale,
            given: stale,
        };
    }
    match accept(want, piece, view, block, spare) {
        Some(good) => Settled { good, given: true },
        None => Settled {
            good: false,
            given: false,
        },
    }
}
