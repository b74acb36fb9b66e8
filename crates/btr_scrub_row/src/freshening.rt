// Plain sectors, which are sectors of data without a checksum: their fresh bytes, and where they are stale beside these.
ghost use Rattle.std.specs.Prelude.{◌≡◌, ◌≤◌, ◌<◌, length, Ok, IfSome, IsOkAnd};
ghost use Rattle.btr_chunk.specs.declared.profile.Profile.{Profile};
ghost use Rattle.btr_read.specs.Candidates.{Target};
ghost use Rattle.btr_read.specs.Fate.{sought};
ghost use Rattle.btr_read.specs.Sought.{IsTwoParities};
ghost use Rattle.btr_scrub_copies.specs.Fresh.{first_trusted};
ghost use Rattle.btr_scrub_row.specs.Memory.{HasFresh, IsRenewed, IsSited, IsPieceOf, KnowsDoubts, LiesAt, OfHeld, ReadsQ, reads_flagged};
ghost use Rattle.btr_scrub_row.specs.Memory.{reads_flagged_slice};
ghost use Rattle.btr_scrub_row.specs.Rows.{Row};

use crate::accepting::{compute, way_count, way_of};
use crate::doubts::{Doubts, flag_of};
use crate::gathering::{reads, same_pieces};
use crate::parity::element_of;
use crate::row_view::RowView;
use crate::slice_piece::SlicePiece;
use btr_read::{Candidate, Parity, Store, Want};

// Whether a candidate reads a slice that is flagged.
fn reads_flagged_slice(candidate: Candidate, piece: &SlicePiece, flags: &[bool; 64]) -> bool
    ensures { result ≡ reads_flagged_slice flags.now piece.now.shape.slices piece.now.index candidate }
{
    for slice in 0..piece.shape.slices {
        if reads(candidate, piece.index, slice) && flag_of(flags, slice) {
            return true;
        }
    }
    false
}

// Whether a candidate reads an element that is flagged.
fn reads_flagged(candidate: Candidate, piece: &SlicePiece, flags: &[bool; 64]) -> bool
    requires { piece.now.shape.slices ≤ 63 }
    ensures { result ≡ reads_flagged flags.now piece.now.shape.slices piece.now.index candidate }
{
    let slices = piece.shape.slices;
    let p = flag_of(flags, element_of(Parity::P, slices));
    let q = flag_of(flags, element_of(Parity::Q, slices));
    match candidate {
        Candidate::Read(_) => flag_of(flags, piece.index),
        Candidate::ByP => p || reads_flagged_slice(candidate, piece, flags),
        Candidate::ByQ => q || reads_flagged_slice(candidate, piece, flags),
        Candidate::ByBoth(_) => p || q || reads_flagged_slice(candidate, piece, flags),
    }
}

// The first candidate that reads no image in doubt, if there is one.
fn first_trusted(
    want: &Want,
    piece: &SlicePiece,
    doubts: &Doubts,
    store: &Store,
) -> Option<Candidate>
    requires few { piece.now.shape.slices ≤ 63 }
    requires index { piece.now.index < piece.now.shape.slices }
    requires placed { IsOkAnd (sought store.now.layout want.now) (IsSited piece.now) }
    ensures first { (row : Row) (t : Target) → sought store.now.layout want.now ≡ Ok t → LiesAt store.now.layout row t piece.now
        → KnowsDoubts store.now.layout row doubts.now → first_trusted row.failing t ≡ result }
    ensures parts { IfSome result (IsTwoParities piece.now.shape.slices piece.now.index) }
    ensures q { IfSome result (λ candidate. ReadsQ candidate → piece.now.shape.profile ≡ Profile.Raid6) }
{
    for k in 0..way_count(piece) {
        let way = way_of(piece.index, k);
        if !reads_flagged(way, piece, &doubts.doubtful) {
            return Some(way);
        }
    }
    None
}

// Puts the fresh bytes of a plain sector into the front of a buffer, and answers whether there are any.
fn find_fresh(
    want: &Want,
    piece: &SlicePiece,
    view: &RowView<'_>,
    block: &mut [u8],
    spare: &mut [u8],
) -> bool
    requires piece { IsPieceOf view.now want.now piece.now }
    requires fits { piece.now.len ≤ length block.old }
    requires spare_fits { piece.now.len ≤ length spare.old }
    ensures { OfHeld view.now want.now piece.now (λ images row t. HasFresh images row t block.new result) }
{
    match first_trusted(want, piece, &view.wanted.doubts, view.store) {
        Some(candidate) => {
            compute(view.old, piece, candidate, block, spare);
            true
        }
        None => false,
    }
}

// Whether a plain sector is stale at its place. Where it is, its fresh bytes are put into the front of a buffer.
pub(crate) fn is_stale(
    want: &Want,
    piece: &SlicePiece,
    view: &RowView<'_>,
    block: &mut [u8],
    spare: &mut [u8],
) -> bool
    requires piece { IsPieceOf view.now want.now piece.now }
    requires fits { piece.now.len ≤ length block.old }
    requires spare_fits { piece.now.len ≤ length spare.old }
    ensures { OfHeld view.now want.now piece.now (λ images row t. IsRenewed images row t block.new result) }
{
    if !flag_of(&view.wanted.doubts.behind, piece.index) {
        return false;
    }
    if !find_fresh(want, piece, view, block, spare) {
        return false;
    }
    let start = piece.start(piece.index);
    !same_pieces(view.old, start, block, 0, piece.len)
}
