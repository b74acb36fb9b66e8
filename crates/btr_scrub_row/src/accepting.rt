// What is accepted for a block: the bytes of its first candidate that passes.
ghost use Rattle.std.specs.Prelude.{◌≡◌, ◌==◌, ◌||◌, ◌≤◌, length, take};
ghost use Rattle.btr_chunk.specs.declared.profile.Profile.{Profile};
ghost use Rattle.btr_read.specs.Sought.{IsTwoParities};
ghost use Rattle.btr_read.specs.Want.{len_of, passes};
ghost use Rattle.btr_scrub_row.specs.Memory.{AcceptsWant, Computes, FitsIn, IsPieceOf, IsWayCount, IsWayOf, ReadsQ, piece_in};

use crate::gathering::{copy_front, divide_front, gather, solve_front};
use crate::row_view::RowView;
use crate::slice_piece::SlicePiece;
use btr_chunk::{Part, Profile};
use btr_read::{Candidate, Parity, Store, Want, passes, way_at};

// The way of a number, for slice `index`.
pub(crate) fn way_of(index: u32, k: u32) -> Candidate
    ensures { IsWayOf index k result }
{
    match k {
        0 => Candidate::Read(Part::Slice(index)),
        1 => Candidate::ByP,
        2 => Candidate::ByQ,
        _ => {
            let other = k - 3;
            Candidate::ByBoth(if other < index { other } else { other + 1 })
        }
    }
}

// How many ways there are to get a block of the row.
pub(crate) fn way_count(piece: &SlicePiece) -> u32
    requires { piece.now.shape.slices ≤ 63 }
    ensures { IsWayCount piece.now result }
{
    match piece.shape.profile {
        Profile::Raid6 => piece.shape.slices + 2,
        _ => 2,
    }
}

// Computes what a candidate gives, in the front of a buffer.
pub(crate) fn compute(
    bytes: &[u8],
    piece: &SlicePiece,
    candidate: Candidate,
    block: &mut [u8],
    spare: &mut [u8],
)
    requires within { FitsIn bytes.now piece.now }
    requires fits { piece.now.len ≤ length block.old }
    requires spare_fits { piece.now.len ≤ length spare.old }
    requires parts { IsTwoParities piece.now.shape.slices piece.now.index candidate }
    requires q { ReadsQ candidate → piece.now.shape.profile ≡ Profile.Raid6 }
    ensures { Computes piece.now bytes.now candidate block.new }
{
    match candidate {
        Candidate::Read(_) => copy_front(block, bytes, piece.start(piece.index), piece.len),
        Candidate::ByP => gather(bytes, piece, Candidate::ByP, Parity::P, block),
        Candidate::ByQ => {
            gather(bytes, piece, Candidate::ByQ, Parity::Q, block);
            divide_front(block, piece.len, piece.index as u8);
        }
        Candidate::ByBoth(other) => {
            gather(bytes, piece, Candidate::ByBoth(other), Parity::P, block);
            gather(bytes, piece, Candidate::ByBoth(other), Parity::Q, spare);
            solve_front(block, spare, piece.len, piece.index as u8, other as u8);
        }
    }
}

// Whether the bytes in the front of a buffer pass.
fn front_passes(want: &Want, store: &Store, block: &[u8], len: usize) -> bool
    requires fits { len ≤ length block.now }
    requires len { len ≡ len_of store.now.layout.setting want.now }
    ensures { result ≡ passes store.now.layout.setting want.now (take len block.now) }
{
    passes(want, store, &block[..len])
}

// Whether the way that passes is the block's own place, or that passes too.
fn own_passes(way: u32, want: &Want, piece: &SlicePiece, store: &Store, bytes: &[u8]) -> bool
    requires within { FitsIn bytes.now piece.now }
    requires len { piece.now.len ≡ len_of store.now.layout.setting want.now }
    ensures { result ≡ ((way == 0) || passes store.now.layout.setting want.now (piece_in bytes.now piece.now piece.now.index)) }
{
    if way == 0 {
        return true;
    }
    let start = piece.start(piece.index);
    passes(want, store, &bytes[start..start + piece.len])
}

// Puts the bytes of the first candidate that passes into the front of a buffer, and answers whether the block's own place
// passes too, if there is one.
pub(crate) fn accept(
    want: &Want,
    piece: &SlicePiece,
    view: &RowView<'_>,
    block: &mut [u8],
    spare: &mut [u8],
) -> Option<bool>
    requires piece { IsPieceOf view.now want.now piece.now }
    requires fits { piece.now.len ≤ length block.old }
    requires spare_fits { piece.now.len ≤ length spare.old }
    ensures { AcceptsWant view.now want.now piece.now block.new result }
{
    for k in 0..way_count(piece) {
        let way = way_at(want, k, view.store);
        compute(view.old, piece, way_of(piece.index, way), block, spare);
        if front_passes(want, view.store, block, piece.len) {
            return Some(own_passes(way, want, piece, view.store, view.old));
        }
    }
    None
}
