// What the parities leave of slices in memory, and bytes there that are compared.
ghost use Rattle.std.specs.Prelude.{◌≡◌, ◌≢◌, ◌+◌, ◌≤◌, length, take};
ghost use Rattle.std.specs.Str.{bytes_eq};
ghost use Rattle.btr_read.specs.Gathering.{weighed};
ghost use Rattle.btr_parity.specs.Slices.{plus};
ghost use Rattle.btr_parity.specs.Solutions.{IsTheOne, Weighs, WeighsWith};
ghost use Rattle.btr_read.specs.Candidates.{reads_slice};
ghost use Rattle.btr_scrub_row.specs.Memory.{FitsIn, Gathers, HasParity, piece_at};

use crate::parity::element_of;
use crate::slice_piece::SlicePiece;
use btr_parity::{fold_p, fold_q, rebuild_pq, rebuild_q};
use btr_read::{Candidate, Parity};
use btr_scrub_copies::same_bytes;

// Copies some bytes into the front of a buffer.
pub(crate) fn copy_front(front: &mut [u8], bytes: &[u8], start: usize, len: usize)
    requires fits { len ≤ length front.old }
    requires within { start + len ≤ length bytes.now }
    ensures { take len front.new ≡ piece_at bytes.now start len }
{
    front[..len].copy_from_slice(&bytes[start..start + len]);
}

// Adds some bytes of a slice to what the front of a buffer has of a parity.
pub(crate) fn add_front(
    parity: Parity,
    front: &mut [u8],
    bytes: &[u8],
    start: usize,
    len: usize,
    index: u8,
)
    requires fits { len ≤ length front.old }
    requires within { start + len ≤ length bytes.now }
    requires is_index { index ≤ 62 }
    ensures { take len front.new ≡ plus (take len front.old) (weighed parity index (piece_at bytes.now start len)) }
{
    let piece = &bytes[start..start + len];
    match parity {
        Parity::P => fold_p(&mut front[..len], piece),
        Parity::Q => fold_q(&mut front[..len], piece, index),
    }
}

// Makes a slice of what Q leaves of it, in the front of a buffer.
pub(crate) fn divide_front(front: &mut [u8], len: usize, index: u8)
    requires fits { len ≤ length front.old }
    requires is_index { index ≤ 62 }
    ensures { IsTheOne len (Weighs index (take len front.old)) (take len front.new) }
{
    rebuild_q(&mut front[..len], index);
}

// Makes the first of two slices of what P and Q leave of them, in the fronts of two buffers.
pub(crate) fn solve_front(p: &mut [u8], q: &[u8], len: usize, index: u8, other: u8)
    requires fits { len ≤ length p.old }
    requires q_fits { len ≤ length q.now }
    requires is_index { index ≤ 62 }
    requires is_other_index { other ≤ 62 }
    requires differ { index ≢ other }
    ensures { IsTheOne len (WeighsWith (take len p.old) (take len q.now) index other) (take len p.new) }
{
    rebuild_pq(&mut p[..len], &q[..len], index, other);
}

// Whether a candidate for slice `index` reads a slice.
pub(crate) fn reads(candidate: Candidate, index: u32, slice: u32) -> bool
    ensures { result ≡ reads_slice index candidate slice }
{
    match candidate {
        Candidate::Read(_) => false,
        Candidate::ByP => slice != index,
        Candidate::ByQ => slice != index,
        Candidate::ByBoth(other) => slice != index && slice != other,
    }
}

// What a parity leaves of the slices that a candidate doesn't read, in the front of a buffer.
pub(crate) fn gather(
    bytes: &[u8],
    piece: &SlicePiece,
    candidate: Candidate,
    parity: Parity,
    sum: &mut [u8],
)
    requires within { FitsIn bytes.now piece.now }
    requires fits { piece.now.len ≤ length sum.old }
    requires has { HasParity piece.now.shape.profile parity }
    ensures { Gathers piece.now bytes.now candidate parity sum.new }
{
    let element = element_of(parity, piece.shape.slices);
    copy_front(sum, bytes, piece.start(element), piece.len);
    for slice in 0..piece.shape.slices {
        if reads(candidate, piece.index, slice) {
            add_front(
                parity,
                sum,
                bytes,
                piece.start(slice),
                piece.len,
                slice as u8,
            );
        }
    }
}

// Whether some bytes are the same in two places.
pub(crate) fn same_pieces(
    one: &[u8],
    start: usize,
    other: &[u8],
    other_start: usize,
    len: usize,
) -> bool
    requires within { start + len ≤ length one.now }
    requires other_within { other_start + len ≤ length other.now }
    ensures { result ≡ bytes_eq (piece_at one.now start len) (piece_at other.now other_start len) }
{
    same_bytes(
        &one[start..start + len],
        &other[other_start..other_start + len],
    )
}
