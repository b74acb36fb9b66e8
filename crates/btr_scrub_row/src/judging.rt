// What the blocks of a row come to.
ghost use Rattle.std.specs.Prelude.{◌≡◌, ◌+◌, ◌*◌, ◌≤◌, ◌&&◌, not, length, take, Ok, if◌then◌else◌};
ghost use Rattle.btr_rack.specs.Rack.{pasted};
ghost use Rattle.btr_read.specs.Candidates.{Target};
ghost use Rattle.btr_read.specs.Fate.{sought};
ghost use Rattle.btr_read.specs.Want.{len_of};
ghost use Rattle.btr_scrub_row.specs.Judging.{IsIn, IsPlaced, IsVerdict, JudgesBlock};
ghost use Rattle.btr_scrub_row.specs.Memory.{IsViewed, OfRow, flag_of};

use crate::doubts::{Doubts, flag_of};
use crate::row_view::RowView;
use crate::settling::{Settled, is_plain, settle};
use crate::slice_piece::SlicePiece;
use crate::stripe::FullStripe;
use btr_chunk::elements;
use btr_read::{Store, Want};

// What comes of a block, and where it lies.
#[derive(Clone, Copy, Debug, PartialEq, Eq)]
pub(crate) struct Verdict {
    pub(crate) piece: SlicePiece,
    // Whether it is a checked block, and no plain sector.
    pub(crate) checked: bool,
    // Whether nothing is wrong at its own place.
    pub(crate) good: bool,
    // Whether it gets bytes in the new data.
    pub(crate) given: bool,
    // Whether what stands in its place in the new data is sure.
    pub(crate) sure: bool,
}

// How many bytes a want has.
fn len_of(want: &Want, nodesize: u32, store: &Store) -> usize
    requires { nodesize ≡ store.now.layout.setting.nodesize }
    ensures { result ≡ len_of store.now.layout.setting want.now }
{
    match want {
        Want::Tree { .. } | Want::Block { .. } => nodesize as usize,
        Want::Sector { .. } | Want::Plain { .. } => 4096,
    }
}

// The piece of a slice that a block is.
pub(crate) fn piece_of(want: &Want, stripe: &FullStripe, store: &Store) -> SlicePiece
    requires within { IsIn store.now.layout stripe.now want.now }
    ensures { (t : Target) → sought store.now.layout want.now ≡ Ok t → IsPlaced stripe.now.shape t result }
{
    let Some(chunk) = store.chunks().find(want.addr()) else {
        unreachable!();
    };
    let len = len_of(want, stripe.nodesize, store);
    let Ok(at) = elements(chunk, want.addr(), len as u64) else {
        unreachable!();
    };
    SlicePiece {
        shape: stripe.shape,
        index: at.index,
        rest: at.rest as usize,
        len,
    }
}

// Writes the front of a buffer over bytes in memory, if they are given.
fn paste(given: bool, bytes: &mut [u8], start: usize, front: &[u8], len: usize)
    requires fits { len ≤ length front.now }
    requires within { start + len ≤ length bytes.old }
    ensures { bytes.new ≡ (if given then pasted bytes.old start (take len front.now) else bytes.old) }
{
    if given {
        bytes[start..start + len].copy_from_slice(&front[..len]);
    }
}

// Whether the image of a block's slice isn't in doubt, where some other one of the chunk is.
fn is_surer(piece: &SlicePiece, doubts: &Doubts) -> bool
    ensures { result ≡ (doubts.now.some && not (flag_of doubts.now.doubtful piece.now.index)) }
{
    doubts.some && !flag_of(&doubts.doubtful, piece.index)
}

// What comes of a block by what it gets.
fn verdict_of(checked: bool, settled: Settled, surer: bool, piece: SlicePiece) -> Verdict
    ensures { IsVerdict checked settled surer piece result }
{
    Verdict {
        piece,
        checked,
        good: settled.good,
        given: settled.given,
        sure: settled.given || !checked && surer,
    }
}

// Judges a block by the row as it was read, and puts what it gets into the new data.
pub(crate) fn judge_block(
    want: &Want,
    view: &RowView<'_>,
    new: &mut [u8],
    block: &mut [u8],
    spare: &mut [u8],
) -> Verdict
    requires view { IsViewed view.now }
    requires within { IsIn view.now.store.now.layout view.now.wanted.stripe want.now }
    requires new_room { OfRow view.now.store.now.layout view.now.wanted.stripe (λ row. length row.chunk.stripes * 65536 ≤ length new.old) }
    requires block { 65536 ≤ length block.old }
    requires spare { 65536 ≤ length spare.old }
    ensures verdict { JudgesBlock view.now want.now new.old new.new result }
    ensures inside { result.piece.rest + result.piece.len ≤ 65536 }
{
    let piece = piece_of(want, &view.wanted.stripe, view.store);
    let settled = settle(want, &piece, view, block, spare);
    paste(
        settled.given,
        new,
        piece.start(piece.index),
        block,
        piece.len,
    );
    let surer = is_surer(&piece, &view.wanted.doubts);
    verdict_of(!is_plain(want), settled, surer, piece)
}
