// The counts of the blocks of a row, and its columns.
ghost use Rattle.std.specs.Prelude.{◌≡◌, ℕ, ◌+◌, ◌*◌, ◌<◌, ◌≤◌, ◌^◌, ◌||◌, length};
ghost use Rattle.btr_scrub_row.specs.Memory.{IsViewed, OfRow};
ghost use Rattle.btr_scrub_row.specs.Judging.{CountsVerdict, JudgesRow, flag, meets_piece};

use crate::buffer::ELEMENT;
use crate::gathering::copy_front;
use crate::judging::{Verdict, judge_block};
use crate::row_view::RowView;
use crate::slice_piece::SlicePiece;

// What the blocks of a row come to: checked blocks, and plain sectors.
#[derive(Clone, Copy, Debug, PartialEq, Eq)]
pub(crate) struct Judged {
    // How many checked blocks there are.
    pub(crate) blocks: u64,
    // How many have something wrong at their own place.
    pub(crate) bad: u64,
    // How many of those get bytes.
    pub(crate) rebuilt: u64,
    // Of how many checked blocks no candidate passes.
    pub(crate) lost: u64,
    // By column, whether it meets a block.
    pub(crate) met: [bool; 16],
    // By column, whether it meets a block in whose place nothing sure stands in the new data.
    pub(crate) broken: [bool; 16],
}

// Whether a block has bytes in a column.
fn meets(column: usize, piece: &SlicePiece) -> bool
    requires column { column < 16 }
    requires inside { piece.now.rest + piece.now.len ≤ 65536 }
    ensures { result ≡ meets_piece column piece.now }
{
    piece.rest < column * 4096 + 4096 && column * 4096 < piece.rest + piece.len
}

fn either(one: bool, other: bool) -> bool
    ensures { result ≡ (one || other) }
{
    one || other
}

// Flags by column, and those of the columns that a block meets.
fn marked(flags: [bool; 16], piece: &SlicePiece) -> [bool; 16]
    requires inside { piece.now.rest + piece.now.len ≤ 65536 }
    ensures { (column : ℕ) → column < 16 → flag result column ≡ (flag flags column || meets_piece column piece.now) }
{
    let mut flags = flags;
    for column in 0..16 {
        flags[column] = either(flags[column], meets(column, piece));
    }
    flags
}

// One more block.
fn counted(judged: &Judged, verdict: &Verdict) -> Judged
    requires inside { verdict.now.piece.rest + verdict.now.piece.len ≤ 65536 }
    requires blocks { judged.now.blocks + 1 < 2 ^ 64 }
    requires bad { judged.now.bad + 1 < 2 ^ 64 }
    requires rebuilt { judged.now.rebuilt + 1 < 2 ^ 64 }
    requires lost { judged.now.lost + 1 < 2 ^ 64 }
    ensures { CountsVerdict judged.now verdict.now result }
{
    let is_rebuilt = !verdict.good && verdict.given;
    let is_lost = verdict.checked && !verdict.given;
    Judged {
        blocks: judged.blocks + u64::from(verdict.checked),
        bad: judged.bad + u64::from(!verdict.good),
        rebuilt: judged.rebuilt + u64::from(is_rebuilt),
        lost: judged.lost + u64::from(is_lost),
        met: marked(judged.met, &verdict.piece),
        broken: if verdict.sure {
            judged.broken
        } else {
            marked(judged.broken, &verdict.piece)
        },
    }
}

// Judges the blocks of a row as it was read, and makes the new data.
pub(crate) fn judge(
    view: &RowView<'_>,
    new: &mut [u8],
    block: &mut [u8],
    spare: &mut [u8],
) -> Judged
    requires view { IsViewed view.now }
    requires new_room { OfRow view.now.store.now.layout view.now.wanted.stripe (λ row. length row.chunk.stripes * 65536 ≤ length new.old) }
    requires block { 65536 ≤ length block.old }
    requires spare { 65536 ≤ length spare.old }
    ensures { JudgesRow view.now new.new result }
{
    let slices = view.wanted.stripe.shape.slices;
    copy_front(new, view.old, 0, slices as usize * ELEMENT);
    let mut judged = Judged {
        blocks: 0,
        bad: 0,
        rebuilt: 0,
        lost: 0,
        met: [false; 16],
        broken: [false; 16],
    };
    for want in view.wanted.wants {
        let verdict = judge_block(want, view, new, block, spare);
        judged = counted(&judged, &verdict);
    }
    judged
}
