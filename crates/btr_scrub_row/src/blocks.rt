// Writing the blocks of a row at whose own places something is wrong.
ghost use Rattle.std.specs.Prelude.{◌≡◌, ◌≤◌, length};
ghost use Rattle.btr_scrub_row.specs.Memory.{IsViewed};
ghost use Rattle.btr_scrub_row.specs.Judging.{IsIn};
ghost use Rattle.btr_scrub_row.specs.Writing.{CanWrite, WritesBlock, WritesBlocks};

use crate::judging::piece_of;
use crate::row_view::RowView;
use crate::settling::settle;
use crate::stripe::place_of_part;
use crate::writing::write_front;
use btr_chunk::Part;
use btr_rack::Rack;
use btr_read::Want;
use btr_scrub_copies::MendFault;

// Writes what a block gets over it, where something is wrong there and it gets something.
fn write_block<R: Rack>(
    want: &Want,
    view: &RowView<'_>,
    rack: &mut R,
    block: &mut [u8],
    spare: &mut [u8],
    marks: &mut [bool],
) -> Result<(), MendFault>
    requires can { CanWrite view.now.store.now.layout (R.seen rack.old) marks.old }
    requires view { IsViewed view.now }
    requires within { IsIn view.now.store.now.layout view.now.wanted.stripe want.now }
    requires block { 65536 ≤ length block.old }
    requires spare { 65536 ≤ length spare.old }
    ensures slots { (R.seen rack.new).slots ≡ (R.seen rack.old).slots }
    ensures writes { WritesBlock view.now want.now marks.old marks.new (R.seen rack.old) (R.seen rack.new) result }
{
    let stripe = &view.wanted.stripe;
    let piece = piece_of(want, stripe, view.store);
    let settled = settle(want, &piece, view, block, spare);
    if settled.good || !settled.given {
        return Ok(());
    }
    let element = place_of_part(stripe, Part::Slice(piece.index), view.store);
    write_front(element, piece.rest as u64, block, piece.len, rack, marks)
}

// Writes what the blocks of a row get over them, where something is wrong there.
pub(crate) fn write_blocks<R: Rack>(
    view: &RowView<'_>,
    rack: &mut R,
    block: &mut [u8],
    spare: &mut [u8],
    marks: &mut [bool],
) -> Result<(), MendFault>
    requires can { CanWrite view.now.store.now.layout (R.seen rack.old) marks.old }
    requires view { IsViewed view.now }
    requires block { 65536 ≤ length block.old }
    requires spare { 65536 ≤ length spare.old }
    ensures slots { (R.seen rack.new).slots ≡ (R.seen rack.old).slots }
    ensures writes { WritesBlocks view.now marks.old marks.new (R.seen rack.old) (R.seen rack.new) result }
{
    for want in view.wanted.wants {
        write_block(want, view, rack, block, spare, marks)?;
    }
    Ok(())
}
