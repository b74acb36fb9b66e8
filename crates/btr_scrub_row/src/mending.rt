// A full stripe, mended.
ghost use Rattle.std.specs.Prelude.{◌≡◌, ℕ, ◌≤◌, false, length, IsTrue};
ghost use Rattle.btr_read.specs.Serves.{Serves};
ghost use Rattle.btr_read.specs.Store.{SameLoans};
ghost use Rattle.btr_scrub_copies.specs.Writes.{AccountsMend, AreWritable};
ghost use Rattle.btr_scrub_row.specs.Rows.{Row};
ghost use Rattle.btr_scrub_copies.specs.Fresh.{flagged};
ghost use Rattle.btr_scrub_row.specs.Mending.{HasRoom, HasRoomFor, IsOfRow, IsRow, IsRowOf, MendsRow};
ghost use Rattle.btr_scrub_row.specs.Memory.{IsStripeOf, IsWanted, IsWantedRow};

use crate::applying::{count_parities, write_row};
use crate::doubts::doubts_of;
use crate::preparing::prepare;
use crate::stripe::full_stripe;
use crate::wanted_row::WantedRow;
use crate::{MendedRow, RowBuffer, RowWork};
use btr_rack::Rack;
use btr_read::Store;
use btr_scrub_copies::MendFault;

// The row of a work, and what is known of its images.
fn wanted_row<'a>(work: &RowWork<'a>, store: &Store) -> WantedRow<'a>
    requires nodesize { work.now.at.nodesize ≡ store.now.layout.setting.nodesize }
    requires row { IsRow store.now.layout work.now.at.chunk work.now.at.number work.now.wants.now }
    ensures there { IsWanted store.now.layout result }
    ensures stripe { (row : Row) → IsRowOf store.now.layout work.now.at.chunk work.now.at.number work.now.wants.now row
        → IsStripeOf store.now.layout result.stripe row }
    ensures is { (row : Row) → IsRowOf store.now.layout work.now.at.chunk work.now.at.number work.now.wants.now row
        → row.failing ≡ flagged work.now.failing.now → IsWantedRow store.now.layout result row }
{
    let stripe = full_stripe(work.at.chunk, work.at.number, work.at.nodesize, store);
    WantedRow {
        wants: work.wants,
        stripe,
        doubts: doubts_of(&stripe, work.failing, store),
    }
}

/// Mends a full stripe (`docs/FORMAT.md`, "Full stripes"). The row is read whole, one call for each element, and every choice is made from
/// those bytes. Each checked block that doesn't pass at its own place is written over with the bytes of its first candidate that passes, and each sector
/// without a checksum on an image that is behind with those of its first candidate that reads no image in doubt, where they differ, in the order of the
/// wants. Then comes each sector of P, and of Q, that differs from that of the new data, in the columns of 4096 bytes that meet a block, where all that do
/// are sure: a checked block that isn't lost, a sector that is written, or one on an image that isn't in doubt where some image of the chunk is; one write
/// each. Where there are both, the marked images are synced between them, by ascending slot, and their marks taken away: so
/// wherever the writes are stopped, or power fails, nothing of a parity is stored before all blocks are. Where the row is only to be read, nothing is
/// written. The slots that were written are marked.
///
/// By slot it is flagged on which images some checked block doesn't pass. The chunk has parity, the row is one of it, and each of its elements stands
/// on a device that is given. The wants are blocks of the row, its node size is that of the store, and the buffer has room for as many elements as
/// the chunk has stripes. Where the row is to be written, each image was opened for writing. Nothing is lent, and no slot need be free.
///
/// There is a mark for each slot, and it is taken away by that sync alone.
///
/// `Image`: a read, a write or a sync of an image failed, and nothing was tried behind it; no byte is written before all is read. Where the row is only to
/// be read, it was a read in one of its elements. `Memory`: a write wanted memory.
pub fn mend_row<R: Rack>(
    work: RowWork<'_>,
    rack: &mut R,
    store: &mut Store,
    buffer: &mut RowBuffer,
    marks: &mut [bool],
) -> Result<MendedRow, MendFault>
    requires serves { Serves (R.seen rack.old) store.old }
    requires writable { IsTrue work.write → AreWritable (R.seen rack.old).slots }
    requires slots { length marks.old ≡ length (R.seen rack.old).slots }
    requires nodesize { work.at.nodesize ≡ store.old.layout.setting.nodesize }
    requires row { IsRow store.old.layout work.at.chunk work.at.number work.wants.now }
    requires room { HasRoomFor store.old.layout work.at.chunk work.at.number work.wants.now buffer.old }
    ensures serves { Serves (R.seen rack.new) store.new }
    ensures loans { SameLoans store.old store.new }
    ensures room { (elements : ℕ) → HasRoom buffer.old elements → HasRoom buffer.new elements }
    ensures mends { (row : Row) → IsRowOf store.old.layout work.entry.at.chunk work.entry.at.number work.entry.wants.now row
        → row.failing ≡ flagged work.entry.failing.now
        → MendsRow store.old.layout row work.entry.write marks.old marks.new (R.seen rack.old) (R.seen rack.new) result }
    ensures account { work.entry.write ≡ false → (row : Row) → IsRowOf store.old.layout work.entry.at.chunk work.entry.at.number work.entry.wants.now row
        → AccountsMend (IsOfRow store.old.layout row) (R.seen rack.old) (R.seen rack.new) result }
{
    let wanted = wanted_row(&work, store);
    let stripe = &wanted.stripe;
    let judged = prepare(&wanted, rack, store, buffer)?;
    if !work.write {
        return Ok(MendedRow {
            blocks: judged.blocks,
            bad: judged.bad,
            repaired: 0,
            lost: judged.lost,
            parity: count_parities(stripe, &judged, store, buffer),
        });
    }
    store.forget_kept();
    write_row(&wanted, &judged, rack, store, buffer, marks)?;
    Ok(MendedRow {
        blocks: judged.blocks,
        bad: judged.bad,
        repaired: judged.rebuilt,
        lost: judged.lost,
        parity: count_parities(stripe, &judged, store, buffer),
    })
}
