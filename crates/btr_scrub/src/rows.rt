// What is kept of the full stripes of a chunk with parity: all blocks of one, or none.
ghost use Rattle.std.specs.Prelude.{◌≡◌, ◌∷◌, ℕ, [], false, IfOk, IfSome, None, Ok, OnOk, Some, if◌then◌else◌};
ghost use Rattle.std.specs.List.{list_any};
ghost use Rattle.btr_chunk.specs.Chunk.{mirrors};
ghost use Rattle.btr_rack.specs.Rack.{OnlyReads};
ghost use Rattle.btr_read.specs.Candidates.{Target};
ghost use Rattle.btr_read.specs.Fate.{is_plain, sought};
ghost use Rattle.btr_read.specs.Store.{SameLoans};
ghost use Rattle.btr_scrub_copies.specs.Fresh.{flagged};
ghost use Rattle.btr_scrub_copies.specs.Writes.{AccountsMend};
ghost use Rattle.btr_scrub_row.specs.Mending.{IsRow, IsRowOf};
ghost use Rattle.btr_scrub_row.specs.Rows.{Row};
ghost use Rattle.btr_scrub.specs.Listed.{AddsAll, AreOfKind, IsList};
ghost use Rattle.btr_scrub.specs.Order.{AreApart};
ghost use Rattle.btr_scrub.specs.Scrubbing.{CanMend, HasRooms};
ghost use Rattle.btr_scrub.specs.Sifting.{CanSift, SiftsNext, is_troubled, sound_in};
ghost use Rattle.btr_scrub.specs.WrittenRanges.{LiesInStripe};

use crate::listed::Listed;
use crate::reader::Reader;
use crate::rowed::{RowRoom, collect_row};
use crate::sifted::Sifted;
use btr_base::Memory;
use btr_rack::Rack;
use btr_read::{Store, Want};
use btr_scrub_copies::MendFault;
use btr_scrub_row::{MendedRow, RowAt, RowWork, is_plain, mend_row};

// Whether there is a sector without a checksum among some wants.
fn has_plain(wants: &[Want]) -> bool
    ensures { result ≡ list_any is_plain wants.now }
{
    wants.iter().any(|want| is_plain(want))
}

// How many checked blocks a row has of which this would come, if nothing in it is wrong.
fn sound_of(mended: &MendedRow) -> Option<u64>
    ensures { result ≡ (if is_troubled mended.now then None else Some mended.now.blocks) }
{
    if mended.bad > 0 || mended.lost > 0 || mended.parity > 0 {
        return None;
    }
    Some(mended.blocks)
}

// How many checked blocks a row has whose blocks were collected, if nothing may have to be written in it. It is read, unless a
// sector without a checksum lies in it.
fn sound_in<R: Rack>(
    at: RowAt,
    rack: &mut R,
    store: &mut Store,
    room: &mut RowRoom,
    marks: &mut [bool],
) -> Result<Option<u64>, MendFault>
    requires ready { CanMend false (R.seen rack.old) store.old marks.old }
    requires nodesize { at.nodesize ≡ store.old.layout.setting.nodesize }
    requires rooms { HasRooms store.old.layout room.old.buffer }
    requires row { IsRow store.old.layout at.chunk at.number room.old.wants.items }
    ensures ready { CanMend false (R.seen rack.new) store.new marks.new }
    ensures loans { SameLoans store.old store.new }
    ensures reads { OnlyReads (R.seen rack.old) (R.seen rack.new) }
    ensures rooms { HasRooms store.old.layout room.new.buffer }
    ensures wants { room.new.wants ≡ room.old.wants }
    ensures sound { (row : Row) → IsRowOf store.old.layout at.chunk at.number room.old.wants.items row → row.failing ≡ flagged []
        → IfOk result (λ sound. IfSome (R.seen rack.old).held (λ images. sound ≡ sound_in images store.old.layout row)) }
    ensures account { AccountsMend (LiesInStripe store.old.layout) (R.seen rack.old) (R.seen rack.new) result }
{
    if has_plain(&room.wants) {
        return Ok(None);
    }
    let work = RowWork {
        at,
        wants: &room.wants,
        failing: &[],
        write: false,
    };
    let mended = mend_row(work, rack, store, &mut room.buffer, marks)?;
    Ok(sound_of(&mended))
}

// Puts some blocks behind those of a list.
fn keep_all(wants: &[Want], kept: &mut Listed) -> Result<(), Memory>
    requires is_list { IsList kept.old }
    requires of_kind { AreOfKind kept.old.kind wants.now }
    ensures { OnOk result (AddsAll kept.old kept.new wants.now) }
{
    for want in wants {
        kept.push(want)?;
    }
    Ok(())
}

/// Sifts a row of a chunk with parity: a first block, and those that a reader has next that lie in its row. It is read, unless a
/// sector without a checksum lies in it. Where something may have to be written in it, all are kept; else the checked ones are
/// counted.
///
/// `Image`: a read of an image failed, and nothing was tried behind it. `Memory`: for want of
/// memory.
pub(crate) fn sift_row<R: Rack>(
    first: Want,
    blocks: &mut Reader<'_>,
    rack: &mut R,
    store: &mut Store,
    marks: &mut [bool],
    sifted: &mut Sifted,
) -> Result<(), MendFault>
    requires ready { CanMend false (R.seen rack.old) store.old marks.old }
    requires apart { AreApart store.old.layout 0 (first ∷ blocks.old) }
    requires parity { (t : Target) → sought store.old.layout first ≡ Ok t → mirrors t.chunk ≡ None }
    requires can { CanSift store.old.layout sifted.old }
    requires of_kind { AreOfKind sifted.old.kept.kind (first ∷ blocks.old) }
    ensures ready { CanMend false (R.seen rack.new) store.new marks.new }
    ensures loans { SameLoans store.old store.new }
    ensures reads { OnlyReads (R.seen rack.old) (R.seen rack.new) }
    ensures sifts { OnOk result (SiftsNext store.old.layout (R.seen rack.old).held first blocks.old blocks.new sifted.old sifted.new) }
    ensures account { AccountsMend (LiesInStripe store.old.layout) (R.seen rack.old) (R.seen rack.new) result }
{
    let Some(chunk) = store.chunks().find(first.addr()) else {
        unreachable!();
    };
    let start = chunk.start;
    let Ok(number) = collect_row(store, first, blocks, &mut sifted.room.wants) else {
        return Err(MendFault::Memory);
    };
    let at = RowAt {
        chunk: start,
        number,
        nodesize: sifted.nodesize,
    };
    match sound_in(at, rack, store, &mut sifted.room, marks)? {
        Some(sound) => {
            sifted.sound = sifted.sound.saturating_add(sound);
            Ok(())
        }
        None => match keep_all(&sifted.room.wants, &mut sifted.kept) {
            Ok(()) => Ok(()),
            Err(Memory) => Err(MendFault::Memory),
        },
    }
}
