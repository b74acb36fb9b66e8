// The full stripes of a chunk with parity.
ghost use Rattle.std.specs.Prelude.{◌≡◌, ◌∷◌, [], ◌++◌, ◌<◌, true, length, slice_get, Some, IsSome, IfSome, IsTrue, IfOk, OnOk};
ghost use Rattle.std.specs.List.{All};
ghost use Rattle.btr_chunk.specs.Chunk.{IsChunk};
ghost use Rattle.btr_chunk.specs.Table.{chunk_at};
ghost use Rattle.btr_chunk.specs.declared.chunk.Chunk.{Chunk};
ghost use Rattle.btr_read.specs.Fate.{is_plain};
ghost use Rattle.btr_read.specs.Store.{SameLoans};
ghost use Rattle.btr_read.specs.Want.{addr_of};
ghost use Rattle.btr_scrub_copies.specs.Fresh.{flagged};
ghost use Rattle.btr_scrub_row.specs.Mending.{IsRow, IsRowOf, mended_row};
ghost use Rattle.btr_scrub_row.specs.Rows.{Row, row_writes};
ghost use Rattle.btr_scrub.specs.Listed.{IsList};
ghost use Rattle.btr_scrub.specs.WrittenRanges.{alone};
ghost use Rattle.btr_scrub.specs.Order.{targets};
ghost use Rattle.btr_scrub.specs.Repair.{rows_in};
ghost use Rattle.btr_scrub.specs.Rowing.{Collects, CollectsRow, GivesInRow, IsInert, KeepsRows, PassesRows, PassesUnless, StartsRow, row_in};
ghost use Rattle.btr_scrub.specs.Rowing.{row_start, untouched};
ghost use Rattle.btr_scrub.specs.Scrubbing.{CanMend, HasRooms, PassesChunk, RowsComeNext, Scrubs, ScrubsChunk, counted_row, rows_count, rows_writes};

use crate::copied::next_below;
use crate::listed::Listed;
use crate::progress::ScrubState;
use crate::reader::Reader;
use crate::tally::Tally;
use crate::task::{ChunkTask, Task};
use btr_base::Memory;
use btr_chunk::{Chunk, elements};
use btr_rack::Rack;
use btr_read::{Store, Want};
use btr_scrub_copies::MendFault;
use btr_scrub_row::{MendedRow, RowAt, RowBuffer, RowWork, has_doubtful, is_plain, mend_row};

/// Memory for the full stripes, one after another: the checked blocks of one, and its bytes.
#[derive(Drop)]
pub(crate) struct RowRoom {
    pub(crate) wants: Vec<Want>,
    pub(crate) buffer: RowBuffer,
}

// Sectors without a checksum, one behind another: the address of the first, and how many they are.
#[derive(Clone, Copy)]
struct PlainRun {
    addr: u64,
    count: u32,
}

// The row of a chunk in which an address lies, if it lies in the chunk.
fn row_in(chunk: &Chunk, addr: u64) -> Option<u64>
    requires { IsChunk chunk.now }
    ensures { result ≡ row_in chunk.now addr }
{
    match elements(chunk, addr, 1) {
        Ok(at) => Some(at.row),
        Err(_) => None,
    }
}

// The next block, if it lies in a row of a chunk; else the reader stays where it is.
fn next_in_row(chunk: &Chunk, row: u64, blocks: &mut Reader<'_>) -> Option<Want>
    requires { IsChunk chunk.now }
    ensures { GivesInRow chunk.now row blocks.old result blocks.new }
{
    let mut ahead = blocks.again();
    let want = ahead.next()?;
    if row_in(chunk, want.addr()) != Some(row) {
        return None;
    }
    *blocks = ahead;
    Some(want)
}

// Puts a block behind the others of its row.
fn push(wants: &mut Vec<Want>, want: Want) -> Result<(), Memory>
    ensures { OnOk result (wants.new.items ≡ wants.old.items ++ want ∷ []) }
{
    wants.push(want).map_err(|_| Memory)
}

// Collects the blocks of a row: a first one, and those that a reader has next.
fn collect(
    chunk: &Chunk,
    row: u64,
    first: Want,
    blocks: &mut Reader<'_>,
    wants: &mut Vec<Want>,
) -> Result<(), Memory>
    requires { IsChunk chunk.now }
    ensures { OnOk result (Collects chunk.now row first blocks.old blocks.new wants.new.items) }
{
    wants.clear();
    push(wants, first)?;
    while let Some(want) = next_in_row(chunk, row, blocks) {
        push(wants, want)?;
    }
    Ok(())
}

// The same for the row in which the first block lies, whose number comes out.
pub(crate) fn collect_row(
    store: &Store,
    first: Want,
    blocks: &mut Reader<'_>,
    wants: &mut Vec<Want>,
) -> Result<u64, Memory>
    requires { IsSome (chunk_at store.now.layout.chunks (addr_of first)) }
    ensures { (chunk : Chunk) → chunk_at store.now.layout.chunks (addr_of first) ≡ Some chunk
        → IfOk result (CollectsRow chunk first blocks.old blocks.new wants.new.items) }
{
    let Some(chunk) = store.chunks().find(first.addr()) else {
        unreachable!();
    };
    let Some(row) = row_in(chunk, first.addr()) else {
        unreachable!();
    };
    collect(chunk, row, first, blocks, wants)?;
    Ok(row)
}

// Counts with those of a row, each of which stands still at its type's end.
fn counted_row(tally: &Tally, mended: &MendedRow) -> Tally
    ensures { result ≡ counted_row tally.now mended.now }
{
    Tally {
        blocks: tally.blocks.saturating_add(mended.blocks),
        bad: tally.bad.saturating_add(mended.bad),
        repaired: tally.repaired.saturating_add(mended.repaired),
        lost: tally.lost.saturating_add(mended.lost),
        parity: tally.parity.saturating_add(mended.parity),
        unchecked: tally.unchecked,
    }
}

// Whether some wants are all of sectors without a checksum.
fn are_plain(wants: &[Want]) -> bool
    ensures { IsTrue result → All (λ want. is_plain want ≡ true) wants.now }
{
    for want in wants {
        if !is_plain(want) {
            return false;
        }
    }
    true
}

// Whether a row holds nothing but sectors without a checksum, in a chunk no image of which is in doubt: nothing comes of it then.
fn is_inert(at: RowAt, wants: &[Want], failing: &[bool], store: &Store) -> bool
    requires { IsRow store.now.layout at.chunk at.number wants.now }
    ensures { IsTrue result → (r : Row) → IsRowOf store.now.layout at.chunk at.number wants.now r
        → r.failing ≡ flagged failing.now → IsInert store.now.layout r }
{
    let Some(chunk) = store.chunks().find(at.chunk) else {
        unreachable!();
    };
    are_plain(wants) && !has_doubtful(chunk, failing, store)
}

// What comes of a row of which nothing does.
fn untouched() -> MendedRow
    ensures { result ≡ untouched }
{
    MendedRow {
        blocks: 0,
        bad: 0,
        repaired: 0,
        lost: 0,
        parity: 0,
    }
}

// Mends a row whose blocks were collected, and counts what came of it. It is read only where something can come of it.
fn mend_collected<R: Rack>(
    at: RowAt,
    task: Task<'_>,
    rack: &mut R,
    store: &mut Store,
    room: &mut RowRoom,
    progress: &mut ScrubState,
) -> Result<(), MendFault>
    requires ready { CanMend task.write (R.seen rack.old) store.old progress.old.marks.items }
    requires nodesize { at.nodesize ≡ store.old.layout.setting.nodesize }
    requires rooms { HasRooms store.old.layout room.old.buffer }
    requires row { IsRow store.old.layout at.chunk at.number room.old.wants.items }
    ensures ready { CanMend task.entry.write (R.seen rack.new) store.new progress.new.marks.items }
    ensures loans { SameLoans store.old store.new }
    ensures rooms { HasRooms store.old.layout room.new.buffer }
    ensures scrubs { (r : Row) → IsRowOf store.old.layout at.chunk at.number room.old.wants.items r → r.failing ≡ flagged task.entry.failing.now
        → Scrubs (alone store.old.layout r.chunk) task.entry.write (λ images. row_writes images store.old.layout r)
        (λ images tally. counted_row tally (mended_row images store.old.layout r task.entry.write))
        progress.old.marks.items progress.new.marks.items (R.seen rack.old) (R.seen rack.new) progress.old.tally progress.new.tally result }
{
    if is_inert(at, &room.wants, task.failing, store) {
        progress.tally = counted_row(&progress.tally, &untouched());
        return Ok(());
    }
    let work = RowWork {
        at,
        wants: &room.wants,
        failing: task.failing,
        write: task.write,
    };
    let mended = mend_row(work, rack, store, &mut room.buffer, &mut progress.marks)?;
    progress.tally = counted_row(&progress.tally, &mended);
    Ok(())
}

// The start of the row of a chunk in which an address lies.
fn row_start(chunk: &Chunk, addr: u64) -> u64
    requires { IsChunk chunk.now }
    ensures { result ≡ row_start chunk.now addr }
{
    match elements(chunk, addr, 1) {
        Ok(at) => addr
            .saturating_sub(at.rest)
            .saturating_sub(u64::from(at.index) * 65536),
        Err(_) => addr,
    }
}

// The row of a chunk that starts at an address, if one does behind an earlier one.
fn row_from(chunk: &Chunk, addr: u64) -> Option<u64>
    requires { IsChunk chunk.now }
    ensures { IfSome result (StartsRow chunk.now addr) }
{
    let row = row_in(chunk, addr)?;
    let last = row_in(chunk, addr.saturating_sub(1))?;
    if last < row { Some(row) } else { None }
}

// Passes over the sectors without a checksum that come next from an address on, if they reach a place at which a row starts; they come out then.
fn pass_to(chunk: &Chunk, from: u64, start: u64, blocks: &mut Reader<'_>) -> Option<PlainRun>
    requires { IsChunk chunk.now }
    ensures { PassesRows chunk.now blocks.old result blocks.new }
{
    let _row = row_from(chunk, start)?;
    let mut ahead = blocks.again();
    let end = ahead.pass_from(from, start);
    let count = end.saturating_sub(from) / 4096;
    if end < start || count == 0 || count > u64::from(u32::MAX) {
        return None;
    }
    *blocks = ahead;
    Some(PlainRun {
        addr: from,
        count: count as u32,
    })
}

// Passes over the sectors without a checksum that come next and follow each other, up to the start of the last row that they
// reach; they come out then.
fn pass_rows(chunk: &Chunk, blocks: &mut Reader<'_>) -> Option<PlainRun>
    requires { IsChunk chunk.now }
    ensures { PassesRows chunk.now blocks.old result blocks.new }
{
    let from = blocks.plain_at()?;
    let last = chunk.start + (chunk.length - 1);
    let end = blocks.again().pass_from(from, last);
    pass_to(chunk, from, row_start(chunk, end.min(last)), blocks)
}

/// Passes over the sectors without a checksum that come next and follow each other, up to the start of the last row that they
/// reach, and puts them behind a list. After `Memory` the list isn't used again.
pub(crate) fn keep_rows(
    chunk: &Chunk,
    blocks: &mut Reader<'_>,
    kept: &mut Listed,
) -> Result<(), Memory>
    requires chunk { IsChunk chunk.now }
    requires is_list { IsList kept.old }
    ensures { OnOk result (KeepsRows chunk.now blocks.old blocks.new kept.old kept.new) }
{
    match pass_rows(chunk, blocks) {
        Some(run) => kept.push_plains(run.addr, run.count),
        None => Ok(()),
    }
}

// Passes over the rows of the chunk of a number that hold nothing else, unless some image of it is in doubt.
fn pass_inert(number: usize, doubtful: bool, blocks: &mut Reader<'_>, store: &Store)
    requires { number < length store.now.layout.chunks }
    ensures { (chunk : Chunk) → slice_get store.now.layout.chunks number ≡ Some chunk
        → PassesUnless doubtful chunk blocks.old blocks.new }
{
    if !doubtful {
        pass_rows(store.chunks().at(number), blocks);
    }
}

/// Mends the full stripes of the chunk of a number, a chunk with parity, whose blocks a reader has next. Where no image of the
/// chunk is in doubt, those that hold nothing but sectors without a checksum are passed at once, where the list has them one
/// behind another.
///
/// `Image`: a read or a write of an image failed, and nothing was tried behind it. `Memory`: a write wanted memory.
pub(crate) fn mend_rows<R: Rack>(
    task: ChunkTask<'_>,
    blocks: &mut Reader<'_>,
    rack: &mut R,
    store: &mut Store,
    room: &mut RowRoom,
    progress: &mut ScrubState,
) -> Result<(), MendFault>
    requires ready { CanMend task.how.write (R.seen rack.old) store.old progress.old.marks.items }
    requires nodesize { task.how.nodesize ≡ store.old.layout.setting.nodesize }
    requires rooms { HasRooms store.old.layout room.old.buffer }
    requires chunk { RowsComeNext store.old.layout task.number blocks.old }
    ensures ready { CanMend task.entry.how.write (R.seen rack.new) store.new progress.new.marks.items }
    ensures loans { SameLoans store.old store.new }
    ensures rooms { HasRooms store.old.layout room.new.buffer }
    ensures past { OnOk result (PassesChunk store.old.layout task.entry.number blocks.old blocks.new) }
    ensures scrubs { ScrubsChunk store.old.layout task.entry
        (λ chunk. rows_writes store.old.layout (rows_in (flagged task.entry.how.failing.now) (targets store.old.layout blocks.old) chunk))
        (λ chunk. rows_count store.old.layout task.entry.how.write (rows_in (flagged task.entry.how.failing.now) (targets store.old.layout blocks.old) chunk))
        progress.old progress.new (R.seen rack.old) (R.seen rack.new) result }
{
    let chunk = store.chunks().at(task.number);
    let start = chunk.start;
    let end = start + chunk.length;
    let doubtful = has_doubtful(chunk, task.how.failing, store);
    while let Some(first) = next_below(blocks, end) {
        let Ok(number) = collect_row(store, first, blocks, &mut room.wants) else {
            return Err(MendFault::Memory);
        };
        let at = RowAt {
            chunk: start,
            number,
            nodesize: task.how.nodesize,
        };
        mend_collected(at, task.how, rack, store, room, progress)?;
        pass_inert(task.number, doubtful, blocks, store);
    }
    Ok(())
}
