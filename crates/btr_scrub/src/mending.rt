// All chunks, one after another.
ghost use Rattle.std.specs.Prelude.{◌≡◌, ◌<◌, is_none, IsSomeAnd, OnOk, slice_get, length};
ghost use Rattle.btr_chunk.specs.Chunk.{mirrors};
ghost use Rattle.btr_read.specs.Store.{SameLoans};
ghost use Rattle.btr_scrub.specs.Order.{AreApart};
ghost use Rattle.btr_scrub_copies.specs.Fresh.{flagged};
ghost use Rattle.btr_scrub.specs.Scrubbing.{CanMend, ComesNext, HasRooms, PassesChunk, ScrubsChunk, Works, WorksChunk, all_count_for, all_writes_for};
ghost use Rattle.btr_scrub.specs.Scrubbing.{chunk_count_for, chunk_writes_for};

use crate::copied::mend_blocks;
use crate::progress::ScrubState;
use crate::reader::Reader;
use crate::rowed::{RowRoom, mend_rows};
use crate::task::{ChunkTask, Task};
use btr_rack::Rack;
use btr_read::Store;
use btr_scrub_copies::{MendFault, sync_marked};

/// Whether the chunk of a number has parity.
pub(crate) fn has_parity(number: usize, store: &Store) -> bool
    requires { number < length store.now.layout.chunks }
    ensures { IsSomeAnd (slice_get store.now.layout.chunks number) (λ chunk. result ≡ is_none (mirrors chunk)) }
{
    store.chunks().at(number).mirrors().is_none()
}

// Mends the blocks of the chunk of a number that a reader has next.
fn mend_chunk<R: Rack>(
    task: ChunkTask<'_>,
    blocks: &mut Reader<'_>,
    rack: &mut R,
    store: &mut Store,
    room: &mut RowRoom,
    progress: &mut ScrubState,
) -> Result<(), MendFault>
    requires ready { CanMend task.how.write (R.seen rack.old) store.old progress.old.marks.items }
    requires nodesize { task.how.nodesize ≡ store.old.layout.setting.nodesize }
    requires rooms { HasRooms store.old.layout room.old.buffer }
    requires chunk { ComesNext store.old.layout task.number blocks.old }
    ensures ready { CanMend task.entry.how.write (R.seen rack.new) store.new progress.new.marks.items }
    ensures loans { SameLoans store.old store.new }
    ensures rooms { HasRooms store.old.layout room.new.buffer }
    ensures past { OnOk result (PassesChunk store.old.layout task.entry.number blocks.old blocks.new) }
    ensures scrubs { ScrubsChunk store.old.layout task.entry
        (λ chunk. chunk_writes_for (flagged task.entry.how.failing.now) store.old.layout chunk blocks.old)
        (λ chunk. chunk_count_for (flagged task.entry.how.failing.now) store.old.layout task.entry.how.write chunk blocks.old)
        progress.old progress.new (R.seen rack.old) (R.seen rack.new) result }
{
    if has_parity(task.number, store) {
        mend_rows(task, blocks, rack, store, room, progress)
    } else {
        mend_blocks(task, blocks, rack, store, progress)
    }
}

// The same, and where it writes syncs the images that were written.
fn mend_and_sync<R: Rack>(
    task: ChunkTask<'_>,
    blocks: &mut Reader<'_>,
    rack: &mut R,
    store: &mut Store,
    room: &mut RowRoom,
    progress: &mut ScrubState,
) -> Result<(), MendFault>
    requires ready { CanMend task.how.write (R.seen rack.old) store.old progress.old.marks.items }
    requires nodesize { task.how.nodesize ≡ store.old.layout.setting.nodesize }
    requires rooms { HasRooms store.old.layout room.old.buffer }
    requires chunk { ComesNext store.old.layout task.number blocks.old }
    ensures ready { CanMend task.entry.how.write (R.seen rack.new) store.new progress.new.marks.items }
    ensures loans { SameLoans store.old store.new }
    ensures rooms { HasRooms store.old.layout room.new.buffer }
    ensures past { OnOk result (PassesChunk store.old.layout task.entry.number blocks.old blocks.new) }
    ensures works { WorksChunk store.old.layout task.entry
        (λ chunk. chunk_writes_for (flagged task.entry.how.failing.now) store.old.layout chunk blocks.old)
        (λ chunk. chunk_count_for (flagged task.entry.how.failing.now) store.old.layout task.entry.how.write chunk blocks.old)
        progress.old progress.new (R.seen rack.old) (R.seen rack.new) result }
{
    mend_chunk(task, blocks, rack, store, room, progress)?;
    if !task.how.write {
        return Ok(());
    }
    sync_marked(rack, &mut progress.marks)
}

/// Mends the blocks of a list, chunk by chunk, and syncs the images of each chunk that were written behind it.
///
/// `Image`: a read, a write or a sync of an image failed, and nothing was tried behind it. `Memory`: a write wanted memory.
pub(crate) fn mend_all<R: Rack>(
    task: Task<'_>,
    blocks: &mut Reader<'_>,
    rack: &mut R,
    store: &mut Store,
    room: &mut RowRoom,
    progress: &mut ScrubState,
) -> Result<(), MendFault>
    requires ready { CanMend task.write (R.seen rack.old) store.old progress.old.marks.items }
    requires nodesize { task.nodesize ≡ store.old.layout.setting.nodesize }
    requires rooms { HasRooms store.old.layout room.old.buffer }
    requires apart { AreApart store.old.layout 0 blocks.old }
    ensures ready { CanMend task.entry.write (R.seen rack.new) store.new progress.new.marks.items }
    ensures loans { SameLoans store.old store.new }
    ensures works { Works store.old.layout task.entry.write
        (all_writes_for (flagged task.entry.failing.now) store.old.layout store.old.layout.chunks blocks.old)
        (all_count_for (flagged task.entry.failing.now) store.old.layout task.entry.write store.old.layout.chunks blocks.old)
        (R.seen rack.old) (R.seen rack.new) progress.old.tally progress.new.tally result }
{
    for number in 0..store.chunks().count() {
        let chunk = ChunkTask { number, how: task };
        mend_and_sync(chunk, blocks, rack, store, room, progress)?;
    }
    Ok(())
}
