// Scrub as a whole.
ghost use Rattle.std.specs.Prelude.{◌≡◌, ◌≤◌, None, Err, IfSome, IfOk, IsTrue};
ghost use Rattle.btr_chunk.specs.Table.{IsTable};
ghost use Rattle.btr_read.specs.Serves.{Serves};
ghost use Rattle.btr_read.specs.Store.{free_count};
ghost use Rattle.btr_scrub_copies.specs.Writes.{AreWritable};
ghost use Rattle.btr_volume.specs.Looking.{SameVolume};
ghost use Rattle.btr_scrub.specs.Listed.{kept_wants};
ghost use Rattle.btr_scrub.specs.Order.{AreApart};
ghost use Rattle.btr_scrub.specs.Repair.{first_missing};
ghost use Rattle.btr_scrub.specs.Scrubbed.{IsSafe, IsScrubbed, called};
ghost use Rattle.btr_scrub.specs.Scrubbing.{CanMend, HasRooms, NoneIsWider};
ghost use Rattle.btr_scrub.specs.Sifting.{CanSift, begun};
ghost use Rattle.btr_scrub.specs.Whole.{Refuses, ScrubsAll, WorksFrom};

use crate::doubts::failing_images;
use crate::mending::mend_all;
use crate::missing::missing_device;
use crate::progress::ScrubState;
use crate::reader::read_all;
use crate::rowed::RowRoom;
use crate::sieve::{Sieve, stop_of};
use crate::sifted::Sifted;
use crate::tally::Tally;
use crate::task::Task;
use crate::units::sift_blocks;
use btr_base::Memory;
use btr_rack::Rack;
use btr_read::Store;
use btr_scrub_row::RowBuffer;
use btr_volume::{Stop, Volume};
use std::alloc::Global;

// A row has at most 62 slices, of 16 sectors each.
const ROW_BLOCKS: usize = 992;

// The stripes of the widest chunk with parity.
fn widest(store: &Store) -> usize
    ensures table { IsTable store.now.layout.chunks }
    ensures few { result ≤ 64 }
    ensures wide { NoneIsWider store.now.layout result }
{
    let mut most = 0;
    for i in 0..store.chunks().count() {
        let chunk = store.chunks().at(i);
        if chunk.mirrors().is_none() && chunk.stripes.len() > most {
            most = chunk.stripes.len();
        }
    }
    most
}

// Memory for the full stripes of a filesystem.
pub(crate) fn make_room(alloc: Global, store: &Store) -> Result<RowRoom, Memory>
    ensures table { IfOk result (λ room. IsTable store.now.layout.chunks) }
    ensures rooms { IfOk result (λ room. HasRooms store.now.layout room.buffer) }
{
    let Ok(wants) = Vec::with_capacity(alloc, ROW_BLOCKS) else {
        return Err(Memory);
    };
    let buffer = RowBuffer::new(alloc, widest(store))?;
    Ok(RowRoom { wants, buffer })
}

// The counts of so many checked blocks that are sound, and so many sectors without a checksum.
fn begun(sound: u64, unchecked: u64) -> Tally
    ensures { result ≡ begun sound unchecked }
{
    Tally {
        blocks: sound,
        bad: 0,
        repaired: 0,
        lost: 0,
        parity: 0,
        unchecked,
    }
}

// Mends the blocks that a sieve kept, which have a position and are apart.
fn mend_kept<R: Rack>(
    alloc: Global,
    write: bool,
    sieve: Sieve,
    marks: Vec<bool>,
    rack: &mut R,
    vol: &mut Volume,
) -> Result<Tally, Stop>
    requires ready { CanMend write (R.seen rack.old) vol.old.store marks.items }
    requires can { CanSift vol.old.store.layout sieve.sifted }
    requires large { 4096 ≤ vol.old.sup.nodesize }
    requires nodesize { vol.old.sup.nodesize ≡ vol.old.store.layout.setting.nodesize }
    requires apart { AreApart vol.old.store.layout 0 (kept_wants sieve.sifted.kept) }
    ensures serves { Serves (R.seen rack.new) vol.new.store }
    ensures volume { SameVolume vol.old vol.new }
    ensures works { WorksFrom vol.old.store.layout write (kept_wants sieve.sifted.kept) (begun sieve.sifted.sound sieve.unchecked)
        (R.seen rack.old) (R.seen rack.new) result }
{
    let Sieve {
        sifted: Sifted {
            kept,
            sound,
            mut room,
            ..
        },
        unchecked,
        ..
    } = sieve;
    let failing = match failing_images(alloc, &kept, vol.sup.nodesize, rack, &vol.store) {
        Ok(failing) => failing,
        Err(fault) => return Err(stop_of(fault)),
    };
    let task = Task {
        nodesize: vol.sup.nodesize,
        write,
        failing: &failing,
    };
    let mut progress = ScrubState {
        marks,
        tally: begun(sound, unchecked),
    };
    let mut blocks = read_all(&kept);
    match mend_all(
        task,
        &mut blocks,
        rack,
        &mut vol.store,
        &mut room,
        &mut progress,
    ) {
        Ok(()) => Ok(progress.tally),
        Err(fault) => Err(stop_of(fault)),
    }
}

// Lists and sifts the blocks, and mends those that are kept. All memory for full stripes is had
// before.
fn scrub_given<R: Rack>(
    alloc: Global,
    write: bool,
    rack: &mut R,
    vol: &mut Volume,
) -> Result<Tally, Stop>
    requires serves { Serves (R.seen rack.old) vol.old.store }
    requires room { 5 ≤ free_count vol.old.store }
    requires writable { IsTrue write → AreWritable (R.seen rack.old).slots }
    requires nodesize { vol.old.sup.nodesize ≡ vol.old.store.layout.setting.nodesize }
    requires large { 4096 ≤ vol.old.sup.nodesize }
    requires table { IsTable vol.old.store.layout.chunks }
    requires given { first_missing vol.old.store.layout ≡ None }
    ensures serves { Serves (R.seen rack.new) vol.new.store }
    ensures volume { SameVolume vol.old vol.new }
    ensures scrubs { ScrubsAll vol.old.sup vol.old.store.layout write (R.seen rack.old) (R.seen rack.new) result }
{
    let Ok(room) = make_room(alloc, &vol.store) else {
        return Err(Stop::Memory);
    };
    let Ok(mut marks) = vec![in alloc; false; rack.count()] else {
        return Err(Stop::Memory);
    };
    let sieve = sift_blocks(alloc, room, rack, vol, &mut marks)?;
    match sieve.refused {
        Some(fault) => Err(Stop::Tree(fault)),
        None => mend_kept(alloc, write, sieve, marks, rack, vol),
    }
}

/// Reads each copy of each checked block, and writes what is bad anew where a right copy or enough parity is left
/// (`docs/FORMAT.md`, "Checked blocks" and "Full stripes"); sectors without a checksum get the bytes of their first candidate
/// that reads no image in doubt, on images that are behind. With `write` false it only reads. The images of a chunk that were
/// written are synced behind it. Whatever failed, what stands in the images is what stands behind a first part of the writes, the
/// next one perhaps in part, so far as the copies that pass agree (`IsScrubbed`); and each block that could be had can be had
/// then (`IsSafe`). Five slots are free; where it writes, each image was opened for writing.
///
/// `Missing`: the device of a stripe isn't given, or its image ends before the stripe's end; nothing was read. `NoTree` and
/// `Tree`: the checked blocks can't be listed, and nothing was written. `Image`: a read, a write or a sync of an image failed,
/// and nothing was tried behind it. `Memory`: for want of memory.
pub fn scrub<R: Rack>(
    alloc: Global,
    write: bool,
    rack: &mut R,
    vol: &mut Volume,
) -> Result<Tally, Stop>
    requires serves { Serves (R.seen rack.old) vol.old.store }
    requires room { 5 ≤ free_count vol.old.store }
    requires writable { IsTrue write → AreWritable (R.seen rack.old).slots }
    requires nodesize { vol.old.sup.nodesize ≡ vol.old.store.layout.setting.nodesize }
    requires large { 4096 ≤ vol.old.sup.nodesize }
    ensures serves { Serves (R.seen rack.new) vol.new.store }
    ensures volume { SameVolume vol.old vol.new }
    ensures table { IsTable vol.old.store.layout.chunks }
    ensures slots { (R.seen rack.new).slots ≡ (R.seen rack.old).slots }
    ensures missing { IfSome (first_missing vol.old.store.layout) (Refuses (R.seen rack.old) (R.seen rack.new) result) }
    ensures scrubs { first_missing vol.old.store.layout ≡ None
        → ScrubsAll vol.old.sup vol.old.store.layout write (R.seen rack.old) (R.seen rack.new) result }
    ensures scrubbed { IsScrubbed (called vol.old write (R.seen rack.old) (R.seen rack.new) result) }
    ensures safe { IsSafe (called vol.old write (R.seen rack.old) (R.seen rack.new) result) }
{
    match missing_device(&vol.store) {
        Some(devid) => Err(Stop::Missing(devid)),
        None => scrub_given(alloc, write, rack, vol),
    }
}
