// The blocks of a chunk with copies, and its sectors without a checksum.
ghost use Rattle.std.specs.Prelude.{◌≡◌, ◌&&◌, not, true, Ok, OnOk};
ghost use Rattle.btr_read.specs.Candidates.{Target};
ghost use Rattle.btr_read.specs.Fate.{is_plain, sought};
ghost use Rattle.btr_read.specs.Store.{SameLoans};
ghost use Rattle.btr_read.specs.Serves.{Serves};
ghost use Rattle.btr_scrub_copies.specs.Mending.{IsCopied};
ghost use Rattle.btr_scrub.specs.WrittenRanges.{alone};
ghost use Rattle.btr_scrub.specs.Listed.{PassesIf};
ghost use Rattle.btr_scrub_copies.specs.Fresh.{flagged};
ghost use Rattle.btr_scrub.specs.Judged.{has_behind};
ghost use Rattle.btr_scrub_row.specs.Wanted.{mending_writes};
ghost use Rattle.btr_scrub.specs.Scrubbing.{CanMend, CopiesComeNext, GivesBelow, PassesChunk, RepairsSite, Scrubs, ScrubsChunk};
ghost use Rattle.btr_scrub.specs.Scrubbing.{count_site, counted, counted_plain, counted_site, sites_count, sites_in, sites_writes};

use crate::progress::ScrubState;
use crate::reader::Reader;
use crate::tally::Tally;
use crate::task::{ChunkTask, Task};
use btr_chunk::Chunk;
use btr_rack::Rack;
use btr_read::{Store, Want};
use btr_scrub_copies::{MendFault, Mended, is_behind, mend_copies, mend_plain};
use btr_scrub_row::is_plain;

// The next block, if it lies before an address; else the reader stays where it is.
pub(crate) fn next_below(blocks: &mut Reader<'_>, end: u64) -> Option<Want>
    ensures { GivesBelow blocks.old end result blocks.new }
{
    let mut ahead = blocks.again();
    let want = ahead.next()?;
    if want.addr() >= end {
        return None;
    }
    *blocks = ahead;
    Some(want)
}

// Counts with those of one more block, each of which stands still at its type's end.
fn counted(tally: &Tally, mended: &Mended) -> Tally
    ensures { result ≡ counted tally.now mended.now }
{
    Tally {
        blocks: tally.blocks.saturating_add(1),
        bad: tally.bad.saturating_add(u64::from(mended.bad)),
        repaired: tally.repaired.saturating_add(u64::from(mended.repaired)),
        lost: tally.lost.saturating_add(u64::from(mended.lost)),
        parity: tally.parity,
        unchecked: tally.unchecked,
    }
}

// Counts with those of one more sector without a checksum.
fn counted_plain(tally: &Tally, mended: &Mended) -> Tally
    ensures { result ≡ counted_plain tally.now mended.now }
{
    Tally {
        bad: tally.bad.saturating_add(u64::from(mended.bad)),
        repaired: tally.repaired.saturating_add(u64::from(mended.repaired)),
        ..*tally
    }
}

// Counts with those of what a want is of.
fn counted_site(want: &Want, tally: &Tally, mended: &Mended) -> Tally
    ensures { result ≡ counted_site (is_plain want.now) tally.now mended.now }
{
    if is_plain(want) {
        counted_plain(tally, mended)
    } else {
        counted(tally, mended)
    }
}

// Mends a block by its copies, or brings a sector without a checksum up to date by them.
fn mend_want<R: Rack>(
    want: &Want,
    task: Task<'_>,
    rack: &mut R,
    store: &mut Store,
    marks: &mut [bool],
) -> Result<Mended, MendFault>
    requires ready { CanMend task.write (R.seen rack.old) store.old marks.old }
    requires copied { IsCopied store.old.layout want.now }
    ensures serves { Serves (R.seen rack.new) store.new }
    ensures loans { SameLoans store.old store.new }
    ensures mends { (t : Target) → sought store.old.layout want.now ≡ Ok t
        → RepairsSite (flagged task.entry.failing.now) t task.entry.write marks.old marks.new (R.seen rack.old) (R.seen rack.new) result }
{
    if is_plain(want) {
        mend_plain(want, task.write, task.failing, rack, store, marks)
    } else {
        mend_copies(want, task.write, rack, store, marks)
    }
}

// The same, and counts what came of it.
fn mend_site<R: Rack>(
    want: &Want,
    task: Task<'_>,
    rack: &mut R,
    store: &mut Store,
    progress: &mut ScrubState,
) -> Result<(), MendFault>
    requires ready { CanMend task.write (R.seen rack.old) store.old progress.old.marks.items }
    requires copied { IsCopied store.old.layout want.now }
    ensures ready { CanMend task.entry.write (R.seen rack.new) store.new progress.new.marks.items }
    ensures loans { SameLoans store.old store.new }
    ensures scrubs { (t : Target) → sought store.old.layout want.now ≡ Ok t
        → Scrubs (alone store.old.layout t.chunk) task.entry.write (λ images. mending_writes images (flagged task.entry.failing.now) t)
        (λ images tally. count_site (flagged task.entry.failing.now) images task.entry.write tally t)
        progress.old.marks.items progress.new.marks.items (R.seen rack.old) (R.seen rack.new) progress.old.tally progress.new.tally result }
{
    let mended = mend_want(want, task, rack, store, &mut progress.marks)?;
    progress.tally = counted_site(want, &progress.tally, &mended);
    Ok(())
}

// Whether some image of a chunk is behind.
fn has_behind(chunk: &Chunk, failing: &[bool], store: &Store) -> bool
    ensures { result ≡ has_behind store.now.layout.devices (flagged failing.now) chunk.now }
{
    for i in 0..chunk.stripes.len() {
        if is_behind(chunk.stripes.at(i).devid, failing, store) {
            return true;
        }
    }
    false
}

// Whether a want is of a sector without a checksum, in a chunk no image of which is behind.
fn is_inert(want: &Want, behind: bool) -> bool
    ensures { result ≡ (is_plain want.now && not behind) }
{
    is_plain(want) && !behind
}

/// Passes over the sectors without a checksum that come next and follow each other, if that is
/// wanted, as far as they begin before an address.
pub(crate) fn pass_if(wanted: bool, end: u64, blocks: &mut Reader<'_>)
    ensures { PassesIf wanted blocks.old end blocks.new }
{
    if wanted {
        blocks.pass_plain(end);
    }
}

/// Mends the blocks of the chunk of a task, a chunk with copies, that a reader has next, and brings its sectors without a checksum up to date. Where
/// no image of the chunk is behind, those that follow each other are passed at once.
///
/// `Image`: a read or a write of an image failed, and nothing was tried behind it. `Memory`: a write wanted memory.
pub(crate) fn mend_blocks<R: Rack>(
    task: ChunkTask<'_>,
    blocks: &mut Reader<'_>,
    rack: &mut R,
    store: &mut Store,
    progress: &mut ScrubState,
) -> Result<(), MendFault>
    requires ready { CanMend task.how.write (R.seen rack.old) store.old progress.old.marks.items }
    requires chunk { CopiesComeNext store.old.layout task.number blocks.old }
    ensures ready { CanMend task.entry.how.write (R.seen rack.new) store.new progress.new.marks.items }
    ensures loans { SameLoans store.old store.new }
    ensures past { OnOk result (PassesChunk store.old.layout task.entry.number blocks.old blocks.new) }
    ensures scrubs { ScrubsChunk store.old.layout task.entry
        (λ chunk. sites_writes (flagged task.entry.how.failing.now) (sites_in store.old.layout chunk blocks.old))
        (λ chunk. sites_count (flagged task.entry.how.failing.now) task.entry.how.write (sites_in store.old.layout chunk blocks.old))
        progress.old progress.new (R.seen rack.old) (R.seen rack.new) result }
{
    let chunk = store.chunks().at(task.number);
    let end = chunk.start + chunk.length;
    let behind = has_behind(chunk, task.how.failing, store);
    while let Some(want) = next_below(blocks, end) {
        mend_site(&want, task.how, rack, store, progress)?;
        pass_if(is_inert(&want, behind), end, blocks);
    }
    Ok(())
}
