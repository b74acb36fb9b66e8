// The next extent of a file.
ghost use Rattle.std.specs.Prelude.{◌≡◌, ◌≤◌, ◌<◌, IfOk};
ghost use Rattle.btr_rack.specs.Rack.{OnlyReads};
ghost use Rattle.btr_read.specs.Serves.{Serves};
ghost use Rattle.btr_read.specs.Store.{SameLoans, free_count};
ghost use Rattle.btr_walk.specs.Reading.{HasCause};
ghost use Rattle.btr_walk.specs.ScanEnds.{IsScanReady, without_leaf};
ghost use Rattle.btr_walk.specs.Showing.{item_of};
ghost use Rattle.btr_files.specs.Ahead.{ahead_of, todo_of, AheadRankFalls, FitsAhead, FitsShape, HasFound, KeepsItem, LookedAhead};
ghost use Rattle.btr_files.specs.Content.{sector_count};
ghost use Rattle.btr_files.specs.Streaming.{IsUnderway};
ghost use Rattle.btr_files.specs.Told.{TellsExtent, TellsLooked};

use crate::Survey;
use crate::progress::{InlinePart, Progress, SectorPart, Source, Todo};
use crate::surveying::judge;
use btr_items::{FileExtent, Shape};
use btr_rack::Rack;
use btr_read::Store;
use btr_walk::{Found, Scan, TreeFault, next};

/// What comes of an extent: what is still to come of its bytes, and where it ends.
#[derive(Clone, Copy, Debug)]
pub(crate) struct Ahead {
    pub(crate) todo: Todo,
    pub(crate) end: u128,
}

// How many sectors of `len` bytes from a position on begin before the size.
fn sector_count(size: u64, start: u64, len: u64) -> u64
    requires { start < size }
    ensures { result ≡ sector_count size start len }
{
    len.min(size - start).div_ceil(4096)
}

// What is still to come of an extent in a leaf.
fn todo_of(size: u64, leaf: u64, start: u64, shape: &Shape) -> Todo
    requires { FitsShape shape.now }
    ensures { result ≡ todo_of size leaf start shape.now }
{
    if size <= start {
        return Todo::Over;
    }
    match *shape {
        Shape::Prealloc { .. } => Todo::Next,
        Shape::Inline { len } => {
            if len == 0 {
                return Todo::Next;
            }
            Todo::Inline(InlinePart { start, leaf, len })
        }
        Shape::Regular {
            addr,
            skip,
            len,
            ..
        } => {
            if addr == 0 {
                return Todo::Next;
            }
            let count = sector_count(size, start, len);
            Todo::Sectors(SectorPart {
                start,
                addr: addr + skip,
                count,
            })
        }
    }
}

// What comes of an item behind an extent that ends at `end`, in a file of this size.
fn ahead_of(size: u64, end: u128, found: &Found<'_>) -> Result<Ahead, TreeFault>
    ensures { result ≡ ahead_of size end (item_of found.now) }
{
    let start = found.key.offset;
    let Ok(extent) = FileExtent::read(start, found.body) else {
        return Err(TreeFault::Malformed(found.block));
    };
    if u128::from(start) < end {
        return Err(TreeFault::Malformed(found.block));
    }
    match judge(&extent) {
        Survey::Clear => Ok(Ahead {
            todo: todo_of(size, found.block, start, &extent.shape),
            end: extent.end(start),
        }),
        Survey::Compressed => Err(TreeFault::Malformed(found.block)),
        Survey::Encoded => Err(TreeFault::Malformed(found.block)),
    }
}

// The next extent of a scan of a file's items, behind one that ends at `end`.
fn next_extent<R: Rack>(
    source: &Source,
    end: u128,
    scan: &mut Scan,
    rack: &mut R,
    store: &mut Store,
) -> Result<Option<Ahead>, TreeFault>
    requires ready { IsScanReady (R.seen rack.old) store.old scan.old }
    requires room { 4 ≤ free_count (without_leaf store.old scan.old) }
    ensures ready { IsScanReady (R.seen rack.new) store.new scan.new }
    ensures reads { OnlyReads (R.seen rack.old) (R.seen rack.new) }
    ensures others { SameLoans (without_leaf store.old scan.old) (without_leaf store.new scan.new) }
    ensures lo { scan.new.lo ≡ scan.old.lo }
    ensures hi { scan.new.hi ≡ scan.old.hi }
    ensures kept { KeepsItem result scan.new.leaf }
    ensures rank_falls { AheadRankFalls scan.old scan.new result }
    ensures fits { FitsAhead source.now.size end result }
    ensures cause { HasCause store.old.layout (R.seen rack.old) (R.seen rack.new) result }
    ensures content { TellsExtent source.now store.old store.new (R.seen rack.old) (R.seen rack.new)
        scan.old scan.new end result }
{
    match next(store, scan, rack)? {
        None => Ok(None),
        Some(found) => Ok(Some(ahead_of(source.size, end, &found)?)),
    }
}

// Reads on to the next extent that has bytes before the size or begins behind it; `None` where there is none.
fn find_extent<R: Rack>(
    source: &Source,
    end: u128,
    scan: &mut Scan,
    rack: &mut R,
    store: &mut Store,
) -> Result<Option<Ahead>, TreeFault>
    requires ready { IsScanReady (R.seen rack.old) store.old scan.old }
    requires room { 4 ≤ free_count (without_leaf store.old scan.old) }
    ensures ready { IsScanReady (R.seen rack.new) store.new scan.new }
    ensures reads { OnlyReads (R.seen rack.old) (R.seen rack.new) }
    ensures others { SameLoans (without_leaf store.old scan.old) (without_leaf store.new scan.new) }
    ensures lo { scan.new.lo ≡ scan.old.lo }
    ensures hi { scan.new.hi ≡ scan.old.hi }
    ensures kept { KeepsItem result scan.new.leaf }
    ensures fits { FitsAhead source.now.size end result }
    ensures found { HasFound result }
    ensures cause { HasCause store.old.layout (R.seen rack.old) (R.seen rack.new) result }
    ensures content { TellsExtent source.now store.old store.new (R.seen rack.old) (R.seen rack.new)
        scan.old scan.new end result }
{
    let mut end = end;
    loop {
        match next_extent(source, end, scan, rack, store)? {
            None => return Ok(None),
            Some(ahead) => match ahead.todo {
                Todo::Next => end = ahead.end,
                _ => return Ok(Some(ahead)),
            },
        }
    }
}

// Goes on to the next extent that has bytes before the size, behind the one that was met last, of which nothing is left.
pub(crate) fn find_next<R: Rack>(
    source: &Source,
    progress: &Progress,
    rack: &mut R,
    store: &mut Store,
) -> Result<Progress, TreeFault>
    requires serves { Serves (R.seen rack.old) store.old }
    requires room { 4 ≤ free_count store.old }
    requires underway { IsUnderway source.now progress.now }
    requires next { progress.now.todo ≡ Todo.Next }
    ensures serves { Serves (R.seen rack.new) store.new }
    ensures reads { OnlyReads (R.seen rack.old) (R.seen rack.new) }
    ensures loans { SameLoans store.old store.new }
    ensures ahead { IfOk result (LookedAhead source.now progress.now) }
    ensures cause { HasCause store.old.layout (R.seen rack.old) (R.seen rack.new) result }
    ensures content { TellsLooked source.now store.old.layout (R.seen rack.old) (R.seen rack.new) progress.now result }
{
    let mut scan = progress.rest.scan();
    match find_extent(source, progress.end, &mut scan, rack, store) {
        Err(fault) => {
            scan.finish(store);
            Err(fault)
        }
        Ok(None) => {
            scan.finish(store);
            Ok(Progress {
                rest: progress.rest,
                at: progress.at,
                end: progress.end,
                todo: Todo::Over,
            })
        }
        Ok(Some(ahead)) => {
            let rest = scan.rest(store);
            Ok(Progress {
                rest,
                at: progress.at,
                end: ahead.end,
                todo: ahead.todo,
            })
        }
    }
}
