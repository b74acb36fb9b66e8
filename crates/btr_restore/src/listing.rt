// The listing of directories, from the top directory of a tree down.
ghost use Rattle.std.specs.Prelude.{◌≡◌, ◌<◌, false, OnOk, length, take, ◌+◌, ◌≤◌};
ghost use Rattle.btr_rack.specs.Sink.{BetweenFiles};
ghost use Rattle.btr_restore.specs.Listing.{ended_with, listing_for, entry_for, within_for, KeepsDepth, LeavesDepth};
ghost use Rattle.btr_volume.specs.Readable.{CanRead};
ghost use Rattle.btr_restore.specs.Ends.{SameEnds, world_of};
ghost use Rattle.btr_restore.specs.Running.{KeepsSink, RanFor};

use crate::endpoints::Endpoints;
use crate::job::DirJob;
use crate::rows::leave_dir;
use crate::treated::Treated;
use crate::treating::treat;
use btr_files::{Counts, Dir, DirRow, NameBuf};
use btr_listing::{Entry, Path};
use btr_rack::{Out, Rack, TreeSink};
use btr_volume::Stop;

/// Where a directory is listed: how far that has come, and a place for the name of an entry.
#[derive(Clone, Copy, Debug)]
pub struct OpenDir {
    /// What of the directory is still to be listed.
    pub dir: Dir,
    /// The name of the entry that was met last.
    pub name: NameBuf,
}

/// An entry that was met, and its name.
#[derive(Clone, Copy)]
pub struct NamedRow<'a> {
    /// What the entry says, but for its name.
    pub row: DirRow,
    /// Its name.
    pub name: &'a NameBuf,
}

// What is in a directory that was entered, and the way up. The first of `dirs` is its own.
#[cycle(listing)]
fn list_within<R: Rack, T: TreeSink, O: Out>(
    dir: &DirJob<'_>,
    dirs: &mut [OpenDir],
    path: &mut Path,
    counts: &mut Counts,
    ends: &mut Endpoints<'_, '_, R, T, O>,
) -> Result<(), Stop>
    requires ready { CanRead 6 (R.seen ends.old.rack.now) ends.old.vol.now }
    requires between { dir.now.job.now.plan.dry ≡ false → (T.sink ends.old.tree.now).stage ≡ BetweenFiles }
    requires some { 0 < length dirs.old }
    requires below { dir.now.job.now.plan.dry ≡ false → 0 < (T.sink ends.old.tree.now).depth }
    requires room { dir.now.job.now.plan.dry ≡ false → (T.sink ends.old.tree.now).depth + length dirs.old ≤ 513 }
    ensures ran { RanFor (within_for dir.now.job.now (length dirs.old) path.old dir.now.tree dir.now.dirid counts.old)
        (world_of R.seen T.sink T.account O.text O.account ends.old)
        (world_of R.seen T.sink T.account O.text O.account ends.new)
        (ended_with counts.new result) }
    ensures path { OnOk result (path.new ≡ path.old) }
    ensures stands { LeavesDepth dir.now.job.now.plan.dry (T.sink ends.old.tree.now) (T.sink ends.new.tree.now) result }
    ensures dry { KeepsSink dir.now.job.now.plan.dry ends.old.tree.now ends.new.tree.now }
    ensures same { SameEnds ends.old ends.new }
{
    let Some((here, below)) = dirs.split_first_mut() else {
        unreachable!();
    };
    list(dir, here, below, path, counts, ends)?;
    leave_dir(&dir.job.plan, ends.tree)
}

// An entry of a directory, and what is in it. There is a place below for each that may be entered.
#[cycle(listing)]
fn list_entry<R: Rack, T: TreeSink, O: Out>(
    dir: &DirJob<'_>,
    named: &NamedRow<'_>,
    below: &mut [OpenDir],
    path: &mut Path,
    counts: &mut Counts,
    ends: &mut Endpoints<'_, '_, R, T, O>,
) -> Result<(), Stop>
    requires ready { CanRead 6 (R.seen ends.old.rack.now) ends.old.vol.now }
    requires between { dir.now.job.now.plan.dry ≡ false → (T.sink ends.old.tree.now).stage ≡ BetweenFiles }
    requires room { dir.now.job.now.plan.dry ≡ false → (T.sink ends.old.tree.now).depth + length below.old ≤ 512 }
    ensures ran { RanFor (entry_for dir.now.job.now (length below.old) dir.now.tree dir.now.dirid path.old counts.old named.now.row named.now.name.now)
        (world_of R.seen T.sink T.account O.text O.account ends.old)
        (world_of R.seen T.sink T.account O.text O.account ends.new)
        (ended_with counts.new result) }
    ensures path { OnOk result (take (length path.old) path.new ≡ path.old) }
    ensures stands { KeepsDepth dir.now.job.now.plan.dry (T.sink ends.old.tree.now) (T.sink ends.new.tree.now) result }
    ensures dry { KeepsSink dir.now.job.now.plan.dry ends.old.tree.now ends.new.tree.now }
    ensures same { SameEnds ends.old ends.new }
{
    match path.push(named.name.as_bytes()) {
        Ok(()) => {}
        Err(_) => return Err(Stop::Memory),
    }
    let entry = Entry {
        tree: dir.tree,
        dirid: dir.dirid,
        deep: below.is_empty(),
        row: named.row,
        name: named.name,
        path: path.as_bytes(),
    };
    match treat(dir.job, &entry, counts, ends)? {
        Treated::Over => Ok(()),
        Treated::Within { tree, dirid } => {
            let inner = DirJob {
                job: dir.job,
                tree,
                dirid,
            };
            list_within(&inner, below, path, counts, ends)
        }
    }
}

/// Lists a directory and all that is entered below it. `here` is its place, and there is one in
/// `below` for each directory that may be entered.
#[cycle(listing)]
pub(crate) fn list<R: Rack, T: TreeSink, O: Out>(
    dir: &DirJob<'_>,
    here: &mut OpenDir,
    below: &mut [OpenDir],
    path: &mut Path,
    counts: &mut Counts,
    ends: &mut Endpoints<'_, '_, R, T, O>,
) -> Result<(), Stop>
    requires ready { CanRead 6 (R.seen ends.old.rack.now) ends.old.vol.now }
    requires between { dir.now.job.now.plan.dry ≡ false → (T.sink ends.old.tree.now).stage ≡ BetweenFiles }
    requires room { dir.now.job.now.plan.dry ≡ false → (T.sink ends.old.tree.now).depth + length below.old ≤ 512 }
    ensures ran { RanFor (listing_for dir.now.job.now (length below.old) dir.now.tree dir.now.dirid path.old counts.old)
        (world_of R.seen T.sink T.account O.text O.account ends.old)
        (world_of R.seen T.sink T.account O.text O.account ends.new)
        (ended_with counts.new result) }
    ensures path { OnOk result (path.new ≡ path.old) }
    ensures stands { KeepsDepth dir.now.job.now.plan.dry (T.sink ends.old.tree.now) (T.sink ends.new.tree.now) result }
    ensures dry { KeepsSink dir.now.job.now.plan.dry ends.old.tree.now ends.new.tree.now }
    ensures same { SameEnds ends.old ends.new }
{
    here.dir = Dir::new(dir.tree, dir.dirid);
    let len = path.len();
    loop {
        match here.dir.next(ends.rack, ends.vol, &mut here.name) {
            Err(fault) => return Err(Stop::Tree(fault)),
            Ok(None) => return Ok(()),
            Ok(Some(row)) => {
                let named = NamedRow {
                    row,
                    name: &here.name,
                };
                list_entry(dir, &named, below, path, counts, ends)?;
                path.cut(len);
            }
        }
    }
}
