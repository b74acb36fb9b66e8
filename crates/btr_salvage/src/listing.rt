// The listing of directories, from the top directory of a tree down.
ghost use Rattle.std.specs.Prelude.{◌≡◌, ◌<◌, false, OnOk, length, take, ◌+◌, ◌≤◌};
ghost use Rattle.btr_rack.specs.Sink.{BetweenFiles};
ghost use Rattle.btr_restore.specs.Listing.{KeepsDepth, LeavesDepth};
ghost use Rattle.btr_volume.specs.Readable.{CanRead};
ghost use Rattle.btr_restore.specs.Ends.{SameEnds, world_of};
ghost use Rattle.btr_salvage.specs.Listing.{entry_for, found_for, listing_for, within_for};
ghost use Rattle.btr_salvage.specs.Running.{RanFor};
ghost use Rattle.btr_salvage.specs.Treating.{counted};

use crate::folder::{Folder, Found};
use crate::salvaged::Salvaged;
use crate::telling::tell_part;
use crate::treating::treat;
use btr_files::NameBuf;
use btr_listing::{Entry, Path};
use btr_rack::{Out, Rack, TreeSink};
use btr_restore::{DirJob, Endpoints, NamedRow, Treated, leave_dir};
use btr_volume::Stop;

/// Where a directory is listed: how far that has come, and a place for the name of an entry.
#[derive(Clone, Copy)]
pub(crate) struct OpenFolder {
    pub(crate) folder: Folder,
    pub(crate) name: NameBuf,
}

// What was found, and its name if it is an entry.
#[derive(Clone, Copy)]
struct NamedFound<'a> {
    found: Found,
    name: &'a NameBuf,
}

// What is in a directory that was entered, and the way up. The first of `folders` is its own.
#[cycle(listing)]
fn list_within<R: Rack, T: TreeSink, O: Out>(
    dir: &DirJob<'_>,
    folders: &mut [OpenFolder],
    path: &mut Path,
    salvaged: &mut Salvaged,
    ends: &mut Endpoints<'_, '_, R, T, O>,
) -> Result<(), Stop>
    requires ready { CanRead 6 (R.seen ends.old.rack.now) ends.old.vol.now }
    requires between { dir.now.job.now.plan.dry ≡ false → (T.sink ends.old.tree.now).stage ≡ BetweenFiles }
    requires some { 0 < length folders.old }
    requires below { dir.now.job.now.plan.dry ≡ false → 0 < (T.sink ends.old.tree.now).depth }
    requires room { dir.now.job.now.plan.dry ≡ false → (T.sink ends.old.tree.now).depth + length folders.old ≤ 513 }
    ensures ran { RanFor (within_for dir.now.job.now (length folders.old) path.old dir.now.tree dir.now.dirid salvaged.old)
        (world_of R.seen T.sink T.account O.text O.account ends.old)
        (world_of R.seen T.sink T.account O.text O.account ends.new)
        (counted salvaged.new result) }
    ensures path { OnOk result (path.new ≡ path.old) }
    ensures stands { LeavesDepth dir.now.job.now.plan.dry (T.sink ends.old.tree.now) (T.sink ends.new.tree.now) result }
    ensures same { SameEnds ends.old ends.new }
{
    let Some((here, below)) = folders.split_first_mut() else {
        unreachable!();
    };
    list(dir, here, below, path, salvaged, ends)?;
    leave_dir(&dir.job.plan, ends.tree)
}

// An entry of a directory, and what is in it. There is a place below for each that may be entered.
#[cycle(listing)]
fn list_entry<R: Rack, T: TreeSink, O: Out>(
    dir: &DirJob<'_>,
    named: &NamedRow<'_>,
    below: &mut [OpenFolder],
    path: &mut Path,
    salvaged: &mut Salvaged,
    ends: &mut Endpoints<'_, '_, R, T, O>,
) -> Result<(), Stop>
    requires ready { CanRead 6 (R.seen ends.old.rack.now) ends.old.vol.now }
    requires between { dir.now.job.now.plan.dry ≡ false → (T.sink ends.old.tree.now).stage ≡ BetweenFiles }
    requires room { dir.now.job.now.plan.dry ≡ false → (T.sink ends.old.tree.now).depth + length below.old ≤ 512 }
    ensures ran { RanFor (entry_for dir.now.job.now (length below.old) dir.now.tree dir.now.dirid path.old salvaged.old named.now.row named.now.name.now)
        (world_of R.seen T.sink T.account O.text O.account ends.old)
        (world_of R.seen T.sink T.account O.text O.account ends.new)
        (counted salvaged.new result) }
    ensures path { OnOk result (take (length path.old) path.new ≡ path.old) }
    ensures stands { KeepsDepth dir.now.job.now.plan.dry (T.sink ends.old.tree.now) (T.sink ends.new.tree.now) result }
    ensures same { SameEnds ends.old ends.new }
{
    match path.push(named.name.as_bytes()) {
        Ok(()) => {}
        Err(_) => return Err(Stop::Memory),
    }
    let entry = Entry {
        tree: dir.tree,
        dirid: dir.dirid,
        deep: below.is_empty(),
        row: named.row,
        name: named.name,
        path: path.as_bytes(),
    };
    match treat(dir.job, &entry, salvaged, ends)? {
        Treated::Over => Ok(()),
        Treated::Within { tree, dirid } => {
            let inner = DirJob {
                job: dir.job,
                tree,
                dirid,
            };
            list_within(&inner, below, path, salvaged, ends)
        }
    }
}

// What is found in a directory.
#[cycle(listing)]
fn list_found<R: Rack, T: TreeSink, O: Out>(
    dir: &DirJob<'_>,
    named: &NamedFound<'_>,
    below: &mut [OpenFolder],
    path: &mut Path,
    salvaged: &mut Salvaged,
    ends: &mut Endpoints<'_, '_, R, T, O>,
) -> Result<(), Stop>
    requires ready { CanRead 6 (R.seen ends.old.rack.now) ends.old.vol.now }
    requires between { dir.now.job.now.plan.dry ≡ false → (T.sink ends.old.tree.now).stage ≡ BetweenFiles }
    requires room { dir.now.job.now.plan.dry ≡ false → (T.sink ends.old.tree.now).depth + length below.old ≤ 512 }
    ensures ran { RanFor (found_for dir.now.job.now (length below.old) dir.now.tree dir.now.dirid path.old salvaged.old named.now.found named.now.name.now)
        (world_of R.seen T.sink T.account O.text O.account ends.old)
        (world_of R.seen T.sink T.account O.text O.account ends.new)
        (counted salvaged.new result) }
    ensures path { OnOk result (take (length path.old) path.new ≡ path.old) }
    ensures stands { KeepsDepth dir.now.job.now.plan.dry (T.sink ends.old.tree.now) (T.sink ends.new.tree.now) result }
    ensures same { SameEnds ends.old ends.new }
{
    match named.found {
        Found::Passing => Ok(()),
        Found::Part(damage) => tell_part(damage, path.as_bytes(), salvaged, ends.out),
        Found::Entry(row) => {
            let entry = NamedRow {
                row,
                name: named.name,
            };
            list_entry(dir, &entry, below, path, salvaged, ends)
        }
    }
}

/// Lists a directory and all that is entered below it, also behind blocks that can't be had. `here` is
/// its place, and there is one in `below` for each directory that may be entered.
#[cycle(listing)]
pub(crate) fn list<R: Rack, T: TreeSink, O: Out>(
    dir: &DirJob<'_>,
    here: &mut OpenFolder,
    below: &mut [OpenFolder],
    path: &mut Path,
    salvaged: &mut Salvaged,
    ends: &mut Endpoints<'_, '_, R, T, O>,
) -> Result<(), Stop>
    requires ready { CanRead 6 (R.seen ends.old.rack.now) ends.old.vol.now }
    requires between { dir.now.job.now.plan.dry ≡ false → (T.sink ends.old.tree.now).stage ≡ BetweenFiles }
    requires room { dir.now.job.now.plan.dry ≡ false → (T.sink ends.old.tree.now).depth + length below.old ≤ 512 }
    ensures ran { RanFor (listing_for dir.now.job.now (length below.old) dir.now.tree dir.now.dirid path.old salvaged.old)
        (world_of R.seen T.sink T.account O.text O.account ends.old)
        (world_of R.seen T.sink T.account O.text O.account ends.new)
        (counted salvaged.new result) }
    ensures path { OnOk result (path.new ≡ path.old) }
    ensures stands { KeepsDepth dir.now.job.now.plan.dry (T.sink ends.old.tree.now) (T.sink ends.new.tree.now) result }
    ensures same { SameEnds ends.old ends.new }
{
    here.folder = Folder::new(&dir.tree, dir.dirid);
    let len = path.len();
    loop {
        match here.folder.next(ends.rack, ends.vol, &mut here.name) {
            Err(fault) => return Err(Stop::Tree(fault)),
            Ok(None) => return Ok(()),
            Ok(Some(found)) => {
                let named = NamedFound {
                    found,
                    name: &here.name,
                };
                list_found(dir, &named, below, path, salvaged, ends)?;
                path.cut(len);
            }
        }
    }
}
