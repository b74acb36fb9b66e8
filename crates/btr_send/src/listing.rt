// The listing of directories, from the top directory of a subvolume down.
ghost use Rattle.std.specs.Prelude.{◌≡◌, ◌<◌, OnOk, length, take};
ghost use Rattle.btr_rack.specs.Sink.{InFile};
ghost use Rattle.btr_restore.specs.Listing.{ended_with};
ghost use Rattle.btr_volume.specs.Readable.{CanRead};
ghost use Rattle.btr_restore.specs.Ends.{SameEnds, world_of};
ghost use Rattle.btr_restore.specs.Running.{RanFor};
ghost use Rattle.btr_send.specs.Listing.{entry_for, listing_for, within_for};

use crate::buffer::Buffer;
use crate::treating::treat;
use btr_files::{Counts, Dir};
use btr_listing::{Entry, Path};
use btr_rack::{Out, Rack, TreeSink};
use btr_restore::{Endpoints, NamedRow, OpenDir, Treated};
use btr_volume::{Stop, TreeRoot};

/// A directory that is sent, and where the checksums of its files' data stand.
#[derive(Clone, Copy)]
pub(crate) struct SentDir {
    pub(crate) sums: Option<TreeRoot>,
    pub(crate) tree: TreeRoot,
    pub(crate) dirid: u64,
}

/// Memory that is taken once: for the path of an entry, and for a command.
#[derive(Drop)]
pub(crate) struct Scratch {
    pub(crate) path: Path,
    pub(crate) buffer: Buffer,
}

// What is in a directory that was entered. The first of `dirs` is its own.
#[cycle(listing)]
fn list_within<R: Rack, T: TreeSink, O: Out>(
    dir: &SentDir,
    dirs: &mut [OpenDir],
    scratch: &mut Scratch,
    counts: &mut Counts,
    ends: &mut Endpoints<'_, '_, R, T, O>,
) -> Result<(), Stop>
    requires ready { CanRead 6 (R.seen ends.old.rack.now) ends.old.vol.now }
    requires begun { (T.sink ends.old.tree.now).stage ≡ InFile }
    requires some { 0 < length dirs.old }
    ensures ran { RanFor (within_for dir.now.sums (length dirs.old) scratch.old.path dir.now.tree dir.now.dirid counts.old)
        (world_of R.seen T.sink T.account O.text O.account ends.old)
        (world_of R.seen T.sink T.account O.text O.account ends.new)
        (ended_with counts.new result) }
    ensures path { OnOk result (scratch.new.path ≡ scratch.old.path) }
    ensures stage { (T.sink ends.new.tree.now).stage ≡ InFile }
    ensures same { SameEnds ends.old ends.new }
{
    let Some((here, below)) = dirs.split_first_mut() else {
        unreachable!();
    };
    list(dir, here, below, scratch, counts, ends)
}

// An entry of a directory, and what is in it. There is a place below for each that may be entered.
#[cycle(listing)]
fn list_entry<R: Rack, T: TreeSink, O: Out>(
    dir: &SentDir,
    named: &NamedRow<'_>,
    below: &mut [OpenDir],
    scratch: &mut Scratch,
    counts: &mut Counts,
    ends: &mut Endpoints<'_, '_, R, T, O>,
) -> Result<(), Stop>
    requires ready { CanRead 6 (R.seen ends.old.rack.now) ends.old.vol.now }
    requires begun { (T.sink ends.old.tree.now).stage ≡ InFile }
    ensures ran { RanFor (entry_for dir.now.sums (length below.old) dir.now.tree dir.now.dirid scratch.old.path counts.old named.now.row named.now.name.now)
        (world_of R.seen T.sink T.account O.text O.account ends.old)
        (world_of R.seen T.sink T.account O.text O.account ends.new)
        (ended_with counts.new result) }
    ensures path { OnOk result (take (length scratch.old.path) scratch.new.path ≡ scratch.old.path) }
    ensures stage { (T.sink ends.new.tree.now).stage ≡ InFile }
    ensures same { SameEnds ends.old ends.new }
{
    match scratch.path.push(named.name.as_bytes()) {
        Ok(()) => {}
        Err(_) => return Err(Stop::Memory),
    }
    let entry = Entry {
        tree: dir.tree,
        dirid: dir.dirid,
        deep: below.is_empty(),
        row: named.row,
        name: named.name,
        path: scratch.path.as_bytes(),
    };
    match treat(dir.sums, &entry, &mut scratch.buffer, counts, ends)? {
        Treated::Over => Ok(()),
        Treated::Within { tree, dirid } => {
            let inner = SentDir {
                sums: dir.sums,
                tree,
                dirid,
            };
            list_within(&inner, below, scratch, counts, ends)
        }
    }
}

/// Lists a directory and all that is entered below it. `here` is its place, and there is one in
/// `below` for each directory that may be entered.
#[cycle(listing)]
pub(crate) fn list<R: Rack, T: TreeSink, O: Out>(
    dir: &SentDir,
    here: &mut OpenDir,
    below: &mut [OpenDir],
    scratch: &mut Scratch,
    counts: &mut Counts,
    ends: &mut Endpoints<'_, '_, R, T, O>,
) -> Result<(), Stop>
    requires ready { CanRead 6 (R.seen ends.old.rack.now) ends.old.vol.now }
    requires begun { (T.sink ends.old.tree.now).stage ≡ InFile }
    ensures ran { RanFor (listing_for dir.now.sums (length below.old) dir.now.tree dir.now.dirid scratch.old.path counts.old)
        (world_of R.seen T.sink T.account O.text O.account ends.old)
        (world_of R.seen T.sink T.account O.text O.account ends.new)
        (ended_with counts.new result) }
    ensures path { OnOk result (scratch.new.path ≡ scratch.old.path) }
    ensures stage { (T.sink ends.new.tree.now).stage ≡ InFile }
    ensures same { SameEnds ends.old ends.new }
{
    here.dir = Dir::new(dir.tree, dir.dirid);
    let len = scratch.path.len();
    loop {
        match here.dir.next(ends.rack, ends.vol, &mut here.name) {
            Err(fault) => return Err(Stop::Tree(fault)),
            Ok(None) => return Ok(()),
            Ok(Some(row)) => {
                let named = NamedRow {
                    row,
                    name: &here.name,
                };
                list_entry(dir, &named, below, scratch, counts, ends)?;
                scratch.path.cut(len);
            }
        }
    }
}
