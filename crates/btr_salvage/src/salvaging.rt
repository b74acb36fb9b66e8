// The call salvage.
ghost use Rattle.std.specs.Prelude.{◌≡◌, ◌≢◌, false, IfErr, IfOk, [], length, Some};
ghost use Rattle.btr_rack.specs.Sink.{NotStarted};
ghost use Rattle.btr_volume.specs.Readable.{CanRead};
ghost use Rattle.btr_restore.specs.Ends.{SameEnds, world_of};
ghost use Rattle.btr_restore.specs.Running.{outside_of, world};
ghost use Rattle.btr_salvage.specs.Running.{Ran, RanFor};
ghost use Rattle.btr_salvage.specs.Salvaging.{from_root, from_tree, salvaging};

use crate::folder::Folder;
use crate::listing::{OpenFolder, list};
use crate::salvaged::Salvaged;
use crate::telling::tell_salvaged;
use btr_base::Memory;
use btr_files::{Counts, NameBuf, RestorePlan};
use btr_listing::Path;
use btr_rack::{Out, Rack, TreeSink};
use btr_restore::{DirJob, Endpoints, Job, find_tree, settle, start_in};
use btr_volume::{Stop, TreeRoot, Volume};
use btr_walk::RootPlace;
use std::alloc::Global;

// A place for the destination, and one for each of the 512 directories in one another that may be
// entered below it.
const OPEN_FOLDERS: usize = 513;

// The tree of the checksums of data.
const SUM_TREE: u64 = 7;

// A place where nothing is listed yet.
fn free_folder() -> OpenFolder {
    let nowhere = TreeRoot {
        id: 0,
        offset: 0,
        place: RootPlace {
            addr: 0,
            generation: 0,
            level: 0,
        },
        dirid: 0,
        refs: 0,
    };
    OpenFolder {
        folder: Folder::new(&nowhere, 0),
        name: NameBuf::new(),
    }
}

// The places of a listing. Their memory is taken once.
fn free_folders(alloc: Global) -> Result<Vec<OpenFolder>, Memory>
    ensures { IfOk result (λ folders. length folders.items ≡ 513) }
{
    match vec![in alloc; free_folder(); OPEN_FOLDERS] {
        Ok(folders) => Ok(folders),
        Err(_) => Err(Memory),
    }
}

// The top directory of a tree, into the destination.
fn list_into<R: Rack, T: TreeSink, O: Out>(
    job: &Job,
    dest: &str,
    root: &TreeRoot,
    folders: &mut [OpenFolder],
    path: &mut Path,
    ends: &mut Endpoints<'_, '_, R, T, O>,
) -> Result<Salvaged, Stop>
    requires ready { CanRead 6 (R.seen ends.old.rack.now) ends.old.vol.now }
    requires fresh { job.now.plan.dry ≡ false → (T.sink ends.old.tree.now).stage ≡ NotStarted }
    requires folders { length folders.old ≡ 513 }
    requires path { path.old ≡ [] }
    ensures ran { RanFor (λ s. from_tree job.now.plan dest.now s root.now job.now.sums)
        (world_of R.seen T.sink T.account O.text O.account ends.old)
        (world_of R.seen T.sink T.account O.text O.account ends.new)
        result }
    ensures same { SameEnds ends.old ends.new }
{
    start_in(&job.plan, dest, ends.tree)?;
    let mut salvaged = Salvaged {
        counts: Counts {
            dirs: 0,
            files: 0,
            skipped: 0,
        },
        broken: 0,
    };
    let Some((here, below)) = folders.split_first_mut() else {
        unreachable!();
    };
    let top = DirJob {
        job,
        tree: *root,
        dirid: root.dirid,
    };
    list(&top, here, below, path, &mut salvaged, ends)?;
    tell_salvaged(&salvaged, ends.out)
}

// A tree into the destination, once its checksums are found.
fn salvage_tree<R: Rack, T: TreeSink, O: Out>(
    plan: &RestorePlan,
    dest: &str,
    root: &TreeRoot,
    folders: &mut [OpenFolder],
    path: &mut Path,
    ends: &mut Endpoints<'_, '_, R, T, O>,
) -> Result<Salvaged, Stop>
    requires ready { CanRead 6 (R.seen ends.old.rack.now) ends.old.vol.now }
    requires fresh { plan.now.dry ≡ false → (T.sink ends.old.tree.now).stage ≡ NotStarted }
    requires folders { length folders.old ≡ 513 }
    requires path { path.old ≡ [] }
    ensures ran { RanFor (λ s. from_root plan.now dest.now s (Some root.now))
        (world_of R.seen T.sink T.account O.text O.account ends.old)
        (world_of R.seen T.sink T.account O.text O.account ends.new)
        result }
    ensures same { SameEnds ends.old ends.new }
{
    let sums = find_tree(SUM_TREE, ends.rack, ends.vol)?;
    let job = Job { plan: *plan, sums };
    list_into(&job, dest, root, folders, path, ends)
}

// Salvages the subvolume of a plan. What waits in the sink then isn't stored yet.
fn salvage_unsettled<R: Rack, T: TreeSink, O: Out>(
    alloc: Global,
    plan: &RestorePlan,
    dest: &str,
    ends: &mut Endpoints<'_, '_, R, T, O>,
) -> Result<Salvaged, Stop>
    requires ready { CanRead 6 (R.seen ends.old.rack.now) ends.old.vol.now }
    requires fresh { plan.now.dry ≡ false → (T.sink ends.old.tree.now).stage ≡ NotStarted }
    ensures ran { Ran (salvaging plan.now dest.now ends.old.vol.now.sup)
        (world_of R.seen T.sink T.account O.text O.account ends.old)
        (world_of R.seen T.sink T.account O.text O.account ends.new)
        result }
    ensures same { SameEnds ends.old ends.new }
{
    let mut path = match Path::new(alloc) {
        Ok(path) => path,
        Err(_) => return Err(Stop::Memory),
    };
    let mut folders = match free_folders(alloc) {
        Ok(folders) => folders,
        Err(_) => return Err(Stop::Memory),
    };
    match find_tree(plan.root, ends.rack, ends.vol)? {
        None => Err(Stop::NoTree(plan.root)),
        Some(root) => {
            let folders = folders.as_mut_slice();
            salvage_tree(plan, dest, &root, folders, &mut path, ends)
        }
    }
}

// Salvages the subvolume of a plan, and stores what waits in the sink before another stop than the sink's own.
fn salvage_settled<R: Rack, T: TreeSink, O: Out>(
    alloc: Global,
    plan: &RestorePlan,
    dest: &str,
    ends: &mut Endpoints<'_, '_, R, T, O>,
) -> Result<Salvaged, Stop>
    requires ready { CanRead 6 (R.seen ends.old.rack.now) ends.old.vol.now }
    requires wet { plan.now.dry ≡ false }
    requires fresh { (T.sink ends.old.tree.now).stage ≡ NotStarted }
    ensures ran { Ran (salvaging plan.now dest.now ends.old.vol.now.sup)
        (world_of R.seen T.sink T.account O.text O.account ends.old)
        (world_of R.seen T.sink T.account O.text O.account ends.new)
        result }
    ensures stored { IfErr result (λ stop. stop ≢ Stop.Sink → T.waits ends.new.tree.now ≡ false) }
    ensures same { SameEnds ends.old ends.new }
{
    match salvage_unsettled(alloc, plan, dest, ends) {
        Ok(salvaged) => Ok(salvaged),
        Err(stop) => Err(settle(plan, stop, ends.tree)),
    }
}

/// Restores the subvolume of a plan into the destination of this name, past blocks that can't be had: its directories, the bytes of its files, and lines of
/// what is missing and of how much was restored. The plan isn't dry.
///
/// An entry of which a block can't be had is left out, with all that is below it, and named with the block's address; so is each part of a directory. A file
/// is begun only where all its bytes can be had: they are read twice. Entries that can't be restored by the rules of restore are left out and named as there.
///
/// The memory of a path of 131328 bytes and of 513 directories in one another is taken first, and nothing else takes any. Six slots of the volume are free.
///
/// `NoTree` comes exactly where there is no such subvolume. `Tree` comes where a block could not be read, where one of the way to the root of the subvolume
/// or of the checksum tree can't be had or is malformed, and where one that was read came to something else when it was read again. `Sink` and `Out`
/// come where the destination or the output failed, and `Memory` for want of memory. All that was done before stands: what waits in the destination is
/// stored before another error than `Sink` is answered, and where that fails the answer is `Sink`.
pub fn salvage<R: Rack, T: TreeSink, O: Out>(
    alloc: Global,
    plan: &RestorePlan,
    dest: &str,
    rack: &mut R,
    vol: &mut Volume,
    tree: &mut T,
    out: &mut O,
) -> Result<Salvaged, Stop>
    requires ready { CanRead 6 (R.seen rack.old) vol.old }
    requires wet { plan.now.dry ≡ false }
    requires fresh { (T.sink tree.old).stage ≡ NotStarted }
    ensures ran { Ran (salvaging plan.now dest.now vol.old.sup)
        (world (R.seen rack.old) vol.old (outside_of T.sink T.account O.text O.account tree.old out.old))
        (world (R.seen rack.new) vol.new (outside_of T.sink T.account O.text O.account tree.new out.new))
        result }
    ensures stored { IfErr result (λ stop. stop ≢ Stop.Sink → T.waits tree.new ≡ false) }
{
    let mut ends = Endpoints {
        rack,
        vol,
        tree,
        out,
    };
    salvage_settled(alloc, plan, dest, &mut ends)
}
