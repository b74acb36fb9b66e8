// The call restore.
ghost use Rattle.std.specs.Prelude.{◌≡◌, ◌≢◌, false, IfErr, IfOk, [], length, Some};
ghost use Rattle.btr_prog.specs.Prog.{Emit, Return};
ghost use Rattle.btr_rack.specs.Sink.{NotStarted};
ghost use Rattle.btr_restore.specs.Journey.{from_root, listing, restored};
ghost use Rattle.btr_listing.specs.Lines.{counts_line};
ghost use Rattle.btr_restore.specs.Restoring.{Settles};
ghost use Rattle.btr_volume.specs.Readable.{CanRead};
ghost use Rattle.btr_restore.specs.Ends.{SameEnds, world_of};
ghost use Rattle.btr_restore.specs.Running.{KeepsSink, Ran, RanFor, WroteLines, outside_of, world};
ghost use Rattle.btr_listing.specs.Step.{Line};

use crate::endpoints::Endpoints;
use crate::job::{DirJob, Job};
use crate::listing::{OpenDir, list};
use crate::lookups::{find_sums, find_tree};
use crate::rows::start_in;
use crate::telling::out_stop;
use btr_base::Memory;
use btr_files::{Counts, Dir, NameBuf, RestorePlan};
use btr_listing::{Path, put_counts};
use btr_rack::{Out, Rack, TreeSink};
use btr_volume::{Stop, TreeRoot, Volume};
use btr_walk::RootPlace;
use std::alloc::Global;

// A place for the destination, and one for each of the 512 directories in one another that may be
// entered below it.
const OPEN_DIRS: usize = 513;

// A place where nothing is listed yet.
fn free_dir() -> OpenDir {
    let nowhere = TreeRoot {
        id: 0,
        offset: 0,
        place: RootPlace {
            addr: 0,
            generation: 0,
            level: 0,
        },
        dirid: 0,
        refs: 0,
    };
    OpenDir {
        dir: Dir::new(nowhere, 0),
        name: NameBuf::new(),
    }
}

/// The places of a listing: 513, one for the destination and one for each of the 512 directories in
/// one another. Their memory is taken once.
pub fn free_dirs(alloc: Global) -> Result<Vec<OpenDir>, Memory>
    ensures { IfOk result (λ dirs. length dirs.items ≡ 513) }
{
    match vec![in alloc; free_dir(); OPEN_DIRS] {
        Ok(dirs) => Ok(dirs),
        Err(_) => Err(Memory),
    }
}

/// Tells how much was restored.
pub fn tell_counts<O: Out>(counts: &Counts, out: &mut O) -> Result<Counts, Stop>
    ensures { WroteLines (Emit (Line (counts_line counts.now)) (Return counts.now))
        O.text O.account out.old out.new result }
{
    match put_counts(counts, out) {
        Ok(()) => Ok(*counts),
        Err(error) => Err(out_stop(error)),
    }
}

// The top directory of a tree, into the destination.
fn list_into<R: Rack, T: TreeSink, O: Out>(
    job: &Job,
    dest: &str,
    root: &TreeRoot,
    dirs: &mut [OpenDir],
    path: &mut Path,
    ends: &mut Endpoints<'_, '_, R, T, O>,
) -> Result<Counts, Stop>
    requires ready { CanRead 6 (R.seen ends.old.rack.now) ends.old.vol.now }
    requires fresh { job.now.plan.dry ≡ false → (T.sink ends.old.tree.now).stage ≡ NotStarted }
    requires dirs { length dirs.old ≡ 513 }
    requires path { path.old ≡ [] }
    ensures ran { RanFor (λ s. restored job.now.plan dest.now s root.now job.now.sums)
        (world_of R.seen T.sink T.account O.text O.account ends.old)
        (world_of R.seen T.sink T.account O.text O.account ends.new)
        result }
    ensures dry { KeepsSink job.now.plan.dry ends.old.tree.now ends.new.tree.now }
    ensures same { SameEnds ends.old ends.new }
{
    start_in(&job.plan, dest, ends.tree)?;
    let mut counts = Counts {
        dirs: 0,
        files: 0,
        skipped: 0,
    };
    let Some((here, below)) = dirs.split_first_mut() else {
        unreachable!();
    };
    let top = DirJob {
        job,
        tree: *root,
        dirid: root.dirid,
    };
    list(&top, here, below, path, &mut counts, ends)?;
    tell_counts(&counts, ends.out)
}

// A tree into the destination, once its checksums are found.
fn restore_tree<R: Rack, T: TreeSink, O: Out>(
    plan: &RestorePlan,
    dest: &str,
    root: &TreeRoot,
    dirs: &mut [OpenDir],
    path: &mut Path,
    ends: &mut Endpoints<'_, '_, R, T, O>,
) -> Result<Counts, Stop>
    requires ready { CanRead 6 (R.seen ends.old.rack.now) ends.old.vol.now }
    requires fresh { plan.now.dry ≡ false → (T.sink ends.old.tree.now).stage ≡ NotStarted }
    requires dirs { length dirs.old ≡ 513 }
    requires path { path.old ≡ [] }
    ensures ran { RanFor (λ s. from_root plan.now dest.now s (Some root.now))
        (world_of R.seen T.sink T.account O.text O.account ends.old)
        (world_of R.seen T.sink T.account O.text O.account ends.new)
        result }
    ensures dry { KeepsSink plan.now.dry ends.old.tree.now ends.new.tree.now }
    ensures same { SameEnds ends.old ends.new }
{
    let sums = find_sums(plan, ends.rack, ends.vol)?;
    let job = Job { plan: *plan, sums };
    list_into(&job, dest, root, dirs, path, ends)
}

// Restores the subvolume of a plan. What waits in the sink then isn't stored yet.
fn restore_unsettled<R: Rack, T: TreeSink, O: Out>(
    alloc: Global,
    plan: &RestorePlan,
    dest: &str,
    ends: &mut Endpoints<'_, '_, R, T, O>,
) -> Result<Counts, Stop>
    requires ready { CanRead 6 (R.seen ends.old.rack.now) ends.old.vol.now }
    requires fresh { plan.now.dry ≡ false → (T.sink ends.old.tree.now).stage ≡ NotStarted }
    ensures ran { Ran (listing plan.now dest.now ends.old.vol.now.sup)
        (world_of R.seen T.sink T.account O.text O.account ends.old)
        (world_of R.seen T.sink T.account O.text O.account ends.new)
        result }
    ensures dry { KeepsSink plan.now.dry ends.old.tree.now ends.new.tree.now }
    ensures same { SameEnds ends.old ends.new }
{
    let mut path = match Path::new(alloc) {
        Ok(path) => path,
        Err(_) => return Err(Stop::Memory),
    };
    let mut dirs = match free_dirs(alloc) {
        Ok(dirs) => dirs,
        Err(_) => return Err(Stop::Memory),
    };
    match find_tree(plan.root, ends.rack, ends.vol)? {
        None => Err(Stop::NoTree(plan.root)),
        Some(root) => {
            let dirs = dirs.as_mut_slice();
            restore_tree(plan, dest, &root, dirs, &mut path, ends)
        }
    }
}

/// Stores what waits in the sink, before a stop is answered: where that fails, the sink failed.
pub fn store_waiting<T: TreeSink>(stop: Stop, tree: &mut T) -> Stop
    ensures same { T.sink tree.new ≡ T.sink tree.old }
    ensures settled { Settles stop (T.account tree.old) (T.account tree.new) result }
    ensures stored { result ≢ Stop.Sink → T.waits tree.new ≡ false }
{
    match stop {
        Stop::Sink => Stop::Sink,
        other => match tree.flush() {
            Ok(()) => other,
            Err(_) => Stop::Sink,
        },
    }
}

/// The same by a plan: a dry run leaves the sink alone.
pub fn settle<T: TreeSink>(plan: &RestorePlan, stop: Stop, tree: &mut T) -> Stop
    ensures same { T.sink tree.new ≡ T.sink tree.old }
    ensures settled { Settles stop (T.account tree.old) (T.account tree.new) result }
    ensures stored { plan.now.dry ≡ false → result ≢ Stop.Sink → T.waits tree.new ≡ false }
    ensures dry { KeepsSink plan.now.dry tree.old tree.new }
{
    if plan.dry {
        return stop;
    }
    store_waiting(stop, tree)
}

// Restores the subvolume of a plan, and stores what waits in the sink before another stop than the sink's own.
fn restore_settled<R: Rack, T: TreeSink, O: Out>(
    alloc: Global,
    plan: &RestorePlan,
    dest: &str,
    ends: &mut Endpoints<'_, '_, R, T, O>,
) -> Result<Counts, Stop>
    requires ready { CanRead 6 (R.seen ends.old.rack.now) ends.old.vol.now }
    requires fresh { plan.now.dry ≡ false → (T.sink ends.old.tree.now).stage ≡ NotStarted }
    ensures ran { Ran (listing plan.now dest.now ends.old.vol.now.sup)
        (world_of R.seen T.sink T.account O.text O.account ends.old)
        (world_of R.seen T.sink T.account O.text O.account ends.new)
        result }
    ensures stored { plan.now.dry ≡ false → IfErr result (λ stop. stop ≢ Stop.Sink → T.waits ends.new.tree.now ≡ false) }
    ensures dry { KeepsSink plan.now.dry ends.old.tree.now ends.new.tree.now }
    ensures same { SameEnds ends.old ends.new }
{
    match restore_unsettled(alloc, plan, dest, ends) {
        Ok(counts) => Ok(counts),
        Err(stop) => Err(settle(plan, stop, ends.tree)),
    }
}

/// Restores the subvolume of a plan into the destination of this name: its directories, the bytes of its files, and a line of what was restored. Entries that
/// can't be restored are left out, and named.
///
/// The memory of a path of 131328 bytes and of 513 directories in one another is taken first, and nothing else takes any. Six slots of the volume are free.
/// Each checksum of data is verified; a file with a sector that has none is named.
///
/// `NoTree` comes exactly where there is no such subvolume, `Tree` where a block of a tree or of a file's data can't be had or is malformed, `Sink` and
/// `Out` where the destination or the output failed, and `Memory` for want of memory. All that was done before stands: what waits in the destination is
/// stored before another error than `Sink` is answered, and where that fails the answer is `Sink`. A dry run makes no call of the sink, whatever is
/// answered.
pub fn restore<R: Rack, T: TreeSink, O: Out>(
    alloc: Global,
    plan: &RestorePlan,
    dest: &str,
    rack: &mut R,
    vol: &mut Volume,
    tree: &mut T,
    out: &mut O,
) -> Result<Counts, Stop>
    requires ready { CanRead 6 (R.seen rack.old) vol.old }
    requires fresh { plan.now.dry ≡ false → (T.sink tree.old).stage ≡ NotStarted }
    ensures ran { Ran (listing plan.now dest.now vol.old.sup)
        (world (R.seen rack.old) vol.old (outside_of T.sink T.account O.text O.account tree.old out.old))
        (world (R.seen rack.new) vol.new (outside_of T.sink T.account O.text O.account tree.new out.new))
        result }
    ensures stored { plan.now.dry ≡ false → IfErr result (λ stop. stop ≢ Stop.Sink → T.waits tree.new ≡ false) }
    ensures dry { KeepsSink plan.now.dry tree.old tree.new }
{
    let mut ends = Endpoints {
        rack,
        vol,
        tree,
        out,
    };
    restore_settled(alloc, plan, dest, &mut ends)
}
