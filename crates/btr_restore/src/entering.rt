// What is written for an entry.
ghost use Rattle.std.specs.Prelude.{◌≡◌, false, OnOk, ◌<◌};
ghost use Rattle.btr_rack.specs.Name.{IsGoodName};
ghost use Rattle.btr_rack.specs.Sink.{BetweenFiles, InFile};
ghost use Rattle.btr_restore.specs.Journey.{closed, empty, entered};
ghost use Rattle.btr_volume.specs.Readable.{CanRead};
ghost use Rattle.btr_restore.specs.Ends.{SameEnds, world_of};
ghost use Rattle.btr_restore.specs.Running.{KeepsSink, KeepsStanding, RanFor, Wrote, outside_of};
ghost use Rattle.btr_restore.specs.Treating.{IsOver, came, written_for};

use crate::endpoints::Endpoints;
use crate::job::{DirJob, Job};
use crate::rows::{close_file, leave_dir, make_dir, make_file};
use crate::telling::{more, tell, tell_unverified};
use crate::treated::Treated;
use crate::writing::write_bytes;
use btr_files::Counts;
use btr_items::Inode;
use btr_listing::Entry;
use btr_rack::{Out, Rack, TreeSink};
use btr_volume::Stop;

/// Enters a directory of a tree.
pub(crate) fn enter<T: TreeSink, O: Out>(
    dir: &DirJob<'_>,
    name: &str,
    path: &[u8],
    counts: &mut Counts,
    tree: &mut T,
    out: &mut O,
) -> Result<Treated, Stop>
    requires between { dir.now.job.now.plan.dry ≡ false → (T.sink tree.old).stage ≡ BetweenFiles }
    requires good { IsGoodName name.now }
    requires above { dir.now.job.now.plan.dry ≡ false → (T.sink tree.old).depth < 512 }
    ensures wrote { Wrote (entered dir.now.job.now.plan name.now path.now dir.now.tree dir.now.dirid counts.old)
        (outside_of T.sink T.account O.text O.account tree.old out.old)
        (outside_of T.sink T.account O.text O.account tree.new out.new)
        (came counts.new result) }
    ensures stands { KeepsStanding dir.now.job.now.plan.dry (T.sink tree.old) (T.sink tree.new) result }
    ensures dry { KeepsSink dir.now.job.now.plan.dry tree.old tree.new }
{
    let plan = &dir.job.plan;
    make_dir(plan, name, tree)?;
    tell(plan, b"dir", path, out)?;
    counts.dirs = more(counts.dirs);
    Ok(Treated::Within {
        tree: dir.tree,
        dirid: dir.dirid,
    })
}

/// Makes a directory that stays empty.
pub(crate) fn enter_empty<T: TreeSink, O: Out>(
    job: &Job,
    name: &str,
    path: &[u8],
    counts: &mut Counts,
    tree: &mut T,
    out: &mut O,
) -> Result<Treated, Stop>
    requires between { job.now.plan.dry ≡ false → (T.sink tree.old).stage ≡ BetweenFiles }
    requires good { IsGoodName name.now }
    requires above { job.now.plan.dry ≡ false → (T.sink tree.old).depth < 512 }
    ensures wrote { Wrote (empty job.now.plan name.now path.now counts.old)
        (outside_of T.sink T.account O.text O.account tree.old out.old)
        (outside_of T.sink T.account O.text O.account tree.new out.new)
        (came counts.new result) }
    ensures stands { KeepsStanding job.now.plan.dry (T.sink tree.old) (T.sink tree.new) result }
    ensures over { IsOver result }
    ensures dry { KeepsSink job.now.plan.dry tree.old tree.new }
{
    make_dir(&job.plan, name, tree)?;
    tell(&job.plan, b"dir", path, out)?;
    leave_dir(&job.plan, tree)?;
    counts.dirs = more(counts.dirs);
    Ok(Treated::Over)
}

// Finishes a file, and names it where that is asked for, or where some sector of it was read without a checksum.
fn finish_file<T: TreeSink, O: Out>(
    job: &Job,
    path: &[u8],
    plain: bool,
    counts: &mut Counts,
    tree: &mut T,
    out: &mut O,
) -> Result<Treated, Stop>
    requires begun { job.now.plan.dry ≡ false → (T.sink tree.old).stage ≡ InFile }
    ensures wrote { Wrote (closed job.now.plan path.now counts.old plain)
        (outside_of T.sink T.account O.text O.account tree.old out.old)
        (outside_of T.sink T.account O.text O.account tree.new out.new)
        (came counts.new result) }
    ensures over { IsOver result }
    ensures between { job.now.plan.dry ≡ false → OnOk result ((T.sink tree.new).stage ≡ BetweenFiles) }
    ensures depth { job.now.plan.dry ≡ false → OnOk result ((T.sink tree.new).depth ≡ (T.sink tree.old).depth) }
    ensures dry { KeepsSink job.now.plan.dry tree.old tree.new }
{
    close_file(&job.plan, tree)?;
    tell(&job.plan, b"file", path, out)?;
    tell_unverified(plain, path, out)?;
    counts.files = more(counts.files);
    Ok(Treated::Over)
}

/// Writes a file, by its inode.
pub(crate) fn write_file<R: Rack, T: TreeSink, O: Out>(
    job: &Job,
    entry: &Entry<'_>,
    name: &str,
    found: &Inode,
    counts: &mut Counts,
    ends: &mut Endpoints<'_, '_, R, T, O>,
) -> Result<Treated, Stop>
    requires ready { CanRead 6 (R.seen ends.old.rack.now) ends.old.vol.now }
    requires between { job.now.plan.dry ≡ false → (T.sink ends.old.tree.now).stage ≡ BetweenFiles }
    requires good { IsGoodName name.now }
    ensures ran { RanFor (written_for job.now entry.now name.now found.now counts.old)
        (world_of R.seen T.sink T.account O.text O.account ends.old)
        (world_of R.seen T.sink T.account O.text O.account ends.new)
        (came counts.new result) }
    ensures stands { KeepsStanding job.now.plan.dry (T.sink ends.old.tree.now) (T.sink ends.new.tree.now) result }
    ensures over { IsOver result }
    ensures dry { KeepsSink job.now.plan.dry ends.old.tree.now ends.new.tree.now }
    ensures same { SameEnds ends.old ends.new }
{
    make_file(&job.plan, name, ends.tree)?;
    let plain = write_bytes(job, entry, found, ends.rack, ends.vol, ends.tree)?;
    finish_file(job, entry.path, plain, counts, ends.tree, ends.out)
}
