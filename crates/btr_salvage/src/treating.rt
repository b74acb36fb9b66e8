// What becomes of an entry.
ghost use Rattle.std.specs.Prelude.{◌≡◌, false, true, ◌<◌};
ghost use Rattle.btr_files.specs.Entries.{name_in};
ghost use Rattle.btr_listing.specs.Deciding.{Fits};
ghost use Rattle.btr_listing.specs.Looked.{met_by};
ghost use Rattle.btr_rack.specs.Name.{IsGoodName};
ghost use Rattle.btr_rack.specs.Sink.{BetweenFiles};
ghost use Rattle.btr_restore.specs.Journey.{rules_of};
ghost use Rattle.btr_volume.specs.Readable.{CanRead};
ghost use Rattle.btr_restore.specs.Ends.{SameEnds, world_of};
ghost use Rattle.btr_restore.specs.Running.{KeepsStanding};
ghost use Rattle.btr_restore.specs.Treating.{IsOver};
ghost use Rattle.btr_salvage.specs.Running.{RanFor};
ghost use Rattle.btr_salvage.specs.Treating.{came, decided_for, file_for, file_in, treated_for, Misses};

use crate::damage::damage_of;
use crate::reading::read_through;
use crate::salvaged::Salvaged;
use crate::telling::leave_broken;
use btr_items::Inode;
use btr_listing::{Decision, Entry, decide};
use btr_rack::{Out, Rack, TreeSink};
use btr_restore::{Endpoints, Job, Treated, carry_out, rules_of};
use btr_volume::Stop;
use btr_walk::TreeFault;

// Names an entry of which a block can't be had. A block that could not be read ends the run.
fn miss<O: Out>(
    fault: TreeFault,
    path: &[u8],
    salvaged: &mut Salvaged,
    out: &mut O,
) -> Result<Treated, Stop>
    ensures told { Misses fault path.now salvaged.old salvaged.new O.text O.account out.old out.new result }
    ensures over { IsOver result }
{
    match damage_of(fault) {
        None => Err(Stop::Tree(fault)),
        Some(damage) => leave_broken(damage, path, salvaged, out),
    }
}

// A file: all its bytes are read before it is begun.
fn treat_file<R: Rack, T: TreeSink, O: Out>(
    job: &Job,
    entry: &Entry<'_>,
    inode: Inode,
    salvaged: &mut Salvaged,
    ends: &mut Endpoints<'_, '_, R, T, O>,
) -> Result<Treated, Stop>
    requires ready { CanRead 6 (R.seen ends.old.rack.now) ends.old.vol.now }
    requires between { job.now.plan.dry ≡ false → (T.sink ends.old.tree.now).stage ≡ BetweenFiles }
    requires good { IsGoodName (name_in entry.now.name.now) }
    requires above { entry.now.deep ≡ false → job.now.plan.dry ≡ false → (T.sink ends.old.tree.now).depth < 512 }
    ensures ran { RanFor (file_for job.now entry.now inode salvaged.old)
        (world_of R.seen T.sink T.account O.text O.account ends.old)
        (world_of R.seen T.sink T.account O.text O.account ends.new)
        (came salvaged.new result) }
    ensures stands { KeepsStanding job.now.plan.dry (T.sink ends.old.tree.now) (T.sink ends.new.tree.now) result }
    ensures flat { entry.now.deep ≡ true → IsOver result }
    ensures same { SameEnds ends.old ends.new }
{
    let ino = entry.row.location.objectid;
    match read_through(job, &entry.tree, ino, &inode, ends.rack, ends.vol) {
        Err(fault) => miss(fault, entry.path, salvaged, ends.out),
        Ok(()) => {
            let decision = Decision::File(inode);
            carry_out(job, entry, decision, &mut salvaged.counts, ends)
        }
    }
}

// The inode of what is a file.
fn file_of(decision: Decision) -> Option<Inode>
    ensures { result ≡ file_in decision }
{
    match decision {
        Decision::File(inode) => Some(inode),
        Decision::Skip(_) | Decision::Empty | Decision::Folder { .. } => None,
    }
}

// An entry, by what it comes to.
fn treat_decided<R: Rack, T: TreeSink, O: Out>(
    job: &Job,
    entry: &Entry<'_>,
    decision: Decision,
    salvaged: &mut Salvaged,
    ends: &mut Endpoints<'_, '_, R, T, O>,
) -> Result<Treated, Stop>
    requires ready { CanRead 6 (R.seen ends.old.rack.now) ends.old.vol.now }
    requires between { job.now.plan.dry ≡ false → (T.sink ends.old.tree.now).stage ≡ BetweenFiles }
    requires fits { Fits (rules_of job.now.plan) (met_by entry.now) decision }
    requires above { entry.now.deep ≡ false → job.now.plan.dry ≡ false → (T.sink ends.old.tree.now).depth < 512 }
    ensures ran { RanFor (decided_for job.now entry.now decision salvaged.old)
        (world_of R.seen T.sink T.account O.text O.account ends.old)
        (world_of R.seen T.sink T.account O.text O.account ends.new)
        (came salvaged.new result) }
    ensures stands { KeepsStanding job.now.plan.dry (T.sink ends.old.tree.now) (T.sink ends.new.tree.now) result }
    ensures flat { entry.now.deep ≡ true → IsOver result }
    ensures same { SameEnds ends.old ends.new }
{
    match file_of(decision) {
        Some(inode) => treat_file(job, entry, inode, salvaged, ends),
        None => carry_out(job, entry, decision, &mut salvaged.counts, ends),
    }
}

/// Treats an entry. Where a directory is entered, what is in it is still to be listed.
pub(crate) fn treat<R: Rack, T: TreeSink, O: Out>(
    job: &Job,
    entry: &Entry<'_>,
    salvaged: &mut Salvaged,
    ends: &mut Endpoints<'_, '_, R, T, O>,
) -> Result<Treated, Stop>
    requires ready { CanRead 6 (R.seen ends.old.rack.now) ends.old.vol.now }
    requires between { job.now.plan.dry ≡ false → (T.sink ends.old.tree.now).stage ≡ BetweenFiles }
    requires above { entry.now.deep ≡ false → job.now.plan.dry ≡ false → (T.sink ends.old.tree.now).depth < 512 }
    ensures ran { RanFor (treated_for job.now entry.now salvaged.old)
        (world_of R.seen T.sink T.account O.text O.account ends.old)
        (world_of R.seen T.sink T.account O.text O.account ends.new)
        (came salvaged.new result) }
    ensures stands { KeepsStanding job.now.plan.dry (T.sink ends.old.tree.now) (T.sink ends.new.tree.now) result }
    ensures flat { entry.now.deep ≡ true → IsOver result }
    ensures same { SameEnds ends.old ends.new }
{
    let rules = rules_of(&job.plan);
    match decide(&rules, entry, ends.rack, ends.vol) {
        Err(fault) => miss(fault, entry.path, salvaged, ends.out),
        Ok(decision) => treat_decided(job, entry, decision, salvaged, ends),
    }
}
