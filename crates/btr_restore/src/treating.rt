// What becomes of an entry.
ghost use Rattle.std.specs.Prelude.{◌≡◌, false, true, ◌<◌};
ghost use Rattle.btr_files.specs.Entries.{name_in};
ghost use Rattle.btr_listing.specs.Deciding.{Fits};
ghost use Rattle.btr_listing.specs.Looked.{met_by};
ghost use Rattle.btr_rack.specs.Name.{IsGoodName};
ghost use Rattle.btr_rack.specs.Sink.{BetweenFiles};
ghost use Rattle.btr_restore.specs.Journey.{rules_of};
ghost use Rattle.btr_volume.specs.Readable.{CanRead};
ghost use Rattle.btr_restore.specs.Ends.{SameEnds, world_of};
ghost use Rattle.btr_restore.specs.Running.{KeepsSink, KeepsStanding, RanFor};
ghost use Rattle.btr_restore.specs.Treating.{IsOver, came, done_for, treated_for};

use crate::endpoints::Endpoints;
use crate::entering::{enter, enter_empty, write_file};
use crate::job::{DirJob, Job};
use crate::telling::leave_out;
use crate::treated::Treated;
use btr_files::{Counts, RestorePlan};
use btr_listing::{Decision, Entry, Rules, decide, good_name};
use btr_rack::{Out, Rack, TreeSink};
use btr_volume::Stop;

/// What restore leaves out: snapshots, unless they are asked for.
pub fn rules_of(plan: &RestorePlan) -> Rules
    ensures { result ≡ rules_of plan.now }
{
    Rules {
        snapshots: plan.snapshots,
        subvolumes: true,
        longest: None,
    }
}

// The name of an entry that isn't left out.
fn name_of<'a>(entry: &Entry<'a>) -> &'a str
    requires { IsGoodName (name_in entry.now.name.now) }
    ensures { result.now ≡ name_in entry.now.name.now }
{
    match good_name(entry.name.as_bytes()) {
        Some(name) => name,
        None => unreachable!(),
    }
}

/// Does about an entry what restore does, by what it comes to. Where a directory is entered, what is in it is still to be listed.
///
/// The stops are those of `restore`, but for `NoTree`.
pub fn carry_out<R: Rack, T: TreeSink, O: Out>(
    job: &Job,
    entry: &Entry<'_>,
    decision: Decision,
    counts: &mut Counts,
    ends: &mut Endpoints<'_, '_, R, T, O>,
) -> Result<Treated, Stop>
    requires ready { CanRead 6 (R.seen ends.old.rack.now) ends.old.vol.now }
    requires between { job.now.plan.dry ≡ false → (T.sink ends.old.tree.now).stage ≡ BetweenFiles }
    requires fits { Fits (rules_of job.now.plan) (met_by entry.now) decision }
    requires above { entry.now.deep ≡ false → job.now.plan.dry ≡ false → (T.sink ends.old.tree.now).depth < 512 }
    ensures ran { RanFor (done_for job.now entry.now decision counts.old)
        (world_of R.seen T.sink T.account O.text O.account ends.old)
        (world_of R.seen T.sink T.account O.text O.account ends.new)
        (came counts.new result) }
    ensures stands { KeepsStanding job.now.plan.dry (T.sink ends.old.tree.now) (T.sink ends.new.tree.now) result }
    ensures flat { entry.now.deep ≡ true → IsOver result }
    ensures dry { KeepsSink job.now.plan.dry ends.old.tree.now ends.new.tree.now }
    ensures same { SameEnds ends.old ends.new }
{
    match decision {
        Decision::Skip(cause) => leave_out(cause, entry.path, counts, ends.out),
        Decision::File(inode) => {
            let name = name_of(entry);
            write_file(job, entry, name, &inode, counts, ends)
        }
        Decision::Empty => {
            let name = name_of(entry);
            enter_empty(job, name, entry.path, counts, ends.tree, ends.out)
        }
        Decision::Folder { tree, dirid } => {
            let name = name_of(entry);
            let dir = DirJob { job, tree, dirid };
            enter(&dir, name, entry.path, counts, ends.tree, ends.out)
        }
    }
}

/// Treats an entry. Where a directory is entered, what is in it is still to be listed.
pub(crate) fn treat<R: Rack, T: TreeSink, O: Out>(
    job: &Job,
    entry: &Entry<'_>,
    counts: &mut Counts,
    ends: &mut Endpoints<'_, '_, R, T, O>,
) -> Result<Treated, Stop>
    requires ready { CanRead 6 (R.seen ends.old.rack.now) ends.old.vol.now }
    requires between { job.now.plan.dry ≡ false → (T.sink ends.old.tree.now).stage ≡ BetweenFiles }
    requires above { entry.now.deep ≡ false → job.now.plan.dry ≡ false → (T.sink ends.old.tree.now).depth < 512 }
    ensures ran { RanFor (treated_for job.now entry.now counts.old)
        (world_of R.seen T.sink T.account O.text O.account ends.old)
        (world_of R.seen T.sink T.account O.text O.account ends.new)
        (came counts.new result) }
    ensures stands { KeepsStanding job.now.plan.dry (T.sink ends.old.tree.now) (T.sink ends.new.tree.now) result }
    ensures flat { entry.now.deep ≡ true → IsOver result }
    ensures dry { KeepsSink job.now.plan.dry ends.old.tree.now ends.new.tree.now }
    ensures same { SameEnds ends.old ends.new }
{
    let rules = rules_of(&job.plan);
    match decide(&rules, entry, ends.rack, ends.vol) {
        Err(fault) => Err(Stop::Tree(fault)),
        Ok(decision) => carry_out(job, entry, decision, counts, ends),
    }
}
