// The command `restore`, where it writes files.
ghost use Rattle.std.specs.Prelude.{◌≡◌, ◌<◌, length, IfSome};
ghost use Rattle.btr_rack.specs.Sink.{NotStarted};
ghost use Rattle.btr_restore.specs.Running.{KeepsSink, outside_of};
ghost use Rattle.btr_run.specs.Answers.{answer_of};
ghost use Rattle.btr_run.specs.Order.{InOrder};
ghost use Rattle.btr_run.specs.Queries.Restored.{restore_row};
ghost use Rattle.btr_run.specs.Rows.{IsRowDone};
ghost use Rattle.btr_run.specs.Stored.{IsStored};

use crate::answer::Answer;
use crate::filesystem::open_filesystem;
use btr_files::RestorePlan;
use btr_rack::{Out, Rack, TreeSink};
use btr_restore::{opened_then, restore};
use std::alloc::Global;

/// Writes the directories and files of a subvolume of the open images' filesystem into the destination of this name, and puts a line for each entry
/// that is left out, and one of the counts.
///
/// An error is the answer of what stopped it: a refusal of opening, before anything is done; that there is no such subvolume, or a tree or a file that
/// can't be read on, behind all before it; the sink's, or the output's. What waits in the sink is stored before any but the sink's.
pub(crate) fn restore_files<R: Rack, T: TreeSink, O: Out>(
    alloc: Global,
    plan: &RestorePlan,
    dest: &str,
    rack: &mut R,
    tree: &mut T,
    out: &mut O,
) -> Result<Answer, Answer>
    requires open { 0 < length (R.seen rack.old).slots }
    requires fresh { (T.sink tree.old).stage ≡ NotStarted }
    ensures done { IsRowDone (restore_row plan.now dest.now) (R.seen rack.old) (R.seen rack.new)
        (outside_of T.sink T.account O.text O.account tree.old out.old)
        (outside_of T.sink T.account O.text O.account tree.new out.new) (answer_of result) }
    ensures order { IfSome (R.seen rack.old).held (λ images.
        InOrder plan.now dest.now images (R.seen rack.old) (R.seen rack.new)
        (outside_of T.sink T.account O.text O.account tree.old out.old)
        (outside_of T.sink T.account O.text O.account tree.new out.new) (answer_of result)) }
    ensures stored { IsStored (T.waits tree.new) (answer_of result) }
    ensures dry { KeepsSink plan.now.dry tree.old tree.new }
{
    opened_then();
    let mut volume = open_filesystem(alloc, rack)?;
    let counts = restore(alloc, plan, dest, rack, &mut volume, tree, out)?;
    Ok(Answer::Done {
        skipped: counts.skipped,
    })
}
