// The command `send`.
ghost use Rattle.std.specs.Prelude.{◌≡◌, ◌<◌, length};
ghost use Rattle.btr_rack.specs.Sink.{NotStarted};
ghost use Rattle.btr_restore.specs.Running.{outside_of};
ghost use Rattle.btr_run.specs.Answers.{answer_of};
ghost use Rattle.btr_run.specs.Rows.{IsRowDone};
ghost use Rattle.btr_run.specs.Queries.Sent.{send_row};
ghost use Rattle.btr_run.specs.Stored.{IsStored};
ghost use Rattle.btr_send.specs.Names.{IsStreamName};

use crate::answer::Answer;
use crate::filesystem::open_filesystem;
use btr_rack::{Out, Rack, TreeSink};
use btr_send::{SendPlan, StreamFile, send};
use std::alloc::Global;

/// Writes a subvolume of the open images' filesystem as one stream into the file of this name in the destination, and puts a line for each entry that is
/// left out, and one of the counts.
///
/// An error is the answer of what stopped it: a refusal of opening, before anything is done; that there is no such subvolume, or a tree or a file that
/// can't be read on, behind all before it; the sink's, or the output's. What waits in the sink is stored before any but the sink's.
pub(crate) fn send_files<R: Rack, T: TreeSink, O: Out>(
    alloc: Global,
    plan: &SendPlan,
    dest: &str,
    name: &str,
    rack: &mut R,
    tree: &mut T,
    out: &mut O,
) -> Result<Answer, Answer>
    requires open { 0 < length (R.seen rack.old).slots }
    requires fresh { (T.sink tree.old).stage ≡ NotStarted }
    requires good { IsStreamName name.now }
    ensures done { IsRowDone (send_row plan.now dest.now name.now) (R.seen rack.old) (R.seen rack.new)
        (outside_of T.sink T.account O.text O.account tree.old out.old)
        (outside_of T.sink T.account O.text O.account tree.new out.new) (answer_of result) }
    ensures stored { IsStored (T.waits tree.new) (answer_of result) }
{
    let mut volume = open_filesystem(alloc, rack)?;
    let file = StreamFile { dest, name };
    let counts = send(alloc, plan, &file, rack, &mut volume, tree, out)?;
    Ok(Answer::Done {
        skipped: counts.skipped,
    })
}
