// The command `check`.
ghost use Rattle.std.specs.Prelude.{◌≡◌, ◌<◌, length};
ghost use Rattle.btr_run.specs.Answers.{answer_of};
ghost use Rattle.btr_run.specs.Checked.{found};
ghost use Rattle.btr_run.specs.Shown.{ShowsCommand};

use crate::answer::Answer;
use crate::filesystem::open_filesystem;
use crate::plan::Command;
use btr_check::{check, put_findings};
use btr_rack::{Out, Rack};
use std::alloc::Global;

/// Puts what is wrong with the filesystem of the open images, and how much that is; with `read_data`, the sectors that have a checksum are
/// read too.
///
/// An error is the answer of what stopped it: a refusal of opening or of the check, or a block that could not be read, before anything is
/// put; or the output's.
pub(crate) fn show_findings<R: Rack, O: Out>(
    alloc: Global,
    read_data: bool,
    rack: &mut R,
    out: &mut O,
) -> Result<Answer, Answer>
    requires { 0 < length (R.seen rack.old).slots }
    ensures { ShowsCommand (Command.Check read_data) (R.seen rack.old) (R.seen rack.new)
        (O.text out.old) (O.text out.new) (O.account out.old) (O.account out.new) (answer_of result) }
{
    let mut volume = open_filesystem(alloc, rack)?;
    let findings = check(alloc, read_data, rack, &mut volume)?;
    let count = put_findings(findings, out)?;
    Ok(answer_for(count))
}

/// The answer where so many things are wrong.
pub(crate) fn answer_for(count: u64) -> Answer
    ensures { result ≡ found count }
{
    if count == 0 {
        Answer::Done { skipped: 0 }
    } else {
        Answer::Found(count)
    }
}
