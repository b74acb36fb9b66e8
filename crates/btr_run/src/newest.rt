// The command `super`.
ghost use Rattle.std.specs.Prelude.{◌<◌, length};
ghost use Rattle.btr_run.specs.Answers.{answer_of};
ghost use Rattle.btr_run.specs.Shown.{ShowsCommand};

use crate::answer::Answer;
use crate::plan::Command;
use crate::text::put_super;
use btr_rack::{Out, Rack};
use btr_super::choose;
use btr_volume::read_supers;
use std::alloc::Global;

/// Puts the text of the newest superblock of the open images.
///
/// An error is the answer of what went wrong: that an image has no superblock, before anything is put, or the output's.
pub(crate) fn show_newest<R: Rack, O: Out>(
    alloc: Global,
    rack: &mut R,
    out: &mut O,
) -> Result<Answer, Answer>
    requires { 0 < length (R.seen rack.old).slots }
    ensures { ShowsCommand Command.Super (R.seen rack.old) (R.seen rack.new)
        (O.text out.old) (O.text out.new) (O.account out.old) (O.account out.new) (answer_of result) }
{
    let supers = read_supers(alloc, rack)?;
    let slot = choose(&supers);
    put_super(slot, &supers[slot], out)?;
    Ok(Answer::Done { skipped: 0 })
}
