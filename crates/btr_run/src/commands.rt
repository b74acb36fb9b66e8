// The commands.
ghost use Rattle.std.specs.Prelude.{◌≡◌, ◌<◌, true, length, map};
ghost use Rattle.std.specs.String.{string_bytes};
ghost use Rattle.btr_scrub_copies.specs.Writes.{AreWritable};
ghost use Rattle.btr_rack.specs.Sink.{NotStarted};
ghost use Rattle.btr_run.specs.Answers.{answer_of};
ghost use Rattle.btr_run.specs.Commands.{IsFit, opens_to_write};
ghost use Rattle.btr_run.specs.Run.{IsPerformed, eyes, ran};
ghost use Rattle.btr_run.specs.SelfTested.{TakesImages};

use crate::answer::Answer;
use crate::checking::show_findings;
use crate::newest::show_newest;
use crate::plan::Command;
use crate::query::ask;
use crate::scrubbing::scrub_images;
use btr_rack::{Out, Rack, TreeSink};
use std::alloc::Global;

/// Does a command of some words over the open images that it takes, and puts its text.
///
/// An error is the answer of what stopped it; the line of that answer isn't put here.
pub(crate) fn perform<R: Rack, T: TreeSink, O: Out>(
    alloc: Global,
    command: Command,
    words: &[String],
    rack: &mut R,
    tree: &mut T,
    out: &mut O,
) -> Result<Answer, Answer>
    requires images { TakesImages command }
    requires open { 0 < length (R.seen rack.old).slots }
    requires fit { IsFit command (map string_bytes words.now) }
    requires writable { opens_to_write command ≡ true → AreWritable (R.seen rack.old).slots }
    requires fresh { (T.sink tree.old).stage ≡ NotStarted }
    ensures { IsPerformed (ran (eyes R.seen T.sink T.account T.waits O.text O.account)
        words.now rack.old tree.old out.old rack.new tree.new out.new (answer_of result)) command }
{
    match command {
        Command::Super => show_newest(alloc, rack, out),
        Command::Ask(query) => ask(alloc, query, words, rack, tree, out),
        Command::Check { read_data } => show_findings(alloc, read_data, rack, out),
        Command::Scrub { write } => scrub_images(alloc, write, rack, out),
        Command::SelfTest(_) => unreachable!(),
    }
}
