// The program, over any command line and any outside.
ghost use Rattle.std.specs.Prelude.{◌≡◌, []};
ghost use Rattle.btr_rack.specs.Sink.{NotStarted};
ghost use Rattle.btr_run.specs.Program.{ExitsWith};
ghost use Rattle.btr_run.specs.Run.{eyes};

use crate::answer::Answer;
use crate::command_line::{CommandLine, words_of};
use crate::running::{finish, run};
use btr_make::Maker;
use btr_rack::{Out, Rack, TreeSink};
use std::alloc::Global;

/// Does what the words of the command line say over the images of the rack, by [`run`], and answers the exit status of its answer.
///
/// Where there is no memory for the words, only the line for that is put.
pub fn program<W: CommandLine, R: Rack, T: TreeSink, O: Out, M: Maker + Drop>(
    alloc: Global,
    line: &W,
    rack: &mut R,
    tree: &mut T,
    out: &mut O,
    maker: M,
) -> u8
    requires closed { (R.seen rack.old).slots ≡ [] }
    requires fresh { (T.sink tree.old).stage ≡ NotStarted }
    ensures { ExitsWith (W.told line.now) (M.volume maker) (eyes R.seen T.sink T.account T.waits O.text O.account)
        rack.old tree.old out.old rack.new tree.new out.new result }
{
    match words_of(alloc, line) {
        Ok(words) => run(alloc, &words, rack, tree, out, maker).code(),
        Err(_) => finish(Err(Answer::Memory), out).code(),
    }
}
