// Calls of `run`.
ghost use Rattle.std.specs.Prelude.{[], ◌≡◌};
ghost use Rattle.btr_rack.specs.Sink.{NotStarted};

use crate::failing::{Failing, destination, output};
use crate::fault::CallFault;
use crate::rows::shown;
use crate::told::Told;
use crate::wording::words;
use btr_make::{Builder, Maker};
use btr_rack::{MemOut, MemRack, MemTree, Out, Rack, TreeSink};
use btr_run::{Answer, run};
use std::alloc::{AllocError, Global};

/// Calls `run` without any of its clauses. The volume of a self-test is that of `Builder`.
pub fn called<R: Rack, T: TreeSink, O: Out>(
    alloc: Global,
    words: &[String],
    rack: &mut R,
    tree: &mut T,
    out: &mut O,
) -> Answer
    requires closed { (R.seen rack.old).slots ≡ [] }
    requires fresh { (T.sink tree.old).stage ≡ NotStarted }
{
    run(alloc, words, rack, tree, out, Builder)
}

/// Calls `run` by these words, with a destination and an output in which nothing is to fail. No image may be
/// open. The errors are those of [`call_where`].
pub fn call(alloc: Global, rack: &mut MemRack, all: &[&str]) -> Result<Told, CallFault> {
    call_where(alloc, rack, all, Failing::Nothing)
}

/// Calls `run` as [`call`] does, where a call of the output or of the destination is to fail. `Open`: an image is open, and
/// `run` wasn't called. `Memory`: memory is wanted for the words, the destination or the output, or behind the call for what
/// came of it.
pub fn call_where(
    alloc: Global,
    rack: &mut MemRack,
    all: &[&str],
    failing: Failing,
) -> Result<Told, CallFault> {
    let words = words(alloc, all)?;
    let mut tree = destination(alloc, failing)?;
    let mut out = output(alloc, failing)?;
    if rack.count() != 0 {
        return Err(CallFault::Open);
    }
    let answer = called(alloc, &words, rack, &mut tree, &mut out);
    Ok(came_of(alloc, answer, &tree, &out)?)
}

/// Calls `run` as [`call_where`] does, over no image, with a maker of the volume of a self-test.
pub fn call_making<M: Maker + Drop>(
    alloc: Global,
    maker: M,
    all: &[&str],
    failing: Failing,
) -> Result<Told, CallFault> {
    let words = words(alloc, all)?;
    let mut tree = destination(alloc, failing)?;
    let mut out = output(alloc, failing)?;
    let mut rack = MemRack::new(alloc);
    let answer = run(alloc, &words, &mut rack, &mut tree, &mut out, maker);
    Ok(came_of(alloc, answer, &tree, &out)?)
}

fn came_of(
    alloc: Global,
    answer: Answer,
    tree: &MemTree,
    out: &MemOut,
) -> Result<Told, AllocError> {
    Ok(Told {
        answer,
        code: answer.code(),
        text: Vec::from_slice(alloc, out.text())?,
        rows: shown(alloc, tree)?,
        has_part: tree.part().is_some(),
    })
}
