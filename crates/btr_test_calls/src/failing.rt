// What is to fail in a call of `run`.
ghost use Rattle.std.specs.Prelude.{◌≡◌, IfOk};
ghost use Rattle.btr_rack.specs.MemTree.{sink_of};
ghost use Rattle.btr_rack.specs.Sink.{NotStarted};

use btr_base::Memory;
use btr_rack::{MemOut, MemTree};
use std::alloc::Global;

/// What is to fail in a call of `run`, besides images. Calls are counted from 1.
#[derive(Clone, Copy, Debug, PartialEq, Eq)]
pub enum Failing {
    Nothing,
    /// This call of the output.
    Output(u64),
    /// This call of the destination.
    Destination(u64),
}

/// An output with no text.
pub(crate) fn output(alloc: Global, failing: Failing) -> Result<MemOut, Memory> {
    let mut out = MemOut::new(alloc);
    if let Failing::Output(number) = failing {
        out.fail_call(number)?;
    }
    Ok(out)
}

/// A destination that isn't started.
pub(crate) fn destination(alloc: Global, failing: Failing) -> Result<MemTree, Memory>
    ensures { IfOk result (λ tree. (sink_of tree.tree).stage ≡ NotStarted) }
{
    let mut tree = MemTree::new(alloc);
    if let Failing::Destination(number) = failing {
        tree.fail_call(number)?;
    }
    Ok(tree)
}
