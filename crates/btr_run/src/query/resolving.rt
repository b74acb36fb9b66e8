// The command `inspect-internal logical-resolve`.
ghost use Rattle.std.specs.Prelude.{◌<◌, length};
ghost use Rattle.btr_run.specs.Answers.{answer_of};
ghost use Rattle.btr_run.specs.Listed.{BesideSinks};
ghost use Rattle.btr_run.specs.Queries.Resolved.{resolve_row};
ghost use Rattle.btr_run.specs.Rows.{IsRowDone};

use crate::answer::Answer;
use crate::filesystem::open_filesystem;
use btr_rack::{Out, Rack};
use btr_resolve::resolve;
use std::alloc::Global;

/// Puts a line for each file of the open images' filesystem that has the byte at a logical address, and for each of its names, and one of how many
/// these are.
///
/// An error is the answer of what stopped it: a refusal of opening, or that no chunk holds the address, before anything is put; a tree that can't be
/// read on, behind the lines before it; the output's; or want of memory.
pub(crate) fn show_owners<R: Rack, O: Out>(
    alloc: Global,
    addr: u64,
    rack: &mut R,
    out: &mut O,
) -> Result<Answer, Answer>
    requires { 0 < length (R.seen rack.old).slots }
    ensures { BesideSinks (O.text out.old) (O.account out.old) (O.text out.new) (O.account out.new) (λ x y.
        IsRowDone (resolve_row addr) (R.seen rack.old) (R.seen rack.new) x y (answer_of result)) }
{
    let mut volume = open_filesystem(alloc, rack)?;
    resolve(alloc, addr, rack, &mut volume, out)?;
    Ok(Answer::Done { skipped: 0 })
}
