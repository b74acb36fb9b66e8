// The commands that show trees of a filesystem.
ghost use Rattle.std.specs.Prelude.{◌≡◌, ◌<◌, ◌≤◌, length, IfSome, Some};
ghost use Rattle.btr_dump.specs.Showing.{Grows};
ghost use Rattle.btr_dump.specs.Stops.{DumpStopCause, StopCounts};
ghost use Rattle.btr_rack.specs.Rack.{OnlyReads};
ghost use Rattle.btr_read.specs.Fate.{Agreed, fate};
ghost use Rattle.btr_read.specs.Serves.{Serves};
ghost use Rattle.btr_read.specs.Store.{free_count};
ghost use Rattle.btr_run.specs.Answers.{answer_of};
ghost use Rattle.btr_run.specs.Behind.{IfSteady};
ghost use Rattle.btr_run.specs.Listed.{BesideSinks};
ghost use Rattle.btr_run.specs.Outcomes.{ShowsOutcome, showing};
ghost use Rattle.btr_run.specs.Rows.{IsRowDone};
ghost use Rattle.btr_run.specs.Queries.Trees.{AgreesOn, ShowsUpTo, call_answer, dump_row};
ghost use Rattle.btr_run.specs.Queries.Trees.{trees_shown};

use crate::answer::Answer;
use crate::filesystem::open_filesystem;
use crate::query::DumpChoice;
use btr_dump::{dump_all, dump_block, dump_tree, list_roots};
use btr_rack::{Out, Rack};
use btr_volume::{Stop, Volume};
use std::alloc::Global;

/// Puts the text of the trees that are asked for, of the filesystem of the open images.
///
/// An error is the answer of what stopped it: a refusal of opening, before anything is put; that
/// there is no such tree, or a tree that can't be read on, behind the text of all before it; or the
/// output's.
pub(crate) fn show_trees<R: Rack, O: Out>(
    alloc: Global,
    choice: DumpChoice,
    rack: &mut R,
    out: &mut O,
) -> Result<Answer, Answer>
    requires { 0 < length (R.seen rack.old).slots }
    ensures { BesideSinks (O.text out.old) (O.account out.old) (O.text out.new) (O.account out.new) (λ x y.
        IsRowDone (dump_row choice) (R.seen rack.old) (R.seen rack.new) x y (answer_of result)) }
{
    let mut volume = open_filesystem(alloc, rack)?;
    show(choice, rack, &mut volume, out)?;
    Ok(Answer::Done { skipped: 0 })
}

// Puts the text of the trees of a volume that are asked for.
fn show<R: Rack, O: Out>(
    choice: DumpChoice,
    rack: &mut R,
    volume: &mut Volume,
    out: &mut O,
) -> Result<(), Stop>
    requires serves { Serves (R.seen rack.old) volume.old.store }
    requires room { 5 ≤ free_count volume.old.store }
    ensures reads { OnlyReads (R.seen rack.old) (R.seen rack.new) }
    ensures account { StopCounts (O.account out.old) (O.account out.new) result }
    ensures cause { DumpStopCause volume.old.store.layout (R.seen rack.old) (R.seen rack.new) result }
    ensures grows { Grows (O.text out.old) (O.text out.new) }
    ensures content { IfSteady (R.seen rack.old).held (R.seen rack.old).account (R.seen rack.new).account (λ images.
        ShowsOutcome (λ outcome. outcome ≡ showing (trees_shown choice (fate images volume.old.store.layout) volume.old.sup))
        (O.text out.old) (O.text out.new) (O.account out.old) (O.account out.new) (call_answer result)) }
    ensures agreed { IfSome (R.seen rack.old).held (λ images.
        Agreed images volume.old.store.layout → AgreesOn choice images volume.old.store.layout
        → ShowsOutcome (ShowsUpTo choice (fate images volume.old.store.layout) volume.old.sup)
        (O.text out.old) (O.text out.new) (O.account out.old) (O.account out.new) (call_answer result)) }
{
    match choice {
        DumpChoice::All => dump_all(rack, volume, out),
        DumpChoice::Block(addr) => dump_block(addr, rack, volume, out),
        DumpChoice::Tree(id) => dump_tree(id, rack, volume, out),
        DumpChoice::RootLines => list_roots(rack, volume, out),
    }
}
