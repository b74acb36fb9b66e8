// What is shown step by step.
ghost use Rattle.std.specs.Prelude.{ℕ, ◌≤◌, List, Option};
ghost use Rattle.btr_prog.specs.Prog.{exec};
ghost use Rattle.btr_rack.specs.Rack.{Seen, OnlyReads};
ghost use Rattle.btr_read.specs.Store.{Blocks, Lent, SameLoans, free_count};
ghost use Rattle.btr_read.specs.declared.want.Want.{Want};
ghost use Rattle.btr_walk.specs.Lending.{base};
ghost use Rattle.btr_walk.specs.Reading.{Map, Tells, unread_by};
ghost use Rattle.btr_dump.specs.Pieces.{Shown};
ghost use Rattle.btr_dump.specs.Showing.{Grows, ShowsText, Turns, TurnRankFalls};
ghost use Rattle.btr_dump.specs.Stops.{StopCounts, DumpStopCause};

use btr_rack::{Out, Rack};
use btr_read::Store;
use btr_text::TextBuffer;
use btr_volume::Stop;

/// A cursor over a tree, each of whose steps is shown before the next block is read.
pub(crate) trait Cursor {
    // a rack and a store can go on with it
    ghost ready: { Seen → Blocks → Self → Type 0 };

    // the loan that it keeps
    ghost loan: { Self → Option Lent };

    // how many slots a step takes besides that one
    ghost room: { ℕ };

    // how much is still to do
    ghost rank: { Self → ℕ };

    // the wants up to here lead to its place
    ghost on: { Map → List Want → Self → Type 0 };

    // what is still to be shown
    ghost left: { Map → Blocks → Self → Shown };

    /// Shows the next step; `false` where there is none.
    fn show_next<R: Rack, O: Out>(
        &mut self,
        rack: &mut R,
        store: &mut Store,
        text: &mut TextBuffer,
        out: &mut O,
    ) -> Result<bool, Stop>
        requires ready { ready (R.seen rack.old) store.old self.old }
        requires room { room ≤ free_count (base store.old (loan self.old)) }
        ensures ready { ready (R.seen rack.new) store.new self.new }
        ensures reads { OnlyReads (R.seen rack.old) (R.seen rack.new) }
        ensures others { SameLoans (base store.old (loan self.old)) (base store.new (loan self.new)) }
        ensures rank_falls { TurnRankFalls (rank self.old) (rank self.new) result }
        ensures account { StopCounts (O.account out.old) (O.account out.new) result }
        ensures cause { DumpStopCause store.old.layout (R.seen rack.old) (R.seen rack.new) result }
        ensures grows { Grows (O.text out.old) (O.text out.new) }
        ensures content { Tells store.old.layout (R.seen rack.old) (R.seen rack.new)
            (λ B. (seen : List Want) → on B seen self.old
            → Turns (unread_by store.old.layout (R.seen rack.old) (R.seen rack.new)) (λ ws. on B ws self.new)
            (exec B (left B store.old self.old)) (exec B (left B store.new self.new))
            seen (O.text out.old) (O.text out.new) text.old text.new result) };
}

/// Shows all that a cursor has still to show.
pub(crate) fn show_rest<C: Cursor, R: Rack, O: Out>(
    cursor: &mut C,
    rack: &mut R,
    store: &mut Store,
    text: &mut TextBuffer,
    out: &mut O,
) -> Result<(), Stop>
    requires ready { C.ready (R.seen rack.old) store.old cursor.old }
    requires room { C.room ≤ free_count (base store.old (C.loan cursor.old)) }
    ensures ready { C.ready (R.seen rack.new) store.new cursor.new }
    ensures reads { OnlyReads (R.seen rack.old) (R.seen rack.new) }
    ensures others { SameLoans (base store.old (C.loan cursor.old)) (base store.new (C.loan cursor.new)) }
    ensures account { StopCounts (O.account out.old) (O.account out.new) result }
    ensures cause { DumpStopCause store.old.layout (R.seen rack.old) (R.seen rack.new) result }
    ensures grows { Grows (O.text out.old) (O.text out.new) }
    ensures content { Tells store.old.layout (R.seen rack.old) (R.seen rack.new)
        (λ B. (seen : List Want) → C.on B seen cursor.old
        → ShowsText (unread_by store.old.layout (R.seen rack.old) (R.seen rack.new)) seen
        (exec B (C.left B store.old cursor.old))
        (O.text out.old) (O.text out.new) text.old text.new result) }
{
    loop {
        if !cursor.show_next(rack, store, text, out)? {
            return Ok(());
        }
    }
}
