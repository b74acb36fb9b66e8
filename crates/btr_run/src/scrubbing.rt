// The command `scrub start`.
ghost use Rattle.std.specs.Prelude.{◌≡◌, ◌<◌, true, length, IfSome};
ghost use Rattle.btr_scrub_copies.specs.Writes.{AreWritable};
ghost use Rattle.btr_text.specs.Pieces.{text_of};
ghost use Rattle.btr_run.specs.Agreeing.{ScrubsAgreed};
ghost use Rattle.btr_run.specs.Unopened.{AreAgreed};
ghost use Rattle.btr_run.specs.Answers.{answer_of};
ghost use Rattle.btr_run.specs.Shown.{ShowsCommand};
ghost use Rattle.btr_run.specs.Repaired.{LeavesScrubbed, Scrubs};
ghost use Rattle.btr_run.specs.Scrubbed.{tally_text};

use crate::answer::Answer;
use crate::checking::answer_for;
use crate::filesystem::open_filesystem;
use crate::plan::Command;
use btr_rack::{Out, Rack};
use btr_scrub::{Tally, listed_counts, listed_writes, scrub};
use btr_text::{Piece, put_pieces};
use std::alloc::Global;

/// Reads each copy of each checked block of the open images' filesystem, with `write` writes the
/// bad ones anew, and puts the counts.
///
/// An error is the answer of what stopped it: a refusal of opening, a device that isn't given, or a
/// tree that can't be read on, before anything is written and put; an image that failed; want of
/// memory; or the output's.
pub(crate) fn scrub_images<R: Rack, O: Out>(
    alloc: Global,
    write: bool,
    rack: &mut R,
    out: &mut O,
) -> Result<Answer, Answer>
    requires open { 0 < length (R.seen rack.old).slots }
    requires writable { write ≡ true → AreWritable (R.seen rack.old).slots }
    ensures shows { ShowsCommand (Command.Scrub write) (R.seen rack.old) (R.seen rack.new)
        (O.text out.old) (O.text out.new) (O.account out.old) (O.account out.new) (answer_of result) }
    ensures leaves { write ≡ true
        → LeavesScrubbed (R.seen rack.old) (R.seen rack.new) (answer_of result) }
{
    let tally = scrub_filesystem(alloc, write, rack)?;
    put_pieces(&tally_pieces(tally), out)?;
    Ok(answer_for(tally.lost))
}

// Scrubs the filesystem of the open images.
fn scrub_filesystem<R: Rack>(alloc: Global, write: bool, rack: &mut R) -> Result<Tally, Answer>
    requires open { 0 < length (R.seen rack.old).slots }
    requires writable { write ≡ true → AreWritable (R.seen rack.old).slots }
    ensures scrubs { Scrubs write (R.seen rack.old) (R.seen rack.new) result }
    ensures agreed { IfSome (R.seen rack.old).held (λ images.
        AreAgreed images → ScrubsAgreed write images result) }
{
    listed_writes();
    listed_counts();
    let mut volume = open_filesystem(alloc, rack)?;
    Ok(scrub(alloc, write, rack, &mut volume)?)
}

// The line of the counts.
fn tally_pieces(tally: Tally) -> [Piece<'static>; 13]
    ensures { text_of result ≡ tally_text tally }
{
    [
        Piece::Plain(b"blocks "),
        Piece::Decimal(tally.blocks),
        Piece::Plain(b" bad "),
        Piece::Decimal(tally.bad),
        Piece::Plain(b" repaired "),
        Piece::Decimal(tally.repaired),
        Piece::Plain(b" lost "),
        Piece::Decimal(tally.lost),
        Piece::Plain(b" parity "),
        Piece::Decimal(tally.parity),
        Piece::Plain(b" unchecked "),
        Piece::Decimal(tally.unchecked),
        Piece::Plain(b"\n"),
    ]
}
