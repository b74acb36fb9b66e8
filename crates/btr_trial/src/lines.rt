// The lines of a trial.
ghost use Rattle.std.specs.Prelude.{◌≡◌, ◌≤◌};
ghost use Rattle.btr_text.specs.Pieces.{text_of};
ghost use Rattle.btr_trial.specs.Shown.{EndsTrial, differing, findings_text, if_count, if_other, lost_text, restore_text, said_text, trial_text};

use crate::tried::Tried;
use btr_rack::{Out, SinkError};
use btr_text::{Piece, put_pieces};
use btr_volume::Stop;

const FAILED: Said = Said {
    before: b"",
    word: Piece::Plain(b"failed"),
    behind: b"\n",
};

/// Puts the four lines, and answers how many of them aren't those of a sound volume. `Out` and `Memory` are the output's; a first part of the
/// lines stands there then.
pub(crate) fn put_lines<O: Out>(tried: &Tried, out: &mut O) -> Result<u64, Stop>
    ensures { EndsTrial tried.now (O.text out.old) (O.text out.new) (O.account out.old) (O.account out.new) result }
{
    match put_pieces(&pieces_of(tried), out) {
        Ok(()) => Ok(differing(tried)),
        Err(SinkError::Failed) => Err(Stop::Out),
        Err(SinkError::Memory) => Err(Stop::Memory),
    }
}

// What is said of a step: a number or a word between others.
#[derive(Clone, Copy)]
struct Said {
    before: &'static [u8],
    word: Piece<'static>,
    behind: &'static [u8],
}

// The lines as pieces.
fn pieces_of(tried: &Tried) -> [Piece<'static>; 12]
    ensures { text_of result ≡ trial_text tried.now }
{
    let findings = said_of_check(tried.findings);
    let lost = said_of_scrub(tried.lost);
    [
        Piece::Plain(b"check: "),
        Piece::Plain(findings.before),
        findings.word,
        Piece::Plain(findings.behind),
        Piece::Plain(b"first restore: "),
        Piece::Plain(said_of_restore(tried.first)),
        Piece::Plain(b"scrub: "),
        Piece::Plain(lost.before),
        lost.word,
        Piece::Plain(lost.behind),
        Piece::Plain(b"second restore: "),
        Piece::Plain(said_of_restore(tried.second)),
    ]
}

fn said_of_check(findings: Option<u64>) -> Said
    ensures { said_text result ≡ findings_text findings }
{
    match findings {
        None => FAILED,
        Some(0) => Said {
            before: b"",
            word: Piece::Plain(b"no findings"),
            behind: b"\n",
        },
        Some(count) => Said {
            before: b"",
            word: Piece::Decimal(count),
            behind: b" findings\n",
        },
    }
}

fn said_of_restore(same: Option<bool>) -> &'static [u8]
    ensures { result.now ≡ restore_text same }
{
    match same {
        None => b"failed\n",
        Some(true) => b"same\n",
        Some(false) => b"differs\n",
    }
}

fn said_of_scrub(lost: Option<u64>) -> Said
    ensures { said_text result ≡ lost_text lost }
{
    match lost {
        None => FAILED,
        Some(count) => Said {
            before: b"lost ",
            word: Piece::Decimal(count),
            behind: b"\n",
        },
    }
}

// How many of the lines aren't those of a sound volume.
fn differing(tried: &Tried) -> u64
    ensures { result ≡ differing tried.now }
{
    if_count(tried.findings) + if_other(tried.first) + if_count(tried.lost) + if_other(tried.second)
}

// 1 where a count isn't 0, or there is none.
fn if_count(count: Option<u64>) -> u64
    ensures is { result ≡ if_count count }
    ensures one { result ≤ 1 }
{
    match count {
        Some(0) => 0,
        _ => 1,
    }
}

// 1 where a comparison didn't hold, or there is none.
fn if_other(same: Option<bool>) -> u64
    ensures is { result ≡ if_other same }
    ensures one { result ≤ 1 }
{
    match same {
        Some(true) => 0,
        _ => 1,
    }
}
