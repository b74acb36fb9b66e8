// The command `self-test`.
ghost use Rattle.std.specs.Prelude.{◌≡◌, ◌≤◌};
ghost use Rattle.btr_text.specs.Pieces.{text_of};
ghost use Rattle.btr_run.specs.Answers.{answer_of};
ghost use Rattle.btr_run.specs.Listed.{BesideSinks};
ghost use Rattle.btr_run.specs.Outcomes.{HasOneOutcome};
ghost use Rattle.btr_run.specs.SelfTested.{IsTrialOf, made_bytes, volume_text};

use crate::answer::Answer;
use crate::checking::answer_for;
use btr_make::Maker;
use btr_rack::Out;
use btr_text::{Piece, put_pieces};
use btr_trial::trial;
use std::alloc::Global;

/// Takes the volume of so many directories from the maker, and puts what it should hold and what a
/// trial of it comes to.
///
/// An error is the output's, or want of memory: for the volume, before anything is put, or for a
/// step of the trial, behind the lines of the volume.
pub(crate) fn try_volume<M: Maker, O: Out>(
    alloc: Global,
    number: u64,
    maker: M,
    out: &mut O,
) -> Result<Answer, Answer>
    requires least { 1 ≤ number }
    requires most { number ≤ 1000 }
    ensures { BesideSinks (O.text out.old) (O.account out.old) (O.text out.new) (O.account out.new)
        (λ x y.
        HasOneOutcome (Unit {0}) (IsTrialOf (M.volume maker) number) x y (answer_of result)) }
{
    let Ok(mut rack) = maker.make(alloc, number) else {
        return Err(Answer::Memory);
    };
    put_pieces(&volume_pieces(number), out)?;
    let differing = trial(alloc, number, &mut rack, out)?;
    Ok(answer_for(differing))
}

// The lines of a volume of so many directories.
fn volume_pieces(number: u64) -> [Piece<'static>; 9]
    requires least { 1 ≤ number }
    requires most { number ≤ 1000 }
    ensures { text_of result ≡ volume_text number }
{
    [
        Piece::Plain(b"self-test "),
        Piece::Decimal(number),
        Piece::Plain(b"\ndirectories "),
        Piece::Decimal(number),
        Piece::Plain(b" files "),
        Piece::Decimal(4 * number),
        Piece::Plain(b" bytes "),
        Piece::Decimal(made_bytes(number)),
        Piece::Plain(b"\n"),
    ]
}

// How many bytes the files of so many directories have.
fn made_bytes(number: u64) -> u64
    requires least { 1 ≤ number }
    requires most { number ≤ 1000 }
    ensures { result ≡ made_bytes number }
{
    number * (24576 + 2 * (number - 1))
}
