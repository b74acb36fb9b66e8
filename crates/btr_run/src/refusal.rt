// The line of a refusal.
ghost use Rattle.std.specs.Prelude.{◌≡◌, ◌++◌, ℕ, codes, IsOk};
ghost use Rattle.btr_rack.specs.Out.{Puts, Counts};
ghost use Rattle.btr_run.specs.Answers.{error_line, which_text};
ghost use Rattle.btr_run.specs.Lines.{line_text};

use crate::answer::Answer;
use btr_rack::{Out, SinkError};
use btr_text::{Piece, put_pieces};
use btr_volume::Which;

// The line for want of memory, which takes none.
const NO_MEMORY: &[u8] = b"error: no memory\n";

// A line, or nothing.
#[derive(Clone, Copy)]
enum Line {
    Nothing,
    Words(&'static [u8]),
    // A number between words.
    Number(&'static [u8], u64, &'static [u8]),
    // Feature bits behind words.
    Bits(&'static [u8], u64),
    // A block and an image.
    Unread(u64, usize),
}

fn too_many(which: Which) -> &'static [u8]
    ensures { result.now ≡ codes "error: too many " ++ which_text which ++ codes ": " }
{
    match which {
        Which::Images => b"error: too many images: ",
        Which::Stripes => b"error: too many stripes: ",
        Which::Chunks => b"error: too many chunks: ",
    }
}

// The line that comes last where this is the answer.
fn line_of(answer: Answer) -> Line
    ensures { line_text result ≡ error_line answer }
{
    match answer {
        Answer::Done { .. } | Answer::Found(_) | Answer::OutFault => Line::Nothing,
        Answer::Lost(addr) => Line::Number(b"error: lost block ", addr, b"\n"),
        Answer::Malformed(addr) => Line::Number(b"error: malformed block ", addr, b"\n"),
        Answer::Unmapped(addr) => Line::Number(b"error: unmapped address ", addr, b"\n"),
        Answer::Crosses(addr) => Line::Number(
            b"error: block ",
            addr,
            b" crosses a stripe element\n",
        ),
        Answer::Usage(at) => Line::Number(b"error: usage error at word ", at as u64, b"\n"),
        Answer::NoSuper(slot) => Line::Number(
            b"error: image ",
            slot as u64,
            b" has no valid superblock\n",
        ),
        Answer::SumKind(kind) => Line::Number(
            b"error: checksum type ",
            kind as u64,
            b" is not supported\n",
        ),
        Answer::Foreign(slot) => Line::Number(
            b"error: image ",
            slot as u64,
            b" belongs to another filesystem\n",
        ),
        Answer::Twin(slot) => Line::Number(b"error: image ", slot as u64, b" repeats a device\n"),
        Answer::Diverged(slot) => Line::Number(b"error: image ", slot as u64, b" has diverged\n"),
        Answer::Unsupported(bits) => Line::Bits(b"error: unsupported features ", bits),
        Answer::Geometry => Line::Words(b"error: unsupported geometry\n"),
        Answer::LogPending => Line::Words(b"error: a log tree is pending\n"),
        Answer::BadArray => Line::Words(b"error: the system chunk array is damaged\n"),
        Answer::BadChunk(start) => Line::Number(b"error: bad chunk ", start, b"\n"),
        Answer::Limit(which, count) => Line::Number(too_many(which), count, b"\n"),
        Answer::NoTree(id) => Line::Number(b"error: no tree ", id, b"\n"),
        Answer::DeletionPending(id) => Line::Number(b"error: tree ", id, b" is being deleted\n"),
        Answer::BalancePending => Line::Words(b"error: a balance is pending\n"),
        Answer::MissingDevice(devid) => Line::Number(b"error: device ", devid, b" is not given\n"),
        Answer::Unread(addr, slot) => Line::Unread(addr, slot),
        Answer::ImageFault(slot) => Line::Number(b"error: image ", slot as u64, b" failed\n"),
        Answer::SinkFault => Line::Words(b"error: the destination failed\n"),
        Answer::Memory => Line::Words(NO_MEMORY),
    }
}

/// Puts the line that comes last where this is the answer: `error: `, what is wrong, and a newline. There
/// is none where the command was done and where the output failed. The error is the output's.
pub(crate) fn put_refusal<O: Out>(answer: Answer, out: &mut O) -> Result<(), SinkError>
    ensures text { Puts (O.text out.old) (O.text out.new) (error_line answer) result }
    ensures account { Counts (O.account out.old) (O.account out.new) result }
    ensures silent { (skipped : ℕ) → answer ≡ Answer.Done skipped → IsOk result }
{
    if let Answer::Done { skipped: _ } = answer {
        return Ok(());
    }
    put_line(line_of(answer), out)
}

fn put_line<O: Out>(line: Line, out: &mut O) -> Result<(), SinkError>
    ensures text { Puts (O.text out.old) (O.text out.new) (line_text line) result }
    ensures account { Counts (O.account out.old) (O.account out.new) result }
{
    match line {
        Line::Nothing => Ok(()),
        Line::Words(words) => out.put(words),
        Line::Number(words, number, rest) => put_pieces(
            &[
                Piece::Plain(words),
                Piece::Decimal(number),
                Piece::Plain(rest),
            ],
            out,
        ),
        Line::Bits(words, bits) => put_pieces(
            &[
                Piece::Plain(words),
                Piece::Hexadecimal(bits),
                Piece::Plain(b"\n"),
            ],
            out,
        ),
        Line::Unread(addr, slot) => put_pieces(
            &[
                Piece::Plain(b"error: unread block "),
                Piece::Decimal(addr),
                Piece::Plain(b" on image "),
                Piece::Decimal(slot as u64),
                Piece::Plain(b"\n"),
            ],
            out,
        ),
    }
}
