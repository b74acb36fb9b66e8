// The lines of restore.
ghost use Rattle.btr_rack.specs.Out.{Puts, Counts as Accounts};
ghost use Rattle.btr_listing.specs.Causes.{cause_text};
ghost use Rattle.btr_listing.specs.Lines.{line, skip_line, counts_line};

use crate::cause::{Cause, cause_text};
use btr_files::Counts;
use btr_rack::{Out, SinkError};
use btr_text::{Piece, put_pieces};

/// Puts a word and a path. The error is the output's.
pub fn put_line<O: Out>(word: &'static [u8], path: &[u8], out: &mut O) -> Result<(), SinkError>
    ensures text { Puts (O.text out.old) (O.text out.new) (line word.now path.now) result }
    ensures account { Accounts (O.account out.old) (O.account out.new) result }
{
    let pieces = [
        Piece::Plain(word),
        Piece::Plain(b" "),
        Piece::Name(path),
        Piece::Plain(b"\n"),
    ];
    put_pieces(&pieces, out)
}

/// Puts that the entry with a path is left out. The error is the output's.
pub fn put_skip<O: Out>(cause: Cause, path: &[u8], out: &mut O) -> Result<(), SinkError>
    ensures text { Puts (O.text out.old) (O.text out.new) (skip_line (cause_text cause) path.now) result }
    ensures account { Accounts (O.account out.old) (O.account out.new) result }
{
    let pieces = [
        Piece::Plain(b"skip "),
        Piece::Plain(cause_text(cause)),
        Piece::Plain(b" "),
        Piece::Name(path),
        Piece::Plain(b"\n"),
    ];
    put_pieces(&pieces, out)
}

/// Puts how much was restored. The error is the output's.
pub fn put_counts<O: Out>(counts: &Counts, out: &mut O) -> Result<(), SinkError>
    ensures text { Puts (O.text out.old) (O.text out.new) (counts_line counts.now) result }
    ensures account { Accounts (O.account out.old) (O.account out.new) result }
{
    let pieces = [
        Piece::Plain(b"directories "),
        Piece::Decimal(counts.dirs),
        Piece::Plain(b" files "),
        Piece::Decimal(counts.files),
        Piece::Plain(b" skipped "),
        Piece::Decimal(counts.skipped),
        Piece::Plain(b"\n"),
    ];
    put_pieces(&pieces, out)
}
