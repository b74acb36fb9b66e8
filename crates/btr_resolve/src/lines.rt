// The lines of `logical-resolve`.
ghost use Rattle.std.specs.Prelude.{◌≡◌};
ghost use Rattle.btr_rack.specs.Out.{Counts, Puts};
ghost use Rattle.btr_text.specs.Pieces.{piece_text};
ghost use Rattle.btr_resolve.specs.Lines.{owner_line, path_if, path_text, total_line};

use crate::owner::Owner;
use btr_rack::{Out, SinkError};
use btr_text::{Piece, put_pieces};

// A path, or `?` where none was found.
fn path_piece<'a>(is_found: bool, path: &'a [u8]) -> Piece<'a>
    ensures { piece_text result ≡ path_text (path_if is_found path.now) }
{
    if is_found {
        Piece::Name(path)
    } else {
        Piece::Plain(b"?")
    }
}

/// Puts the line of an owner, with the path that was found. The error is the output's.
pub(crate) fn put_owner<O: Out>(
    owner: &Owner,
    is_found: bool,
    path: &[u8],
    out: &mut O,
) -> Result<(), SinkError>
    ensures text { Puts (O.text out.old) (O.text out.new) (owner_line owner.now (path_if is_found path.now)) result }
    ensures account { Counts (O.account out.old) (O.account out.new) result }
{
    let pieces = [
        Piece::Plain(b"tree "),
        Piece::Decimal(owner.tree.id),
        Piece::Plain(b" inode "),
        Piece::Decimal(owner.inode),
        Piece::Plain(b" position "),
        Piece::Decimal(owner.position),
        Piece::Plain(b" path "),
        path_piece(is_found, path),
        Piece::Plain(b"\n"),
    ];
    put_pieces(&pieces, out)
}

/// Puts how many lines there are before. The error is the output's.
pub(crate) fn put_total<O: Out>(count: u64, out: &mut O) -> Result<(), SinkError>
    ensures text { Puts (O.text out.old) (O.text out.new) (total_line count) result }
    ensures account { Counts (O.account out.old) (O.account out.new) result }
{
    let pieces = [
        Piece::Plain(b"owners "),
        Piece::Decimal(count),
        Piece::Plain(b"\n"),
    ];
    put_pieces(&pieces, out)
}
