// A text that is put whole.
ghost use Rattle.btr_rack.specs.Out.{Puts, Counts};
ghost use Rattle.btr_text.specs.Pieces.{text_of};

use crate::buffer::TextBuffer;
use crate::piece::Piece;
use btr_rack::{Out, SinkError};

/// Puts the text of pieces. The error is the output's; then a first part of the text was put.
pub fn put_pieces<O: Out>(pieces: &[Piece], out: &mut O) -> Result<(), SinkError>
    ensures text { Puts (O.text out.old) (O.text out.new) (text_of pieces.now) result }
    ensures account { Counts (O.account out.old) (O.account out.new) result }
{
    let mut buffer = TextBuffer::new();
    buffer.push_all(pieces, out)?;
    buffer.flush(out)
}
