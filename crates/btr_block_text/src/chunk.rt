// The lines of a chunk.
ghost use Rattle.std.specs.Prelude.{◌≡◌, ◌+◌, ◌*◌, ◌≤◌, length, IsTrue};
ghost use Rattle.btr_items.specs.ChunkItem.{has_chunk_size};
ghost use Rattle.btr_rack.specs.Out.{Counts};
ghost use Rattle.btr_text.specs.Pieces.{text_of};
ghost use Rattle.btr_block_text.specs.Read.{WritesTo};
ghost use Rattle.btr_block_text.specs.Chunk as spec;

use btr_base::{array_at, u16_at, u64_at};
use btr_rack::{Out, SinkError};
use btr_text::{Piece, TextBuffer};

#[tactic(auto, unfolding(crate::specs::Chunk::chunk_line))]
fn chunk_line(body: &[u8]) -> [Piece<'static>; 13]
    requires { 48 ≤ length body.now }
    ensures { text_of result ≡ spec.chunk_line body.now }
{
    [
        Piece::Plain(b"\t\tlength "),
        Piece::Decimal(u64_at(body, 0)),
        Piece::Plain(b" owner "),
        Piece::Decimal(u64_at(body, 8)),
        Piece::Plain(b" stripe_len "),
        Piece::Decimal(u64_at(body, 16)),
        Piece::Plain(b" type "),
        Piece::Hexadecimal(u64_at(body, 24)),
        Piece::Plain(b" stripes "),
        Piece::Decimal(u16_at(body, 44) as u64),
        Piece::Plain(b" sub_stripes "),
        Piece::Decimal(u16_at(body, 46) as u64),
        Piece::Plain(b"\n"),
    ]
}

#[tactic(auto, unfolding(crate::specs::Chunk::stripe_line))]
fn stripe_line(body: &[u8], i: usize) -> [Piece<'static>; 9]
    requires { 48 + 32 * (i + 1) ≤ length body.now }
    ensures { text_of result ≡ spec.stripe_line body.now i }
{
    let at = 48 + 32 * i;
    [
        Piece::Plain(b"\t\tstripe "),
        Piece::Decimal(i as u64),
        Piece::Plain(b" devid "),
        Piece::Decimal(u64_at(body, at)),
        Piece::Plain(b" offset "),
        Piece::Decimal(u64_at(body, at + 8)),
        Piece::Plain(b" uuid "),
        Piece::Id(array_at(body, at + 16)),
        Piece::Plain(b"\n"),
    ]
}

/// Writes the lines of a chunk and of its stripes. The error is the output's.
pub(crate) fn write_chunk<O: Out>(
    body: &[u8],
    text: &mut TextBuffer,
    out: &mut O,
) -> Result<(), SinkError>
    requires { IsTrue (has_chunk_size body.now) }
    ensures text { WritesTo O.text out.old out.new text.old text.new (spec.chunk_lines body.now) result }
    ensures account { Counts (O.account out.old) (O.account out.new) result }
{
    text.push_all(&chunk_line(body), out)?;
    for i in 0..u16_at(body, 44) as usize {
        text.push_all(&stripe_line(body, i), out)?;
    }
    Ok(())
}
