// A buffer before an output.
ghost use Rattle.std.specs.Prelude.{◌≡◌, []};
ghost use Rattle.std.specs.Fmt.{decimal};
ghost use Rattle.uuid.specs.Text.{hyphenated_text, lower};
ghost use Rattle.btr_rack.specs.Out.{Puts, Counts};
ghost use Rattle.btr_text.specs.Pieces.{name_text, bytes_text, kind_text, key_text, piece_text, text_of};
ghost use Rattle.btr_text.specs.Text.{WritesOut};

use crate::digits::{byte_digits, hexadecimal, octal};
use crate::piece::Piece;
use arrayvec::ArrayVec;
use btr_base::{Key, show_byte};
use btr_items::item;
use btr_rack::{Out, SinkError};
use std::marker::Model;
use uuid::Uuid;

/// At most 4096 bytes of a text that wait to be put. Clauses see these bytes.
///
/// After a refusal of the output nothing waits any more.
#[derive(Drop)]
pub struct TextBuffer {
    waiting: ArrayVec<u8, 4096>,
}

impl Model for TextBuffer {
    ghost use Rattle.std.specs.Prelude.{List, ℕ};

    ghost Value = { List ℕ };

    ghost view = { λ buffer. buffer.waiting.items };
}

impl TextBuffer {
    /// A buffer in which nothing waits.
    pub fn new() -> TextBuffer
        ensures { result ≡ [] }
    {
        TextBuffer {
            waiting: ArrayVec::new(),
        }
    }

    /// Puts what waits, and nothing waits behind it. The error is the output's; then a first part of it was put.
    pub fn flush<O: Out>(&mut self, out: &mut O) -> Result<(), SinkError>
        ensures text { Puts (O.text out.old) (O.text out.new) self.old result }
        ensures empty { self.new ≡ [] }
        ensures account { Counts (O.account out.old) (O.account out.new) result }
    {
        let put = out.put(self.waiting.as_slice());
        self.waiting.clear();
        put
    }

    /// WritesOut pieces, one behind another. The error is the output's; then a first part of the text was put, and nothing waits.
    pub fn push_all<O: Out>(&mut self, pieces: &[Piece], out: &mut O) -> Result<(), SinkError>
        ensures text { WritesOut (O.text out.old) (O.text out.new) self.old self.new (text_of pieces.now) result }
        ensures account { Counts (O.account out.old) (O.account out.new) result }
    {
        for piece in pieces {
            self.push(*piece, out)?;
        }
        Ok(())
    }

    /// WritesOut a piece. The error is the output's; then a first part of the text was put, and nothing waits.
    pub fn push<O: Out>(&mut self, piece: Piece, out: &mut O) -> Result<(), SinkError>
        ensures text { WritesOut (O.text out.old) (O.text out.new) self.old self.new (piece_text piece.entry) result }
        ensures account { Counts (O.account out.old) (O.account out.new) result }
    {
        match piece {
            Piece::Plain(bytes) => self.add(bytes, out),
            Piece::Decimal(n) => self.add_decimal(n, out),
            Piece::Hexadecimal(n) => self.add(&hexadecimal(n), out),
            Piece::Octal(n) => self.add(octal(n).as_slice(), out),
            Piece::Name(name) => self.add_name(name, out),
            Piece::Key(key) => self.add_key(key, out),
            Piece::HexadecimalBytes(bytes) => self.add_bytes(bytes, out),
            Piece::Id(id) => self.add_id(id, out),
        }
    }

    // WritesOut some bytes.
    fn add<O: Out>(&mut self, bytes: &[u8], out: &mut O) -> Result<(), SinkError>
        ensures text { WritesOut (O.text out.old) (O.text out.new) self.old self.new bytes.now result }
        ensures account { Counts (O.account out.old) (O.account out.new) result }
    {
        match self.waiting.try_extend_from_slice(bytes) {
            Ok(()) => Ok(()),
            Err(_) => self.add_behind(bytes, out),
        }
    }

    // Puts what waits, and writes some bytes behind it, at once where there are more than can wait.
    fn add_behind<O: Out>(&mut self, bytes: &[u8], out: &mut O) -> Result<(), SinkError>
        ensures text { WritesOut (O.text out.old) (O.text out.new) self.old self.new bytes.now result }
        ensures account { Counts (O.account out.old) (O.account out.new) result }
    {
        self.flush(out)?;
        let Err(_) = self.waiting.try_extend_from_slice(bytes) else {
            return Ok(());
        };
        out.put(bytes)
    }

    fn add_decimal<O: Out>(&mut self, n: u64, out: &mut O) -> Result<(), SinkError>
        ensures text { WritesOut (O.text out.old) (O.text out.new) self.old self.new (decimal n) result }
        ensures account { Counts (O.account out.old) (O.account out.new) result }
    {
        let mut digits = itoa::Buffer::new();
        self.add(digits.format(n).as_bytes(), out)
    }

    fn add_id<O: Out>(&mut self, id: [u8; 16], out: &mut O) -> Result<(), SinkError>
        ensures text { WritesOut (O.text out.old) (O.text out.new) self.old self.new (hyphenated_text lower id) result }
        ensures account { Counts (O.account out.old) (O.account out.new) result }
    {
        let mut buffer = Uuid::encode_buffer();
        let id = Uuid::from_bytes(id);
        let shown = id.hyphenated().encode_lower(&mut buffer);
        self.add(shown.as_bytes(), out)
    }

    fn add_name<O: Out>(&mut self, name: &[u8], out: &mut O) -> Result<(), SinkError>
        ensures text { WritesOut (O.text out.old) (O.text out.new) self.old self.new (name_text name.now) result }
        ensures account { Counts (O.account out.old) (O.account out.new) result }
    {
        for b in name {
            let shown = show_byte(*b);
            self.add(shown.as_slice(), out)?;
        }
        Ok(())
    }

    fn add_bytes<O: Out>(&mut self, bytes: &[u8], out: &mut O) -> Result<(), SinkError>
        ensures text { WritesOut (O.text out.old) (O.text out.new) self.old self.new (bytes_text bytes.now) result }
        ensures account { Counts (O.account out.old) (O.account out.new) result }
    {
        for b in bytes {
            self.add(&byte_digits(*b), out)?;
        }
        Ok(())
    }

    // The name of an item type, or its number.
    fn add_kind<O: Out>(&mut self, kind: u8, out: &mut O) -> Result<(), SinkError>
        ensures text { WritesOut (O.text out.old) (O.text out.new) self.old self.new (kind_text kind) result }
        ensures account { Counts (O.account out.old) (O.account out.new) result }
    {
        match item::name_of(kind) {
            Some(name) => self.add(name, out),
            None => {
                self.add(b"UNKNOWN.", out)?;
                self.add_decimal(kind as u64, out)
            }
        }
    }

    fn add_key<O: Out>(&mut self, key: Key, out: &mut O) -> Result<(), SinkError>
        ensures text { WritesOut (O.text out.old) (O.text out.new) self.old self.new (key_text key) result }
        ensures account { Counts (O.account out.old) (O.account out.new) result }
    {
        self.add(b"(", out)?;
        self.add_decimal(key.objectid, out)?;
        self.add(b" ", out)?;
        self.add_kind(key.kind, out)?;
        self.add(b" ", out)?;
        self.add_decimal(key.offset, out)?;
        self.add(b")", out)
    }
}
