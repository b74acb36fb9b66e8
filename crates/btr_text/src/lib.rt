//! Texts: the pieces that the lines of the commands are made of, and a buffer before an output, so that a long text takes
//! few calls and no memory.
//!
//! The pushers write one text, whatever the buffer put on the way: what was put and what still waits is what waited before
//! and then the pieces (`specs/Text.antt`). A fault of the output is answered as it is, and a first part of the text stands
//! there then. `specs/Pieces.antt` has the text of each piece.
#![tactic(auto)]

mod buffer;
mod digits;
mod piece;
mod put;
#[cfg(test)]
mod tests;

pub use buffer::TextBuffer;
pub use piece::Piece;
pub use put::put_pieces;
