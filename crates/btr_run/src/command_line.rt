// The words that the program was given.
ghost use Rattle.std.specs.Prelude.{◌≡◌, ◌≤◌, ℕ, List, Option, length, map, IfOk};
ghost use Rattle.std.specs.String.{string_bytes};
ghost use Rattle.btr_run.specs.CommandLine.{AreTexts, IsTextOf, IsWord, IsWordIn};

use std::alloc::{AllocError, Global};
use std::env::FillError;

/// The words that the program was given, without its name.
pub trait CommandLine {
    /// Their bytes, where they are told.
    ghost told: { Self → Option (List (List ℕ)) };

    /// Copies the word of this number, from 0, to the start of the buffer, and answers its length in bytes.
    ///
    /// `NotPresent` comes where there is no such word, and `TooLong` where the buffer is shorter than it.
    fn word(&self, number: usize, buffer: &mut [u8]) -> Result<usize, FillError>
        ensures room { IfOk result (λ len. len ≤ length buffer.new) }
        ensures word { IsWordIn (told self.now) number buffer.new result };
}

/// The words as text. One that isn't UTF-8 is an empty text, which no sentence has at any place. The error is want of memory.
pub(crate) fn words_of<W: CommandLine>(alloc: Global, line: &W) -> Result<Vec<String>, AllocError>
    ensures { IfOk result (λ words. AreTexts (W.told line.now) (map string_bytes words.items)) }
{
    let mut words = Vec::new(alloc);
    for number in 0..usize::MAX {
        match whole_word(alloc, line, number)? {
            Some(bytes) => words.push(text_of(alloc, bytes))?,
            None => return Ok(words),
        }
    }
    Err(AllocError)
}

// The bytes of a word, where there is one of this number.
fn whole_word<W: CommandLine>(
    alloc: Global,
    line: &W,
    number: usize,
) -> Result<Option<Vec<u8>>, AllocError>
    ensures { IfOk result (λ word. IsWord (W.told line.now) number word) }
{
    let mut capacity = 256usize;
    for _ in 0..usize::BITS {
        let mut bytes = Vec::new(alloc);
        bytes.resize(capacity, 0)?;
        match line.word(number, &mut bytes) {
            Ok(len) => {
                bytes.truncate(len);
                return Ok(Some(bytes));
            }
            Err(FillError::NotPresent) => return Ok(None),
            Err(FillError::TooLong) => capacity = capacity.saturating_add(capacity),
        }
    }
    Err(AllocError)
}

// A word as text.
fn text_of(alloc: Global, bytes: Vec<u8>) -> String
    ensures { IsTextOf bytes.items (string_bytes result) }
{
    match String::from_utf8(bytes) {
        Ok(text) => text,
        Err(_) => String::new(alloc),
    }
}
