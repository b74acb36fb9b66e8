// A file that is being written.
ghost use Rattle.std.specs.Prelude.{◌≡◌, ◌≤◌, ◌++◌, [], ◌∷◌, length, take, replicate, false, true, IfSome, IsTrue};
ghost use Rattle.btr_rack.specs.History.{opened, replay};
ghost use Rattle.btr_rack.specs.Growing.{written, contents, PutsPart};
ghost use Rattle.btr_rack.specs.Name.{IsGoodName};

use crate::buffer::Buffer;
use crate::history::History;
use crate::raw_file::RawFile;
use crate::transfer;
use std::fs::File;
use std::marker::Model;
use std::os::unix::fs::OpenOptionsExt;
use std::rt::Files;

// The owner reads and writes the file, and nobody else.
const PRIVATE_FILE: u32 = 0o600;

/// A file that is being written from its beginning on. Clauses see what was asked of it, and where the next byte
/// is to be stored: the bytes of the buffer that goes with it stand there.
#[derive(Drop)]
pub(crate) struct NewFile {
    raw: RawFile,
    // The length, and where the next byte is to be stored: behind the length where zeros stand between.
    len: u64,
    position: u64,
}

impl Model for NewFile {
    ghost use Rattle.std.specs.Prelude.{◌≡◌, ◌≤◌, length};
    ghost use Rattle.btr_rack.specs.History.{replay};
    ghost use Rattle.btr_rack.specs.Growing.{Growing};

    ghost Value = { Growing };

    ghost view = { λ f. record { history = f.raw.history; position = f.position } };

    ghost invariant = { λ f. (length (replay f.raw.history) ≡ f.len) × (f.len ≤ f.position) };
}

impl NewFile {
    /// Makes an empty file, where none of the name is there. It is private.
    pub(crate) fn make<R: Files<File = File>>(rt: &R, name: &str) -> Option<NewFile>
        requires { IsGoodName name.now }
        ensures { IfSome result (λ f. f ≡ record { history = opened name.now true true ∷ []; position = 0 }) }
    {
        let mut how = File::options();
        how.mode(PRIVATE_FILE);
        how.write(true).create_new(true);
        let raw = RawFile::open(rt, name, &how)?;
        Some(NewFile {
            raw,
            len: 0,
            position: 0,
        })
    }

    /// What was asked of the file.
    pub(crate) fn history(&self) -> &History
        ensures { result.now ≡ self.now.history }
    {
        &self.raw.history
    }

    /// Appends bytes, or says that it could not: then a first part of them may stand there.
    pub(crate) fn put(&mut self, buffer: &mut Buffer, bytes: &[u8]) -> bool
        ensures all { IsTrue result → contents self.new buffer.new ≡ contents self.old buffer.old ++ bytes.now }
        ensures some { result ≡ false → PutsPart self.old buffer.old self.new buffer.new bytes.now }
    {
        if buffer.push(bytes) {
            return true;
        }
        if !self.flush(buffer) {
            return false;
        }
        if buffer.push(bytes) {
            return true;
        }
        self.store(bytes) == bytes.len()
    }

    /// Appends zeros, or says that it could not: then none of them stand there. They take no place in the file.
    pub(crate) fn gap(&mut self, buffer: &mut Buffer, count: u64) -> bool
        ensures all { IsTrue result → contents self.new buffer.new ≡ contents self.old buffer.old ++ replicate count 0 }
        ensures none { result ≡ false → contents self.new buffer.new ≡ contents self.old buffer.old }
    {
        if !self.flush(buffer) {
            return false;
        }
        let Some(position) = self.position.checked_add(count) else {
            return false;
        };
        self.position = position;
        true
    }

    /// Stores all that was put, and sets the length, or says that it could not: then all stays as it was, and it
    /// can be tried again.
    pub(crate) fn finish(&mut self, buffer: &mut Buffer) -> bool
        ensures same { contents self.new buffer.new ≡ contents self.old buffer.old }
        ensures stored { IsTrue result → replay self.new.history ≡ contents self.old buffer.old }
    {
        if !self.flush(buffer) {
            return false;
        }
        if self.len < self.position {
            if !self.raw.cut(self.position) {
                return false;
            }
            self.len = self.position;
        }
        true
    }

    // Stores what is in the buffer, or says that it could not: then the rest stays there.
    fn flush(&mut self, buffer: &mut Buffer) -> bool
        ensures same { contents self.new buffer.new ≡ contents self.old buffer.old }
        ensures empty { IsTrue result → buffer.new ≡ [] }
    {
        let stored = self.store(buffer.as_slice());
        buffer.forget(stored);
        buffer.is_empty()
    }

    // Stores a first part of the bytes, and answers how many: fewer than all where that failed.
    fn store(&mut self, bytes: &[u8]) -> usize
        ensures count { result ≤ length bytes.now }
        ensures stored { written self.new ≡ written self.old ++ take result bytes.now }
    {
        let Some(_end) = self.position.checked_add(bytes.len() as u64) else {
            return 0;
        };
        let stored = transfer::store(&mut self.raw, self.position, bytes);
        if stored > 0 {
            self.position += stored as u64;
            self.len = self.position;
        }
        stored
    }
}
