// An opened file.
ghost use Rattle.std.specs.Prelude.{◌≡◌, ◌+◌, ◌<◌, ◌^◌, [], ◌∷◌, length, false, IfSome, IfOk, IfErr, IsTrue};
ghost use Rattle.btr_rack.specs.declared.raw_call.RawCall.TheVariants.{Read, Stored, Synced};
ghost use Rattle.btr_rack.specs.History.{event, refused, OnlyOpenedSame, Moved, FallsShort};
ghost use Rattle.btr_rack.specs.Opened.{IsOpenedAs};

use crate::opening::Opening;
use crate::raw_file::{RawFile, look_at};
use crate::transfer;
use std::fs::File;
use std::marker::Model;
use std::rt::Files;

/// A file or a block device that was opened, with its length. Clauses see its slot, and what was asked of it.
#[derive(Drop)]
pub(crate) struct OpenedFile {
    raw: RawFile,
    opening: Opening,
    len: u64,
}

impl Model for OpenedFile {
    ghost use Rattle.std.specs.Prelude.{◌<◌, ◌^◌};
    ghost use Rattle.btr_rack.specs.Opened.{OpenImage};

    ghost Value = { OpenImage };

    ghost view = { λ f. record { slot = record { name = f.opening.name; len = f.len; write = f.opening.write }; history = f.raw.history } };

    ghost invariant = { λ f. f.len < 2 ^ 63 };
}

impl OpenedFile {
    /// Opens a file or a block device, or gives back what was to be opened.
    pub(crate) fn open<R: Files<File = File>>(
        rt: &R,
        opening: Opening,
    ) -> Result<OpenedFile, Opening>
        ensures opened { IfOk result (λ f. IsOpenedAs opening f × (f.slot.len < 2 ^ 63)) }
        ensures refused { IfErr result (λ o. o ≡ opening) }
    {
        match open_image(rt, opening.name(), opening.write()) {
            Some((raw, len)) => Ok(OpenedFile { raw, opening, len }),
            None => Err(opening),
        }
    }

    pub(crate) fn len(&self) -> u64
        ensures len { result ≡ self.now.slot.len }
        ensures bound { result < 2 ^ 63 }
    {
        self.len
    }

    /// Fills the buffer with the bytes from `off` on, or says that it could not.
    pub(crate) fn fill(&mut self, off: u64, buf: &mut [u8]) -> bool
        requires { off + length buf.old < 2 ^ 63 }
        ensures slot { self.new.slot ≡ self.old.slot }
        ensures read { IsTrue result → Moved Read off self.old.history self.new.history buf.new }
        ensures cause { result ≡ false → FallsShort Read off self.old.history self.new.history buf.new }
    {
        transfer::fill(&mut self.raw, off, buf)
    }

    /// Stores the bytes from `off` on, or says that it could not.
    pub(crate) fn store(&mut self, off: u64, bytes: &[u8]) -> bool
        requires { off + length bytes.now < 2 ^ 63 }
        ensures slot { self.new.slot ≡ self.old.slot }
        ensures stored { IsTrue result → Moved Stored off self.old.history self.new.history bytes.now }
        ensures cause { result ≡ false → FallsShort Stored off self.old.history self.new.history bytes.now }
    {
        transfer::store(&mut self.raw, off, bytes) == bytes.len()
    }

    /// Waits until what was written is stored, or says that it could not.
    pub(crate) fn sync(&mut self) -> bool
        ensures slot { self.new.slot ≡ self.old.slot }
        ensures synced { IsTrue result → self.new.history ≡ event Synced [] ∷ self.old.history }
        ensures cause { result ≡ false → self.new.history ≡ refused ∷ self.old.history }
    {
        self.raw.sync()
    }
}

// The file or block device of a path, and its length. It is looked at first, so that a pipe isn't waited for, and has to be
// the same when it is open.
fn open_image<R: Files<File = File>>(rt: &R, path: &str, write: bool) -> Option<(RawFile, u64)>
    ensures { IfSome result (λ image. (image.1 < 2 ^ 63) × OnlyOpenedSame path.now write image.0.history) }
{
    let (seen, look) = look_at(rt, path)?;
    let mut how = File::options();
    how.read(true).write(write);
    let mut raw = RawFile::open_behind(rt, path, &how, &look)?;
    if raw.look()? != seen {
        return None;
    }
    match raw.end() {
        Ok(len) if len < 1 << 63 => Some((raw, len)),
        _ => None,
    }
}
