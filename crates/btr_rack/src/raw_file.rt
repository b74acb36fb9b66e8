// A file of the system.
ghost use Rattle.std.specs.Prelude.{◌≡◌, [], ◌∷◌, if◌then◌else◌, IfSome};
ghost use Rattle.btr_rack.specs.declared.raw_call.RawCall.TheVariants.{Read, Stored, Cut, Synced};
ghost use Rattle.btr_rack.specs.History.{event, looked, refused, IsInVain, IsOpenedBy, Notes, NotesLook};

use crate::file_id::FileId;
use crate::history::{Call, Events, History};
use crate::raw_call::RawCall;
use crate::tried::Tried;
use std::fs::{File, OpenOptions};
use std::io::{ErrorKind, Seek, SeekFrom};
use std::os::unix::fs::FileExt;
use std::rt::Files;
use std::{fs, io};

/// A file of the system, and what was asked of it. `open_behind`, `look`, `read`, `store`, `cut` and `sync` each ask
/// std for one thing and note it, and so does the function `look_at`: that they ask for just what they note, and that
/// a refusal is one of the system, is read here, and proved nowhere. All that is proved of real files stands on these
/// notes.
///
/// Where the system interrupts an opening, a change of the length or a sync, std asks it again. An interrupted read
/// or write is noted as such.
#[derive(Drop)]
pub(crate) struct RawFile {
    file: File,
    pub(crate) history: History,
}

/// Looks which file or block device stands at a path, and notes it. `None`: none, or another kind of file.
pub(crate) fn look_at(rt: &impl Files, path: &str) -> Option<(FileId, History)>
    ensures { IfSome result (λ seen. seen.1 ≡ looked path.now seen.0 ∷ []) }
{
    let id = FileId::of_image(&fs::metadata(rt, path).ok()?)?;
    let history = History::new(&Events).with(&Call(RawCall::Looked(id), path.as_bytes()));
    Some((id, history))
}

// Why a read or a write did nothing, and how that is noted.
fn in_vain(answer: io::Result<usize>) -> (Tried, RawCall)
    ensures { IsInVain result }
{
    match answer {
        Err(error) if error.kind() == ErrorKind::Interrupted => (
            Tried::Interrupted,
            RawCall::Interrupted,
        ),
        _ => (Tried::Refused, RawCall::Refused),
    }
}

impl RawFile {
    /// Opens the file of a path, or says that it can't be opened.
    pub(crate) fn open<R: Files<File = File>>(
        rt: &R,
        path: &str,
        how: &OpenOptions,
    ) -> Option<RawFile>
        ensures { IfSome result (λ f. IsOpenedBy how.now path.now [] f.history) }
    {
        RawFile::open_behind(rt, path, how, &History::new(&Events))
    }

    /// The same, behind other calls.
    pub(crate) fn open_behind<R: Files<File = File>>(
        rt: &R,
        path: &str,
        how: &OpenOptions,
        before: &History,
    ) -> Option<RawFile>
        ensures { IfSome result (λ f. IsOpenedBy how.now path.now before.now f.history) }
    {
        let file = how.open(rt, path).ok()?;
        let call = RawCall::Opened {
            write: how.asks_write(),
            made: how.asks_create_new(),
        };
        let history = before.with(&Call(call, path.as_bytes()));
        Some(RawFile { file, history })
    }

    /// Looks which file or block device it is. `None`: that can't be known, or it is another kind of file.
    pub(crate) fn look(&mut self) -> Option<FileId>
        ensures { NotesLook self.old.history self.new.history result }
    {
        let seen = match self.file.metadata() {
            Ok(found) => FileId::of_image(&found),
            Err(_) => None,
        };
        let call = match seen {
            Some(id) => RawCall::Looked(id),
            None => RawCall::Refused,
        };
        self.history = self.history.with(&Call(call, &[]));
        seen
    }

    /// Reads into the beginning of `buf` from `off` on.
    pub(crate) fn read(&mut self, off: u64, buf: &mut [u8]) -> Tried
        ensures { Notes (Read off) buf.new self.old.history self.new.history result }
    {
        let (tried, call) = match self.file.read_at(buf, off) {
            Ok(count) if count > 0 => {
                self.history = self.history.with(&Call(RawCall::Read(off), &buf[..count]));
                return Tried::Done(count);
            }
            other => in_vain(other),
        };
        self.history = self.history.with(&Call(call, &[]));
        tried
    }

    /// Writes a first part of the bytes from `off` on.
    pub(crate) fn store(&mut self, off: u64, bytes: &[u8]) -> Tried
        ensures { Notes (Stored off) bytes.now self.old.history self.new.history result }
    {
        let (tried, call) = match self.file.write_at(bytes, off) {
            Ok(count) if count > 0 => {
                self.history = self
                    .history
                    .with(&Call(RawCall::Stored(off), &bytes[..count]));
                return Tried::Done(count);
            }
            other => in_vain(other),
        };
        self.history = self.history.with(&Call(call, &[]));
        tried
    }

    /// Sets the length, or says that it could not.
    pub(crate) fn cut(&mut self, len: u64) -> bool
        ensures { self.new.history ≡ (if result then event (Cut len) [] else refused) ∷ self.old.history }
    {
        let done = self.file.set_len(len).is_ok();
        let call = if done {
            RawCall::Cut(len)
        } else {
            RawCall::Refused
        };
        self.history = self.history.with(&Call(call, &[]));
        done
    }

    /// Waits until what was written is stored, or says that it could not.
    pub(crate) fn sync(&mut self) -> bool
        ensures { self.new.history ≡ (if result then event Synced [] else refused) ∷ self.old.history }
    {
        let done = self.file.sync_all().is_ok();
        let call = if done {
            RawCall::Synced
        } else {
            RawCall::Refused
        };
        self.history = self.history.with(&Call(call, &[]));
        done
    }

    /// Where a seek to the end stands: the length of a file or of a block device.
    pub(crate) fn end(&mut self) -> io::Result<u64>
        ensures { self.new.history ≡ self.old.history }
    {
        self.file.seek(SeekFrom::End(0))
    }
}
