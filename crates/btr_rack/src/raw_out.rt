// The standard output of the system.
ghost use Rattle.std.specs.Prelude.{◌≡◌, ◌<◌, ◌≤◌, [], length, IfOk};
ghost use Rattle.btr_rack.specs.StdOut.{NotesWrite};

use crate::history::{Call, Events, History};
use crate::raw_call::RawCall;
use std::io::ErrorKind;

/// Why a write took no byte: it was interrupted, or it failed.
#[derive(Clone, Copy, Debug, PartialEq, Eq)]
pub(crate) enum Refusal {
    Interrupted,
    Failed,
}

/// The standard output of the system, and what it took. `write` makes one call of the system and notes it: that it
/// does so is read here, and proved nowhere. All that is proved of the standard output stands on these notes.
#[derive(Drop)]
pub(crate) struct RawOut<R: Print + Drop> {
    rt: R,
    pub(crate) history: History,
}

impl<R: Print + Drop> RawOut<R> {
    /// The standard output of a runtime, which took nothing yet.
    pub(crate) fn new(rt: R) -> RawOut<R>
        ensures { result.history ≡ [] }
    {
        RawOut {
            rt,
            history: History::new(&Events),
        }
    }

    /// Writes a first part of the bytes, and answers how many.
    pub(crate) fn write(&mut self, bytes: &[u8]) -> Result<usize, Refusal>
        ensures count { IfOk result (λ n. (0 < n) × (n ≤ length bytes.now)) }
        ensures noted { NotesWrite bytes.now self.old.history self.new.history result }
    {
        match self.rt.write_some(bytes) {
            Ok(count) if count > 0 => {
                self.history = self
                    .history
                    .with(&Call(RawCall::Stored(0), &bytes[..count]));
                Ok(count)
            }
            Err(error) if error.kind() == ErrorKind::Interrupted => {
                self.history = self.history.with(&Call(RawCall::Refused, &[]));
                Err(Refusal::Interrupted)
            }
            _ => {
                self.history = self.history.with(&Call(RawCall::Refused, &[]));
                Err(Refusal::Failed)
            }
        }
    }
}
