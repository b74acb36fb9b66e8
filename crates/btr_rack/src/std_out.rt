// The standard output.
ghost use Rattle.std.specs.Prelude.{◌≡◌, ◌++◌, [], ℕ, Some, true, false, take, IsTrue};
ghost use Rattle.btr_rack.specs.CallsLaws.{unsure_count_left};
ghost use Rattle.btr_rack.specs.StdOut.{text_of};

use crate::raw_out::{RawOut, Refusal};
use crate::{Out, SinkError};

// How often a write that is interrupted is made again.
const MOST_TRIES: u32 = 16;

/// The standard output. What it tells is what the calls of the system took.
#[derive(Drop)]
pub struct StdOut<R: Print + Drop> {
    raw: RawOut<R>,
    faults: u64,
}

impl<R: Print + Drop> StdOut<R> {
    /// The standard output of a runtime.
    pub fn new(rt: R) -> StdOut<R>
        ensures text { result.raw.history ≡ [] }
        ensures faults { result.faults ≡ 0 }
    {
        StdOut {
            raw: RawOut::new(rt),
            faults: 0,
        }
    }
}

impl<R: Print + Drop> Out for StdOut<R> {
    ghost text = { λ out. Some (text_of out.raw.history) };

    ghost account = { λ out. record { faults = out.faults; sure = false; ample = true } };

    ghost count_left = { λ out. unsure_count_left out.faults true };

    fn put(&mut self, bytes: &[u8]) -> Result<(), SinkError> {
        if !write_all(&mut self.raw, bytes) {
            self.faults = self.faults.saturating_add(1);
            return Err(SinkError::Failed);
        }
        Ok(())
    }
}

// Writes the bytes, or says that it could not: then a first part of them went out. A write that is interrupted is made
// again.
fn write_all<R: Print + Drop>(raw: &mut RawOut<R>, bytes: &[u8]) -> bool
    ensures all { IsTrue result → text_of raw.new.history ≡ text_of raw.old.history ++ bytes.now }
    ensures some { result ≡ false
        → (n : ℕ) × (text_of raw.new.history ≡ text_of raw.old.history ++ take n bytes.now) }
{
    let mut done = 0;
    let mut tries = 0;
    while done < bytes.len() {
        match raw.write(&bytes[done..]) {
            Ok(count) => {
                done += count;
                tries = 0;
            }
            Err(Refusal::Interrupted) if tries < MOST_TRIES => tries += 1,
            Err(_) => return false,
        }
    }
    true
}
