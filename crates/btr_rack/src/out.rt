// An output of bytes.
ghost use Rattle.std.specs.Prelude.{ℕ, List, Option};
ghost use Rattle.btr_rack.specs.Out.{CallAccount, HasCountLeft, Puts, Counts};

use crate::SinkError;

/// An output of text.
pub trait Out {
    /// What was put, where the output tells it.
    ghost text: { Self → Option (List ℕ) };

    /// How often a call failed, and whether one is to fail or to want memory.
    ghost account: { Self → CallAccount };

    /// Appends the bytes. After a refusal a first part of them may stand there.
    fn put(&mut self, bytes: &[u8]) -> Result<(), SinkError>
        ensures text { Puts (text self.old) (text self.new) bytes.now result }
        ensures account { Counts (account self.old) (account self.new) result };

    /// The count of faults of a sure output is below its type's last value.
    ghost count_left: { (out : Self) → HasCountLeft (account out) };
}
