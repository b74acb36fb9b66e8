// An output in memory.
ghost use Rattle.std.specs.Prelude.{◌≡◌, Some, OnOk, OnErr};
ghost use Rattle.btr_rack.specs.MemOut.{empty_out};
ghost use Rattle.btr_rack.specs.Out.{Puts, Counts};
ghost use Rattle.btr_rack.specs.Calls.{account_of, failing_call, CallsOnce};
ghost use Rattle.btr_rack.specs.CallsLaws.{calls_count_left};

use crate::calls::Calls;
use crate::{Out, SinkError};
use btr_base::Memory;
use std::alloc::Global;
use std::marker::Model;

/// An output in memory.
#[derive(Drop)]
pub struct MemOut {
    text: Vec<u8>,
    calls: Calls,
}

impl Model for MemOut {
    ghost use Rattle.btr_rack.specs.MemOut.{MemoryOut};

    ghost Value = { MemoryOut };

    ghost view = { λ out. record { text = out.text.items; calls = out.calls } };
}

impl MemOut {
    /// An output with no text, in which nothing is to fail.
    pub fn new(alloc: Global) -> MemOut
        ensures { result ≡ empty_out }
    {
        MemOut {
            text: Vec::new(alloc),
            calls: Calls::new(alloc),
        }
    }

    /// Makes the nth call of `put` fail, counted from 1. `Memory`: want of memory, and nothing is changed.
    pub fn fail_call(&mut self, n: u64) -> Result<(), Memory>
        ensures ok { OnOk result (self.new ≡ record self.old { calls = failing_call n self.old.calls }) }
        ensures refused { OnErr result (self.new ≡ self.old) }
    {
        self.calls.fail(n)
    }

    /// What was put.
    pub fn text(&self) -> &[u8]
        ensures { result.now ≡ self.now.text }
    {
        &self.text
    }
}

impl Out for MemOut {
    ghost text = { λ out. Some out.text };

    ghost account = { λ out. account_of out.calls };

    ghost count_left = { λ out. calls_count_left out.calls };

    // A call that is made to fail changes nothing but the count of faults.
    fn put(&mut self, bytes: &[u8]) -> Result<(), SinkError>
        ensures text { Puts (Some self.old.text) (Some self.new.text) bytes.now result }
        ensures account { Counts (account_of self.old.calls) (account_of self.new.calls) result }
        ensures calls { CallsOnce self.old.calls self.new.calls result }
        ensures refused { OnErr result (self.new.text ≡ self.old.text) }
    {
        if self.calls.next_fails() {
            return Err(SinkError::Failed);
        }
        let Ok(()) = self.text.extend_from_slice(bytes) else {
            return Err(SinkError::Memory);
        };
        Ok(())
    }
}
