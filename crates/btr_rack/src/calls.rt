// The calls of a sink or an output in memory.
ghost use Rattle.std.specs.Prelude.{◌≡◌, OnOk, OnErr, if◌then◌else◌};
ghost use Rattle.std.specs.Bool.{OnTrue};
ghost use Rattle.btr_rack.specs.Rack.{Rose};
ghost use Rattle.btr_rack.specs.Calls.{no_calls, failing_call, strikes, after_call, after_fault};

use crate::strike::strikes;
use btr_base::Memory;
use std::alloc::Global;
use std::marker::Model;

/// The calls that were made, those that are to fail, and how many failed.
#[derive(Drop)]
pub(crate) struct Calls {
    made: u64,
    failing: Vec<u64>,
    faults: u64,
}

impl Model for Calls {
    ghost use Rattle.btr_rack.specs.Calls.{CallCount};

    ghost Value = { CallCount };

    ghost view = { λ c. record { made = c.made; failing = c.failing.items; faults = c.faults } };
}

impl Calls {
    pub(crate) fn new(alloc: Global) -> Calls
        ensures { result ≡ no_calls }
    {
        Calls {
            made: 0,
            failing: Vec::new(alloc),
            faults: 0,
        }
    }

    /// Makes the nth call fail, counted from 1.
    pub(crate) fn fail(&mut self, n: u64) -> Result<(), Memory>
        ensures ok { OnOk result (self.new ≡ failing_call n self.old) }
        ensures err { OnErr result (self.new ≡ self.old) }
    {
        self.failing.push(n).map_err(|_| Memory)
    }

    /// Counts a call, and says whether it is to fail. If so, it counts the fault too.
    pub(crate) fn next_fails(&mut self) -> bool
        ensures strikes { result ≡ strikes self.old }
        ensures counted { self.new ≡ (if result then after_fault self.old else after_call self.old) }
        ensures rose { OnTrue result (Rose self.old.faults self.new.faults) }
    {
        if strikes(&mut self.made, &self.failing) {
            self.faults = self.faults.saturating_add(1);
            true
        } else {
            false
        }
    }
}
