// What is to fail in a rack in memory.
ghost use Rattle.std.specs.Prelude.{◌≡◌, ◌+◌, ◌<◌, ◌^◌, OnOk, OnErr};
ghost use Rattle.std.specs.List.{list_any};
ghost use Rattle.btr_rack.specs.Memory.{nothing_fails, after_call, after_write, call_strikes, write_strikes, touches, failing_call, failing_write};
ghost use Rattle.btr_rack.specs.Memory.{failing_range, tearing};

use crate::strike::strikes;
use btr_base::Memory;
use std::alloc::Global;
use std::marker::Model;

/// A range of the image of a name.
#[derive(Drop)]
struct Range {
    name: String,
    off: u64,
    len: u64,
}

impl Model for Range {
    ghost use Rattle.std.specs.String.{string_bytes};
    ghost use Rattle.btr_rack.specs.Memory.{NamedRange};

    ghost Value = { NamedRange };

    ghost view = { λ r. record { name = string_bytes r.name; off = r.off; len = r.len } };
}

/// What is to fail: calls and writes by number, and reads and writes by range.
#[derive(Drop)]
pub(crate) struct Failing {
    alloc: Global,
    calls: u64,
    writes: u64,
    failing_calls: Vec<u64>,
    failing_writes: Vec<u64>,
    failing_ranges: Vec<Range>,
    tear: Option<u8>,
}

impl Model for Failing {
    ghost use Rattle.btr_rack.specs.Memory.{Failures};

    ghost Value = { Failures };

    ghost view = { λ f. record { calls = f.calls; writes = f.writes; failing_calls = f.failing_calls.items; failing_writes = f.failing_writes.items; failing_ranges = f.failing_ranges.items; tear = f.tear } };
}

impl Failing {
    pub(crate) fn new(alloc: Global) -> Failing
        ensures { result ≡ nothing_fails }
    {
        Failing {
            alloc,
            calls: 0,
            writes: 0,
            failing_calls: Vec::new(alloc),
            failing_writes: Vec::new(alloc),
            failing_ranges: Vec::new(alloc),
            tear: None,
        }
    }

    /// Nothing is to fail, and calls and writes are counted anew.
    pub(crate) fn clear(&mut self)
        ensures { self.new ≡ nothing_fails }
    {
        self.calls = 0;
        self.writes = 0;
        self.failing_calls.clear();
        self.failing_writes.clear();
        self.failing_ranges.clear();
        self.tear = None;
    }

    /// Counts a call, and says whether it is to fail.
    pub(crate) fn call(&mut self) -> bool
        ensures calls { self.new ≡ after_call self.old }
        ensures strikes { result ≡ call_strikes self.old }
    {
        strikes(&mut self.calls, &self.failing_calls)
    }

    /// Counts a write, and says whether it is to fail.
    pub(crate) fn write(&mut self) -> bool
        ensures writes { self.new ≡ after_write self.old }
        ensures strikes { result ≡ write_strikes self.old }
    {
        let call = strikes(&mut self.calls, &self.failing_calls);
        let write = strikes(&mut self.writes, &self.failing_writes);
        call || write
    }

    /// The byte that a failing write leaves, if it leaves one.
    pub(crate) fn tear(&self) -> Option<u8>
        ensures { result ≡ self.now.tear }
    {
        self.tear
    }

    pub(crate) fn tear_with(&mut self, byte: u8)
        ensures { self.new ≡ tearing byte self.old }
    {
        self.tear = Some(byte);
    }

    /// A read or write of this range of the image of a name is to fail.
    pub(crate) fn meets(&self, name: &str, off: u64, len: u64) -> bool
        requires { off + len < 2 ^ 63 }
        ensures { result ≡ list_any (touches name.now off len) self.now.failing_ranges }
    {
        self.failing_ranges
            .iter()
            .any(|r| r.touches(name, off, len))
    }

    pub(crate) fn fail_call(&mut self, n: u64) -> Result<(), Memory>
        ensures ok { OnOk result (self.new ≡ failing_call n self.old) }
        ensures err { OnErr result (self.new ≡ self.old) }
    {
        self.failing_calls.push(n).map_err(|_| Memory)
    }

    pub(crate) fn fail_write(&mut self, n: u64) -> Result<(), Memory>
        ensures ok { OnOk result (self.new ≡ failing_write n self.old) }
        ensures err { OnErr result (self.new ≡ self.old) }
    {
        self.failing_writes.push(n).map_err(|_| Memory)
    }

    pub(crate) fn fail_range(&mut self, name: &str, off: u64, len: u64) -> Result<(), Memory>
        ensures ok { OnOk result (self.new ≡ failing_range name.now off len self.old) }
        ensures err { OnErr result (self.new ≡ self.old) }
    {
        let name = String::from_str(self.alloc, name).map_err(|_| Memory)?;
        self.failing_ranges
            .push(Range { name, off, len })
            .map_err(|_| Memory)
    }
}

impl Range {
    fn touches(&self, name: &str, off: u64, len: u64) -> bool
        requires { off + len < 2 ^ 63 }
        ensures { result ≡ touches name.now off len self.now }
    {
        let end = self.off.saturating_add(self.len).min(off + len);
        self.name.as_str() == name && self.off.max(off) < end
    }
}
