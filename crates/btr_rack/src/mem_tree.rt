// A sink in memory.
ghost use Rattle.std.specs.Prelude.{◌≡◌, ◌<◌, ◌++◌, [], ◌∷◌, false, refl, OnOk, OnErr, IfErr, IsErrOf, IsOk, vec_len, replicate};
ghost use Rattle.std.specs.Option.{option_copied};
ghost use Rattle.std.specs.Vec.{vec_capacity};
ghost use Rattle.btr_rack.specs.Out.{Counts};
ghost use Rattle.btr_rack.specs.Calls.{account_of, failing_call, CallsOnce};
ghost use Rattle.btr_rack.specs.CallsLaws.{calls_count_left};
ghost use Rattle.btr_rack.specs.Name.{IsGoodName};
ghost use Rattle.btr_rack.specs.Sink.{NotStarted, BetweenFiles, InFile, Steps, Grows, started, entered, left, begun, finished, longer};
ghost use Rattle.btr_rack.specs.MemTree.{empty_tree, stage_of, depth_of, sink_of};
ghost use Rattle.btr_rack.specs.MemTreeLaws.{sound_tree};

use crate::bytes::Bytes;
use crate::calls::Calls;
use crate::part::Part;
use crate::row::Row;
use crate::text::Text;
use crate::{SinkError, TreeSink};
use btr_base::Memory;
use std::alloc::Global;
use std::marker::Model;

/// A sink in memory. It keeps the steps that were finished, and the file that isn't.
#[derive(Drop)]
pub struct MemTree {
    alloc: Global,
    rows: Vec<Row>,
    part: Option<Part>,
    calls: Calls,
}

impl Model for MemTree {
    ghost use Rattle.btr_rack.specs.MemTree.{MemoryTree};

    ghost Value = { MemoryTree };

    ghost view = { λ t. record { tree = record { rows = t.rows.items; part = t.part }; calls = t.calls } };
}

impl MemTree {
    /// A sink that isn't started, in which nothing is to fail.
    pub fn new(alloc: Global) -> MemTree
        ensures { result ≡ empty_tree }
    {
        MemTree {
            alloc,
            rows: Vec::new(alloc),
            part: None,
            calls: Calls::new(alloc),
        }
    }

    /// Makes the nth call of the sink fail, counted from 1. `Memory`: want of memory, and nothing is changed.
    pub fn fail_call(&mut self, n: u64) -> Result<(), Memory>
        ensures ok { OnOk result (self.new ≡ record self.old { calls = failing_call n self.old.calls }) }
        ensures refused { OnErr result (self.new ≡ self.old) }
    {
        self.calls.fail(n)
    }

    /// The finished rows.
    pub fn rows(&self) -> &[Row]
        ensures { result.now ≡ self.now.tree.rows }
    {
        &self.rows
    }

    /// The unfinished file.
    pub fn part(&self) -> Option<&Part>
        ensures { option_copied result ≡ self.now.tree.part }
    {
        self.part.as_ref()
    }
}

fn add_row(rows: &mut Vec<Row>, row: Row) -> Result<(), SinkError>
    ensures ok { OnOk result (rows.new.items ≡ rows.old.items ++ row ∷ []) }
    ensures full { OnErr result (rows.new.items ≡ rows.old.items) }
    ensures memory { IsErrOf result SinkError.Failed → ⊥ }
    ensures room { vec_len rows.old < vec_capacity rows.old → IsOk result }
{
    match rows.push(row) {
        Ok(()) => Ok(()),
        Err(_) => Err(SinkError::Memory),
    }
}

fn append(part: &mut Part, bytes: &[u8]) -> Result<(), SinkError>
    ensures ok { OnOk result (part.new ≡ longer bytes.now part.old) }
    ensures err { OnErr result (part.new ≡ part.old) }
    ensures memory { IsErrOf result SinkError.Failed → ⊥ }
{
    match part.bytes.append(bytes) {
        Ok(()) => Ok(()),
        Err(Memory) => Err(SinkError::Memory),
    }
}

fn append_zeros(part: &mut Part, count: u64) -> Result<(), SinkError>
    ensures ok { OnOk result (part.new ≡ longer (replicate count 0) part.old) }
    ensures err { OnErr result (part.new ≡ part.old) }
    ensures memory { IsErrOf result SinkError.Failed → ⊥ }
{
    match part.bytes.append_zeros(count) {
        Ok(()) => Ok(()),
        Err(Memory) => Err(SinkError::Memory),
    }
}

// A call that is made to fail changes nothing but the count of faults.
impl TreeSink for MemTree {
    ghost sink = { λ t. sink_of t.tree };

    ghost account = { λ t. account_of t.calls };

    ghost count_left = { λ t. calls_count_left t.calls };

    ghost sound = { λ t. sound_tree t.tree };

    ghost waits = { λ t. false };

    ghost settled = { λ t e. refl };

    fn start(&mut self, name: &str) -> Result<(), SinkError>
        requires { stage_of self.old.tree.rows self.old.tree.part ≡ NotStarted }
        ensures step { Steps (started name.now) (sink_of self.old.tree) (sink_of self.new.tree) result }
        ensures account { Counts (account_of self.old.calls) (account_of self.new.calls) result }
        ensures calls { CallsOnce self.old.calls self.new.calls result }
    {
        if self.calls.next_fails() {
            return Err(SinkError::Failed);
        }
        let Ok(name) = Text::new(self.alloc, name) else {
            return Err(SinkError::Memory);
        };
        add_row(&mut self.rows, Row::Start(name))
    }

    fn dir(&mut self, name: &str) -> Result<(), SinkError>
        requires between { stage_of self.old.tree.rows self.old.tree.part ≡ BetweenFiles }
        requires good { IsGoodName name.now }
        requires above { depth_of self.old.tree.rows < 512 }
        ensures step { Steps (entered name.now) (sink_of self.old.tree) (sink_of self.new.tree) result }
        ensures account { Counts (account_of self.old.calls) (account_of self.new.calls) result }
        ensures calls { CallsOnce self.old.calls self.new.calls result }
    {
        if self.calls.next_fails() {
            return Err(SinkError::Failed);
        }
        let Ok(name) = Text::new(self.alloc, name) else {
            return Err(SinkError::Memory);
        };
        add_row(&mut self.rows, Row::Dir(name))
    }

    fn up(&mut self) -> Result<(), SinkError>
        requires between { stage_of self.old.tree.rows self.old.tree.part ≡ BetweenFiles }
        requires below { 0 < depth_of self.old.tree.rows }
        ensures step { Steps left (sink_of self.old.tree) (sink_of self.new.tree) result }
        ensures account { Counts (account_of self.old.calls) (account_of self.new.calls) result }
        ensures calls { CallsOnce self.old.calls self.new.calls result }
    {
        if self.calls.next_fails() {
            return Err(SinkError::Failed);
        }
        add_row(&mut self.rows, Row::Up)
    }

    fn file(&mut self, name: &str) -> Result<(), SinkError>
        requires between { stage_of self.old.tree.rows self.old.tree.part ≡ BetweenFiles }
        requires good { IsGoodName name.now }
        ensures step { Steps (begun name.now) (sink_of self.old.tree) (sink_of self.new.tree) result }
        ensures account { Counts (account_of self.old.calls) (account_of self.new.calls) result }
        ensures calls { CallsOnce self.old.calls self.new.calls result }
    {
        if self.calls.next_fails() {
            return Err(SinkError::Failed);
        }
        let Ok(name) = Text::new(self.alloc, name) else {
            return Err(SinkError::Memory);
        };
        self.part = Some(Part {
            name,
            bytes: Bytes::new(self.alloc),
        });
        Ok(())
    }

    fn put(&mut self, bytes: &[u8]) -> Result<(), SinkError>
        requires { stage_of self.old.tree.rows self.old.tree.part ≡ InFile }
        ensures step { Grows bytes.now (sink_of self.old.tree) (sink_of self.new.tree) result }
        ensures refused { OnErr result (self.new.tree ≡ self.old.tree) }
        ensures account { Counts (account_of self.old.calls) (account_of self.new.calls) result }
        ensures calls { CallsOnce self.old.calls self.new.calls result }
    {
        if self.calls.next_fails() {
            return Err(SinkError::Failed);
        }
        match &mut self.part {
            Some(part) => append(part, bytes),
            None => unreachable!(),
        }
    }

    fn gap(&mut self, count: u64) -> Result<(), SinkError>
        requires { stage_of self.old.tree.rows self.old.tree.part ≡ InFile }
        ensures step { Grows (replicate count 0) (sink_of self.old.tree) (sink_of self.new.tree) result }
        ensures refused { OnErr result (self.new.tree ≡ self.old.tree) }
        ensures account { Counts (account_of self.old.calls) (account_of self.new.calls) result }
        ensures calls { CallsOnce self.old.calls self.new.calls result }
    {
        if self.calls.next_fails() {
            return Err(SinkError::Failed);
        }
        match &mut self.part {
            Some(part) => append_zeros(part, count),
            None => unreachable!(),
        }
    }

    fn done(&mut self) -> Result<(), SinkError>
        requires { stage_of self.old.tree.rows self.old.tree.part ≡ InFile }
        ensures step { Steps finished (sink_of self.old.tree) (sink_of self.new.tree) result }
        ensures account { Counts (account_of self.old.calls) (account_of self.new.calls) result }
        ensures calls { CallsOnce self.old.calls self.new.calls result }
    {
        if self.calls.next_fails() {
            return Err(SinkError::Failed);
        }
        let Ok(()) = self.rows.reserve(1) else {
            return Err(SinkError::Memory);
        };
        match self.part.take() {
            Some(part) => add_row(&mut self.rows, Row::File(part.name, part.bytes)),
            None => unreachable!(),
        }
    }

    // Nothing waits.
    fn flush(&mut self) -> Result<(), SinkError>
        ensures same { sink_of self.new.tree ≡ sink_of self.old.tree }
        ensures stored { OnOk result (false ≡ false) }
        ensures refused { IfErr result (λ error. error ≡ SinkError.Failed) }
        ensures account { Counts (account_of self.old.calls) (account_of self.new.calls) result }
        ensures calls { CallsOnce self.old.calls self.new.calls result }
    {
        if self.calls.next_fails() {
            return Err(SinkError::Failed);
        }
        Ok(())
    }
}
