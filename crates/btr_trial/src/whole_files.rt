// A sink in memory to which a file's bytes are put at once.
ghost use Rattle.std.specs.Prelude.{◌≡◌, ◌<◌, ◌++◌, false, refl, replicate, OnOk, OnErr, IfErr};
ghost use Rattle.btr_rack.specs.Calls.{account_of};
ghost use Rattle.btr_rack.specs.CallsLaws.{calls_count_left};
ghost use Rattle.btr_rack.specs.MemTree.{empty_tree, sink_of};
ghost use Rattle.btr_rack.specs.MemTreeLaws.{sound_tree};

use btr_base::Memory;
use btr_rack::{MemTree, Row, SinkError, TreeSink};
use std::alloc::Global;
use std::marker::Model;

/// A sink in memory, in which nothing is to fail. The bytes of a file are gathered here, and put to a `MemTree` by one call once the file is
/// done: so it takes as much memory as it has bytes, where one that grows put by put takes up to twice that.
#[derive(Drop)]
pub(crate) struct WholeFiles {
    tree: MemTree,
    // Those bytes of the unfinished file that weren't put yet.
    bytes: Vec<u8>,
}

impl Model for WholeFiles {
    ghost use Rattle.btr_rack.specs.MemTree.{MemoryTree};
    ghost use Rattle.btr_rack.specs.Sink.{with_bytes};

    ghost Value = { MemoryTree };

    ghost view = { λ files. record files.tree { tree = with_bytes files.bytes.items files.tree.tree } };
}

impl WholeFiles {
    /// A sink that isn't started.
    pub(crate) fn new(alloc: Global) -> WholeFiles
        ensures { result ≡ empty_tree }
    {
        WholeFiles {
            tree: MemTree::new(alloc),
            bytes: Vec::new(alloc),
        }
    }

    /// The finished rows.
    pub(crate) fn rows(&self) -> &[Row]
        ensures { result.now ≡ self.now.tree.rows }
    {
        self.tree.rows()
    }
}

// Appends bytes.
fn append(gathered: &mut Vec<u8>, bytes: &[u8]) -> Result<(), SinkError>
    ensures ok { OnOk result (gathered.new.items ≡ gathered.old.items ++ bytes.now) }
    ensures err { OnErr result (gathered.new.items ≡ gathered.old.items) }
    ensures memory { IfErr result (λ error. error ≡ SinkError.Memory) }
{
    gathered
        .extend_from_slice(bytes)
        .map_err(|_| SinkError::Memory)
}

// Appends so many zeros.
fn append_zeros(gathered: &mut Vec<u8>, count: u64) -> Result<(), SinkError>
    ensures ok { OnOk result (gathered.new.items ≡ gathered.old.items ++ replicate count 0) }
    ensures err { OnErr result (gathered.new.items ≡ gathered.old.items) }
    ensures memory { IfErr result (λ error. error ≡ SinkError.Memory) }
{
    match gathered.len().checked_add(count as usize) {
        Some(len) => gathered.resize(len, 0).map_err(|_| SinkError::Memory),
        None => Err(SinkError::Memory),
    }
}

impl TreeSink for WholeFiles {
    ghost sink = { λ files. sink_of files.tree };

    ghost account = { λ files. account_of files.calls };

    ghost count_left = { λ files. calls_count_left files.calls };

    ghost sound = { λ files. sound_tree files.tree };

    ghost waits = { λ files. false };

    ghost settled = { λ files e. refl };

    fn start(&mut self, name: &str) -> Result<(), SinkError> {
        self.tree.start(name)
    }

    fn dir(&mut self, name: &str) -> Result<(), SinkError> {
        self.tree.dir(name)
    }

    fn up(&mut self) -> Result<(), SinkError> {
        self.tree.up()
    }

    fn file(&mut self, name: &str) -> Result<(), SinkError> {
        self.tree.file(name)?;
        self.bytes.clear();
        Ok(())
    }

    fn put(&mut self, bytes: &[u8]) -> Result<(), SinkError> {
        append(&mut self.bytes, bytes)
    }

    fn gap(&mut self, count: u64) -> Result<(), SinkError> {
        append_zeros(&mut self.bytes, count)
    }

    fn done(&mut self) -> Result<(), SinkError> {
        if !self.bytes.is_empty() {
            self.tree.put(self.bytes.as_slice())?;
            self.bytes.clear();
        }
        self.tree.done()
    }

    // Nothing waits.
    fn flush(&mut self) -> Result<(), SinkError> {
        self.tree.flush()
    }
}
