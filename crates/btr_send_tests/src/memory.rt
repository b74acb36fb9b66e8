// Sends of volumes in memory.
ghost use Rattle.std.specs.Prelude.{◌≡◌, ◌≤◌, ◌<◌, IfOk, length};
ghost use Rattle.btr_rack.specs.Memory.{seen_of, slots_of};
ghost use Rattle.btr_rack.specs.MemTree.{sink_of};
ghost use Rattle.btr_rack.specs.Sink.{NotStarted};
ghost use Rattle.btr_read.specs.Serves.{Serves};
ghost use Rattle.btr_read.specs.Store.{free_count};

use btr_files::Counts;
use btr_make::{RowVolume, row};
use btr_rack::{MemOut, MemRack, MemTree, Rack, Row};
use btr_send::{SendPlan, StreamFile, send};
use btr_volume::{Stop, Volume};
use std::alloc::{AllocError, Global};
use std::process::Abort;
use std::test::Fail;

/// The call of the sink and that of the output that fails, counted from 1; 0 is none.
#[derive(Clone, Copy)]
pub(super) struct Failing {
    pub(super) sink: u64,
    pub(super) out: u64,
}

pub(super) const NOTHING: Failing = Failing { sink: 0, out: 0 };

/// What came of a send: the answer, the text, how many steps were finished in the destination, and the bytes of its file `v`, finished or not.
#[derive(Drop)]
pub(super) struct Outcome {
    pub(super) answer: Result<Counts, Stop>,
    pub(super) text: Vec<u8>,
    pub(super) rows: usize,
    pub(super) whole: Vec<u8>,
    pub(super) part: Vec<u8>,
}

/// So many directories, files and skipped entries.
pub(super) fn counts(dirs: u64, files: u64, skipped: u64) -> Counts {
    Counts {
        dirs,
        files,
        skipped,
    }
}

/// Some images of a small volume, opened.
pub(super) fn small(alloc: Global, which: RowVolume, names: &[&str]) -> Result<MemRack, Fail> {
    let mut rack = row(alloc, which)?;
    for name in names {
        rack.open(name, false)?;
    }
    Ok(rack)
}

// A sink whose call of this number fails.
fn sink_in(alloc: Global, failing: u64) -> Result<MemTree, AllocError>
    ensures { IfOk result (λ tree. (sink_of tree.tree).stage ≡ NotStarted) }
{
    let mut tree = MemTree::new(alloc);
    match tree.fail_call(failing) {
        Ok(()) => Ok(tree),
        Err(_) => Err(AllocError),
    }
}

// What stands in a sink and in an output.
fn told(
    alloc: Global,
    answer: Result<Counts, Stop>,
    tree: &MemTree,
    out: &MemOut,
) -> Result<Outcome, AllocError> {
    let mut told = Outcome {
        answer,
        text: Vec::new(alloc),
        rows: tree.rows().len(),
        whole: Vec::new(alloc),
        part: Vec::new(alloc),
    };
    told.text.extend_from_slice(out.text())?;
    for row in tree.rows() {
        if let Row::File(name, bytes) = row
            && name.as_str() == "v"
        {
            told.whole.extend_from_slice(bytes.as_slice())?;
        }
    }
    if let Some(part) = tree.part()
        && part.name.as_str() == "v"
    {
        told.part.extend_from_slice(part.bytes.as_slice())?;
    }
    Ok(told)
}

/// Sends a subvolume of a volume into the file `v`. All slots of the volume are free afterwards.
pub(super) fn sent_by(
    rt: &impl Abort,
    alloc: Global,
    root: u64,
    rack: &mut MemRack,
    vol: &mut Volume,
    failing: Failing,
) -> Result<Outcome, Fail>
    requires serves { Serves (seen_of rack.old) vol.old.store }
    requires free { free_count vol.old.store ≡ 24 }
{
    let mut tree = sink_in(alloc, failing.sink)?;
    let mut out = MemOut::new(alloc);
    out.fail_call(failing.out)?;
    let plan = SendPlan { root };
    let file = StreamFile {
        dest: "out",
        name: "v",
    };
    let answer = send(alloc, &plan, &file, rack, vol, &mut tree, &mut out);
    assert_eq!(rt; vol.store.free(), 24);
    Ok(told(alloc, answer, &tree, &out)?)
}

/// The same of the open images of a rack; `None` where no volume opens.
pub(super) fn attempt(
    rt: &impl Abort,
    alloc: Global,
    root: u64,
    rack: &mut MemRack,
    failing: Failing,
) -> Result<Option<Outcome>, Fail> {
    if rack.count() == 0 {
        return Err("no image")?;
    }
    let Ok(mut volume) = Volume::open(alloc, rack) else {
        return Ok(None);
    };
    Ok(Some(sent_by(rt, alloc, root, rack, &mut volume, failing)?))
}

/// The same of a volume that opens.
pub(super) fn sent_from(
    rt: &impl Abort,
    alloc: Global,
    root: u64,
    rack: &mut MemRack,
    failing: Failing,
) -> Result<Outcome, Fail> {
    match attempt(rt, alloc, root, rack, failing)? {
        Some(came) => Ok(came),
        None => Err("the volume doesn't open")?,
    }
}
