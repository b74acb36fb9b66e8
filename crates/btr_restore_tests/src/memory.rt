// Restores of small volumes into memory.
ghost use Rattle.std.specs.Prelude.{◌≡◌, ◌<◌, IfOk, length};
ghost use Rattle.btr_rack.specs.Memory.{slots_of};
ghost use Rattle.btr_rack.specs.MemTree.{sink_of};
ghost use Rattle.btr_rack.specs.Sink.{NotStarted};

use btr_files::{Counts, RestorePlan};
use btr_make::{RowVolume, row};
use btr_rack::{MemOut, MemRack, MemTree, Rack, Row};
use btr_restore::restore;
use btr_volume::{Stop, Volume};
use std::alloc::{AllocError, Global};
use std::process::Abort;
use std::test::Fail;

/// Tree 5 whole, with the counts alone in the text.
pub(super) const ALL: RestorePlan = RestorePlan {
    root: 5,
    snapshots: false,
    verbose: false,
    dry: false,
};

/// What fails: the call of the sink and that of the output of a number, counted from 1, and the reads of a range of the first image, by its place and its
/// length; 0 is none.
#[derive(Clone, Copy)]
pub(super) struct Failing {
    pub(super) sink: u64,
    pub(super) out: u64,
    pub(super) read: (u64, u64),
}

pub(super) const NOTHING: Failing = Failing {
    sink: 0,
    out: 0,
    read: (0, 0),
};

/// A restore of a small volume by some of its images.
#[derive(Clone, Copy)]
pub(super) struct Job {
    pub(super) which: RowVolume,
    pub(super) names: &'static [&'static str],
    pub(super) plan: RestorePlan,
    pub(super) failing: Failing,
}

/// That of the first one.
pub(super) const V1: Job = Job {
    which: RowVolume::V1,
    names: &["a"],
    plan: ALL,
    failing: NOTHING,
};

/// How a restore ended, and how many slots of the volume were free then.
#[derive(Clone, Copy)]
struct Ended {
    answer: Result<Counts, Stop>,
    free: usize,
}

/// What came of a restore: the answer, the text, the finished rows as lines, and the unfinished file as such a line.
#[derive(Drop)]
pub(super) struct Restored {
    pub(super) answer: Result<Counts, Stop>,
    pub(super) text: Vec<u8>,
    pub(super) rows: Vec<u8>,
    pub(super) part: Vec<u8>,
}

// The images of a job, opened.
fn opened(alloc: Global, job: &Job) -> Result<MemRack, Fail> {
    let mut rack = row(alloc, job.which)?;
    for name in job.names {
        rack.open(name, false)?;
    }
    let (off, len) = job.failing.read;
    if len > 0 {
        rack.fail_range("a", off, len)?;
    }
    Ok(rack)
}

// A sink whose call of this number fails.
fn sink_in(alloc: Global, failing: u64) -> Result<MemTree, AllocError>
    ensures { IfOk result (λ tree. (sink_of tree.tree).stage ≡ NotStarted) }
{
    let mut tree = MemTree::new(alloc);
    match tree.fail_call(failing) {
        Ok(()) => Ok(tree),
        Err(_) => Err(AllocError),
    }
}

// Restores from the open images of a rack.
fn end_of(
    alloc: Global,
    plan: &RestorePlan,
    rack: &mut MemRack,
    tree: &mut MemTree,
    text: &mut MemOut,
) -> Option<Ended>
    requires some { 0 < length (slots_of rack.old) }
    requires fresh { (sink_of tree.old.tree).stage ≡ NotStarted }
{
    let Ok(mut volume) = Volume::open(alloc, rack) else {
        return None;
    };
    let answer = restore(alloc, plan, "out", rack, &mut volume, tree, text);
    Some(Ended {
        answer,
        free: volume.store.free(),
    })
}

/// Restores a small volume. All slots of the volume are free afterwards.
pub(super) fn outcome(rt: &impl Abort, alloc: Global, job: &Job) -> Result<Restored, Fail> {
    let mut rack = opened(alloc, job)?;
    if rack.count() == 0 {
        return Err("no image")?;
    }
    let mut tree = sink_in(alloc, job.failing.sink)?;
    let mut out = MemOut::new(alloc);
    out.fail_call(job.failing.out)?;
    let Some(ended) = end_of(alloc, &job.plan, &mut rack, &mut tree, &mut out) else {
        return Err("the volume doesn't open")?;
    };
    assert!(rt; ended.free == 24);
    Ok(told(alloc, ended.answer, &tree, &out)?)
}

// The finished rows of a sink as lines.
fn rows_of(alloc: Global, tree: &MemTree) -> Result<Vec<u8>, AllocError> {
    let mut rows = Vec::new(alloc);
    for row in tree.rows() {
        show(row, &mut rows)?;
    }
    Ok(rows)
}

// The unfinished file of a sink as a line, if there is one.
fn part_of(alloc: Global, tree: &MemTree) -> Result<Vec<u8>, AllocError> {
    let mut shown = Vec::new(alloc);
    if let Some(part) = tree.part() {
        show_file(part.name.as_str(), part.bytes.as_slice(), &mut shown)?;
    }
    Ok(shown)
}

// What stands in a sink and in an output.
fn told(
    alloc: Global,
    answer: Result<Counts, Stop>,
    tree: &MemTree,
    out: &MemOut,
) -> Result<Restored, AllocError> {
    let mut text = Vec::new(alloc);
    text.extend_from_slice(out.text())?;
    Ok(Restored {
        answer,
        text,
        rows: rows_of(alloc, tree)?,
        part: part_of(alloc, tree)?,
    })
}

// A row as a line: the name, or `..` behind a directory, and behind a file's name a space and its bytes.
fn show(row: &Row, shown: &mut Vec<u8>) -> Result<(), AllocError> {
    match row {
        Row::Start(name) | Row::Dir(name) => {
            shown.extend_from_slice(name.as_str().as_bytes())?;
            shown.push(b'\n')?;
        }
        Row::Up => shown.extend_from_slice(b"..\n")?,
        Row::File(name, bytes) => show_file(name.as_str(), bytes.as_slice(), shown)?,
    }
    Ok(())
}

fn show_file(name: &str, bytes: &[u8], shown: &mut Vec<u8>) -> Result<(), AllocError> {
    shown.extend_from_slice(name.as_bytes())?;
    shown.push(b' ')?;
    shown.extend_from_slice(bytes)?;
    shown.push(b'\n')?;
    Ok(())
}

/// The rows of the five files of the small volumes.
pub(super) fn five_files(alloc: Global) -> Result<Vec<u8>, AllocError> {
    let mut rows = Vec::new(alloc);
    rows.extend_from_slice(b"out\ne \ni x\nh1 hello\nh2 hello\na ")?;
    rows.extend_from_slice(&[0x41; 4096])?;
    rows.extend_from_slice(&[0; 4096])?;
    rows.extend_from_slice(&[0x42; 1808])?;
    rows.push(b'\n')?;
    Ok(rows)
}
