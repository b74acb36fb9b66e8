// Salvages of volumes in memory.
ghost use Rattle.std.specs.Prelude.{◌≡◌, ◌<◌, IfOk, length};
ghost use Rattle.btr_rack.specs.Memory.{slots_of};
ghost use Rattle.btr_rack.specs.MemTree.{sink_of};
ghost use Rattle.btr_rack.specs.Sink.{NotStarted};

use btr_files::RestorePlan;
use btr_make::{RowVolume, row};
use btr_rack::{MemOut, MemRack, MemTree, Rack, Row};
use btr_salvage::{Salvaged, salvage};
use btr_volume::{Stop, Volume};
use std::alloc::{AllocError, Global};
use std::process::Abort;
use std::test::Fail;

/// The call of the sink and that of the output that fails, counted from 1; 0 is none.
#[derive(Clone, Copy)]
pub(super) struct Failing {
    pub(super) sink: u64,
    pub(super) out: u64,
}

pub(super) const NOTHING: Failing = Failing { sink: 0, out: 0 };

/// How a salvage ended, and how many slots of the volume were free then.
#[derive(Clone, Copy)]
struct Ended {
    answer: Result<Salvaged, Stop>,
    free: usize,
}

/// What came of a salvage: the answer, the text, the finished rows as lines, and the unfinished file as such a line.
#[derive(Drop)]
pub(super) struct Outcome {
    pub(super) answer: Result<Salvaged, Stop>,
    pub(super) text: Vec<u8>,
    pub(super) rows: Vec<u8>,
    pub(super) part: Vec<u8>,
}

/// Some images of a small volume, opened.
pub(super) fn small(alloc: Global, which: RowVolume, names: &[&str]) -> Result<MemRack, Fail> {
    let mut rack = row(alloc, which)?;
    for name in names {
        rack.open(name, false)?;
    }
    Ok(rack)
}

// A sink whose call of this number fails.
fn sink_in(alloc: Global, failing: u64) -> Result<MemTree, AllocError>
    ensures { IfOk result (λ tree. (sink_of tree.tree).stage ≡ NotStarted) }
{
    let mut tree = MemTree::new(alloc);
    match tree.fail_call(failing) {
        Ok(()) => Ok(tree),
        Err(_) => Err(AllocError),
    }
}

// Salvages tree 5 from the open images of a rack.
fn end_of(
    alloc: Global,
    verbose: bool,
    rack: &mut MemRack,
    tree: &mut MemTree,
    text: &mut MemOut,
) -> Option<Ended>
    requires some { 0 < length (slots_of rack.old) }
    requires fresh { (sink_of tree.old.tree).stage ≡ NotStarted }
{
    let plan = RestorePlan {
        root: 5,
        snapshots: false,
        verbose,
        dry: false,
    };
    let Ok(mut volume) = Volume::open(alloc, rack) else {
        return None;
    };
    let answer = salvage(alloc, &plan, "out", rack, &mut volume, tree, text);
    Some(Ended {
        answer,
        free: volume.store.free(),
    })
}

/// Salvages tree 5 of a volume; `None` where it doesn't open. All slots of the volume are free afterwards.
pub(super) fn attempt(
    rt: &impl Abort,
    alloc: Global,
    verbose: bool,
    rack: &mut MemRack,
    failing: Failing,
) -> Result<Option<Outcome>, Fail> {
    if rack.count() == 0 {
        return Err("no image")?;
    }
    let mut tree = sink_in(alloc, failing.sink)?;
    let mut out = MemOut::new(alloc);
    out.fail_call(failing.out)?;
    let Some(ended) = end_of(alloc, verbose, rack, &mut tree, &mut out) else {
        return Ok(None);
    };
    assert_eq!(rt; ended.free, 24);
    Ok(Some(told(alloc, ended.answer, &tree, &out)?))
}

/// The same of a volume that opens.
pub(super) fn salvaged_from(
    rt: &impl Abort,
    alloc: Global,
    rack: &mut MemRack,
    failing: Failing,
) -> Result<Outcome, Fail> {
    match attempt(rt, alloc, false, rack, failing)? {
        Some(came) => Ok(came),
        None => Err("the volume doesn't open")?,
    }
}

// The finished rows of a sink as lines.
fn rows_of(alloc: Global, tree: &MemTree) -> Result<Vec<u8>, AllocError> {
    let mut rows = Vec::new(alloc);
    for row in tree.rows() {
        show(row, &mut rows)?;
    }
    Ok(rows)
}

// The unfinished file of a sink as a line, if there is one.
fn part_of(alloc: Global, tree: &MemTree) -> Result<Vec<u8>, AllocError> {
    let mut shown = Vec::new(alloc);
    if let Some(part) = tree.part() {
        show_file(part.name.as_str(), part.bytes.as_slice(), &mut shown)?;
    }
    Ok(shown)
}

// What stands in a sink and in an output.
fn told(
    alloc: Global,
    answer: Result<Salvaged, Stop>,
    tree: &MemTree,
    out: &MemOut,
) -> Result<Outcome, AllocError> {
    let mut text = Vec::new(alloc);
    text.extend_from_slice(out.text())?;
    Ok(Outcome {
        answer,
        text,
        rows: rows_of(alloc, tree)?,
        part: part_of(alloc, tree)?,
    })
}

// A row as a line: the name, or `..` behind a directory, and behind a file's name a space and its bytes.
fn show(row: &Row, shown: &mut Vec<u8>) -> Result<(), AllocError> {
    match row {
        Row::Start(name) | Row::Dir(name) => {
            shown.extend_from_slice(name.as_str().as_bytes())?;
            shown.push(b'\n')?;
        }
        Row::Up => shown.extend_from_slice(b"..\n")?,
        Row::File(name, bytes) => show_file(name.as_str(), bytes.as_slice(), shown)?,
    }
    Ok(())
}

fn show_file(name: &str, bytes: &[u8], shown: &mut Vec<u8>) -> Result<(), AllocError> {
    shown.extend_from_slice(name.as_bytes())?;
    shown.push(b' ')?;
    shown.extend_from_slice(bytes)?;
    shown.push(b'\n')?;
    Ok(())
}

/// The rows of the five files of the small volumes.
pub(super) fn five_files(alloc: Global) -> Result<Vec<u8>, AllocError> {
    let mut rows = Vec::new(alloc);
    rows.extend_from_slice(FOUR_FILES)?;
    rows.extend_from_slice(b"a ")?;
    rows.extend_from_slice(&[0x41; 4096])?;
    rows.extend_from_slice(&[0; 4096])?;
    rows.extend_from_slice(&[0x42; 1808])?;
    rows.push(b'\n')?;
    Ok(rows)
}

/// The rows of the four of them that are small.
pub(super) const FOUR_FILES: &[u8] = b"out\ne \ni x\nh1 hello\nh2 hello\n";
