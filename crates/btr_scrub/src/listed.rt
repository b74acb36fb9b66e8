// The checked blocks and the sectors without a checksum, listed in memory.
ghost use Rattle.std.specs.Prelude.{◌≡◌, ◌+◌, ◌*◌, ◌<◌, ◌^◌, ◌++◌, length, take, IsTrue, OnOk};
ghost use Rattle.btr_base.specs.Sum.{sum_size};
ghost use Rattle.btr_scrub.specs.Listed.{IsExtended, IsLonger};

use crate::pages::Pages;
use crate::run::{Run, RunKind, TreeMark};
use btr_base::{Memory, Sum, SumKind};
use btr_read::Want;
use std::alloc::Global;
use std::marker::Model;

/// The checked blocks of a filesystem in their order (`docs/FORMAT.md`, "Checked blocks"), and between them the sectors without a checksum. Sectors
/// of data that follow each other are one run of 16 bytes, and each has its checksum of 4, 8 or 32 bytes, if it has one; a tree block has 16 bytes
/// beside its run.
#[derive(Drop)]
pub(crate) struct Listed {
    kind: SumKind,
    runs: Pages<Run>,
    // The run that comes last, which may still grow.
    last: Option<Run>,
    sums: Pages<u8>,
    marks: Pages<TreeMark>,
}

impl Model for Listed {
    ghost use Rattle.std.specs.Prelude.{◌++◌};
    ghost use Rattle.std.specs.Option.{option_to_list};
    ghost use Rattle.btr_scrub.specs.Listed.{KeptBlocks};

    ghost Value = { KeptBlocks };

    ghost view = { λ s. record { kind = s.kind; runs = s.runs ++ option_to_list s.last; sums = s.sums; marks = s.marks } };
}

// Whether an address is that behind so many sectors of a run, which can have `more`.
fn follows(run: Run, count: u32, addr: u64, more: u32) -> bool
    ensures next { IsTrue result → addr ≡ run.addr + count * 4096 }
    ensures room { IsTrue result → count + more < 2 ^ 32 }
{
    count <= u32::MAX - more && addr >= run.addr && addr - run.addr == u64::from(count) * 4096
}

// The last run with one more sector that has a checksum, if the address is the next of its sectors.
fn lengthened(last: Option<Run>, addr: u64) -> Option<Run>
    ensures { IsLonger last addr result }
{
    let run = last?;
    let RunKind::Sectors(count) = run.kind else {
        return None;
    };
    if !follows(run, count, addr, 1) {
        return None;
    }
    Some(Run {
        addr: run.addr,
        kind: RunKind::Sectors(count + 1),
    })
}

// The same with `more` that have none.
fn extended(last: Option<Run>, addr: u64, more: u32) -> Option<Run>
    ensures { IsExtended last addr more result }
{
    let run = last?;
    let RunKind::Unsummed(count) = run.kind else {
        return None;
    };
    if !follows(run, count, addr, more) {
        return None;
    }
    Some(Run {
        addr: run.addr,
        kind: RunKind::Unsummed(count + more),
    })
}

// Puts the bytes of a checksum behind the others.
fn push_sum(sums: &mut Pages<u8>, kind: SumKind, sum: &Sum) -> Result<(), Memory>
    ensures pushed { OnOk result (sums.new ≡ sums.old ++ take (sum_size kind) sum.now.bytes) }
    ensures long { length sum.now.bytes ≡ 32 }
{
    for i in 0..kind.size() {
        sums.push(sum.bytes[i])?;
    }
    Ok(())
}

impl Listed {
    ghost use Rattle.std.specs.Prelude.{◌≡◌, ◌+◌, ◌*◌, ◌<◌, ◌≤◌, ◌^◌, [], drop, length};
    ghost use Rattle.std.specs.Prelude.{slice_get, OnOk};
    ghost use Rattle.btr_base.specs.Sum.{stored_sum, sum_size};
    ghost use Rattle.btr_scrub.specs.Listed.{AddsAll, AddsTo, Begins, IsList, IsOfKind};
    ghost use Rattle.btr_scrub.specs.Listed.{kept_wants, plains_from};
    ghost use Rattle.btr_read.specs.declared.want.Want.TheVariants.{Plain, Tree, Sector};

    /// A list of no blocks, for checksums of this kind.
    pub(crate) fn new(alloc: Global, kind: SumKind) -> Listed
        ensures kind { result.kind ≡ kind }
        ensures is_list { IsList result }
        ensures wants { kept_wants result ≡ [] }
    {
        Listed {
            kind,
            runs: Pages::new(alloc),
            last: None,
            sums: Pages::new(alloc),
            marks: Pages::new(alloc),
        }
    }

    /// A list of no blocks, for checksums of the same kind.
    pub(crate) fn emptied(&self) -> Listed
        ensures kind { result.kind ≡ self.now.kind }
        ensures is_list { IsList result }
        ensures wants { kept_wants result ≡ [] }
    {
        Listed::new(self.runs.alloc(), self.kind)
    }

    // Puts a run behind the others.
    fn begin(&mut self, run: Run) -> Result<(), Memory>
        ensures { OnOk result (Begins self.old self.new run) }
    {
        if let Some(last) = self.last {
            self.runs.push(last)?;
        }
        self.last = Some(run);
        Ok(())
    }

    /// Puts a tree block behind the others. After `Memory` the list isn't used again.
    pub(crate) fn push_tree(&mut self, addr: u64, generation: u64, level: u8) -> Result<(), Memory>
        requires { IsList self.old }
        ensures { OnOk result (AddsTo self.old self.new (Tree addr generation level)) }
    {
        self.begin(Run {
            addr,
            kind: RunKind::TreeBlock,
        })?;
        self.marks.push(TreeMark { generation, level })
    }

    /// Puts a sector of data with its checksum behind the others. After `Memory` the list isn't used again.
    pub(crate) fn push_sector(&mut self, addr: u64, sum: &Sum) -> Result<(), Memory>
        requires { IsList self.old }
        ensures added { OnOk result (AddsTo self.old self.new (Sector addr (stored_sum self.old.kind sum.now.bytes))) }
        ensures long { OnOk result (length sum.now.bytes ≡ 32) }
    {
        match lengthened(self.last, addr) {
            Some(run) => {
                self.last = Some(run);
                push_sum(&mut self.sums, self.kind, sum)
            }
            None => {
                self.begin(Run {
                    addr,
                    kind: RunKind::Sectors(1),
                })?;
                push_sum(&mut self.sums, self.kind, sum)
            }
        }
    }

    /// Puts so many sectors of data that have no checksum behind the others, which follow each
    /// other from an address on. After `Memory` the list isn't used again.
    pub(crate) fn push_plains(&mut self, addr: u64, count: u32) -> Result<(), Memory>
        requires is_list { IsList self.old }
        requires some { 1 ≤ count }
        requires range { addr + count * 4096 < 2 ^ 64 }
        ensures { OnOk result (AddsAll self.old self.new (plains_from addr count)) }
    {
        match extended(self.last, addr, count) {
            Some(run) => {
                self.last = Some(run);
                Ok(())
            }
            None => self.begin(Run {
                addr,
                kind: RunKind::Unsummed(count),
            }),
        }
    }

    /// Puts a block of another list, whose checksums are of the same kind, behind the others. After
    /// `Memory` the list isn't used again.
    pub(crate) fn push(&mut self, want: &Want) -> Result<(), Memory>
        requires is_list { IsList self.old }
        requires of_kind { IsOfKind self.old.kind want.now }
        ensures { OnOk result (AddsTo self.old self.new want.now) }
    {
        match want {
            Want::Tree {
                addr,
                generation,
                level,
            } => self.push_tree(*addr, *generation, *level),
            Want::Sector { addr, sum } => self.push_sector(*addr, sum),
            Want::Plain { addr } => self.push_plains(*addr, 1),
            Want::Block { .. } => unreachable!(),
        }
    }

    /// The run of a number, if there is one.
    pub(crate) fn run_at(&self, i: usize) -> Option<Run>
        ensures run { result ≡ slice_get self.now.runs i }
        ensures few { length self.now.runs ≤ 2 ^ 63 }
    {
        let count = self.runs.len();
        if i < count {
            self.runs.get(i)
        } else if i == count {
            self.last
        } else {
            None
        }
    }

    /// The mark of a number, if there is one.
    pub(crate) fn mark_at(&self, i: usize) -> Option<TreeMark>
        ensures mark { result ≡ slice_get self.now.marks i }
        ensures few { length self.now.marks < 2 ^ 63 }
    {
        self.marks.get(i)
    }

    /// The checksum whose bytes stand at a place.
    pub(crate) fn sum_at(&self, at: usize) -> Sum
        requires { at + sum_size self.now.kind ≤ length self.now.sums }
        ensures sum { result ≡ stored_sum self.now.kind (drop at self.now.sums) }
        ensures few { length self.now.sums < 2 ^ 63 }
    {
        let mut bytes = [0; 32];
        self.sums.copy_out(at, &mut bytes[..self.kind.size()]);
        Sum::read(self.kind, &bytes)
    }

    /// The kind of the checksums.
    pub(crate) fn kind(&self) -> SumKind
        ensures { result ≡ self.now.kind }
    {
        self.kind
    }
}
