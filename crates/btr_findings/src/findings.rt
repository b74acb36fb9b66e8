// Findings as a list.
ghost use Rattle.std.specs.Prelude.{◌≡◌, ◌+◌, ◌<◌, ◌^◌, ◌++◌, drop, length, slice_get, IfOk};
ghost use Rattle.std.specs.List.Sorted.{IsStrictlySortedBy, IsSortedByKey};
ghost use Rattle.btr_findings.specs.Findings.{finding_cmp, in_order};
ghost use Rattle.btr_findings.specs.Runs.{each_once, met_by, no_run, reaching, runs_left, sector_at, step_of, without, AreKept, IsSettled};
ghost use Rattle.btr_findings.specs.Sectors.{runs_findings, AreRunsWithin, IsRunWithin};

use crate::sector_run::SectorRun;
use crate::{Finding, SectorRule, push};
use btr_base::Memory;
use std::alloc::Global;
use std::cmp::Ordering;
use std::marker::Model;

/// Findings in ascending order, which are taken from the front. The sectors of a run are no list in memory.
#[derive(Drop)]
pub struct Findings {
    single: Vec<Finding>,
    runs: Vec<SectorRun>,
    at: usize,
    place: RunPlace,
}

/// What is taken from the front: a finding, and whether it stands there as a single one and on a sector.
#[derive(Clone, Copy)]
pub(crate) struct Step {
    pub(crate) finding: Option<Finding>,
    pub(crate) single: bool,
    pub(crate) line: bool,
}

/// A run, and how many of its sectors are done.
#[derive(Clone, Copy)]
pub(crate) struct RunPlace {
    pub(crate) run: usize,
    pub(crate) done: u64,
}

impl Model for Findings {
    ghost use Rattle.std.specs.Prelude.{List, drop, ◌++◌};
    ghost use Rattle.btr_findings.specs.declared.finding.Finding.{Finding};
    ghost use Rattle.btr_findings.specs.Findings.{in_order};
    ghost use Rattle.btr_findings.specs.Runs.{runs_left, AreListed};

    ghost Value = { List Finding };

    ghost view = { λ all. in_order (drop all.at all.single.items ++ runs_left (drop all.place.run all.runs.items) all.place.done) };

    ghost invariant = { λ all. AreListed (drop all.at all.single.items) (runs_left (drop all.place.run all.runs.items) all.place.done) all.runs.items };
}

impl Findings {
    ghost use Rattle.std.specs.Prelude.{◌<◌, ◌++◌, ◌^◌, length, IfOk, ◌≡◌};
    ghost use Rattle.std.specs.List.Sorted.{IsStrictlySortedBy};
    ghost use Rattle.btr_findings.specs.Findings.{finding_cmp, in_order, TakesFirst};
    ghost use Rattle.btr_findings.specs.Runs.{AreKept};
    ghost use Rattle.btr_findings.specs.Sectors.{runs_findings};

    /// Single findings, which ascend, and those on runs. `Memory`: there are 2^64 findings or more.
    pub(crate) fn of(single: Vec<Finding>, mut runs: Vec<SectorRun>) -> Result<Findings, Memory>
        requires single { IsStrictlySortedBy finding_cmp single.items }
        requires runs { AreKept runs.items }
        ensures { IfOk result (λ all. all ≡ in_order (single.items ++ runs_findings runs.items)) }
    {
        runs.sort_unstable_by_key(|run| run.rule.finding(run.first));
        take_once(&mut runs);
        are_few(single.as_slice(), runs.as_slice())?;
        Ok(Findings {
            single,
            runs,
            at: 0,
            place: RunPlace { run: 0, done: 0 },
        })
    }

    /// There are fewer than 2^64 findings. This function is the law: its contract says it, and its body is empty.
    pub fn few_law(&self)
        ensures { length self.now < 2 ^ 64 }
    {
        let _at = self.at;
    }

    /// All that are left as a list, which takes the memory of each. `Memory`: there is none.
    pub fn to_vec(mut self, alloc: Global) -> Result<Vec<Finding>, Memory>
        ensures { IfOk result (λ list. list.items ≡ self) }
    {
        let mut list = Vec::new(alloc);
        while let Some(finding) = self.next() {
            push(&mut list, finding)?;
        }
        Ok(list)
    }

    /// Takes the first finding that is left.
    pub fn next(&mut self) -> Option<Finding>
        ensures { TakesFirst self.old self.new result }
    {
        self.place = settled(self.runs.as_slice(), self.place);
        let single = single_at(self.single.as_slice(), self.at);
        let line = line_at(self.runs.as_slice(), self.place);
        let step = step_of(single, line);
        self.at += usize::from(step.single);
        self.place.done += u64::from(step.line);
        step.finding
    }
}

// How many sectors of a run an earlier one has.
fn met_by(earlier: &SectorRun, run: &SectorRun) -> u64
    requires { IsRunWithin earlier.now }
    ensures { result ≡ met_by earlier.now run.now }
{
    if !earlier.rule.is(run.rule) {
        return 0;
    }
    let end = earlier.first + earlier.count;
    run.count.min(end.saturating_sub(run.first))
}

// A run without these.
fn without(earlier: &SectorRun, run: &SectorRun) -> SectorRun
    requires earlier { IsRunWithin earlier.now }
    requires run { IsRunWithin run.now }
    ensures { result ≡ without earlier.now run.now }
{
    let met = met_by(earlier, run);
    SectorRun {
        rule: run.rule,
        first: run.first + met,
        count: run.count - met,
    }
}

// A run as far as it or an earlier one of its rule reaches.
fn reaching(earlier: &SectorRun, run: &SectorRun) -> SectorRun
    requires { IsRunWithin earlier.now }
    ensures { result ≡ reaching earlier.now run.now }
{
    if !earlier.rule.is(run.rule) {
        return *run;
    }
    let end = earlier.first + earlier.count;
    SectorRun {
        rule: run.rule,
        first: run.first,
        count: run.count.max(end.saturating_sub(run.first)),
    }
}

// Leaves each sector of some runs to the first that has it.
fn take_once(runs: &mut [SectorRun])
    requires { AreKept runs.old }
    ensures { runs.new ≡ each_once no_run runs.old }
{
    let mut last = SectorRun {
        rule: SectorRule::Missing { tree: 0, inode: 0 },
        first: 0,
        count: 0,
    };
    for i in 0..runs.len() {
        let run = runs[i];
        runs[i] = without(&last, &run);
        last = reaching(&last, &run);
    }
}

// Whether there are fewer than 2^64 findings.
fn are_few(single: &[Finding], runs: &[SectorRun]) -> Result<(), Memory>
    ensures { IfOk result (λ few. length single.now + length (runs_findings runs.now) < 2 ^ 64) }
{
    let mut count = single.len() as u64;
    for run in runs {
        let Some(more) = count.checked_add(run.count) else {
            return Err(Memory);
        };
        count = more;
    }
    Ok(())
}

// The same place, where a run that is done is left for the next.
fn settled(runs: &[SectorRun], mut place: RunPlace) -> RunPlace
    ensures { IsSettled runs.now place result }
{
    while place.run < runs.len() && runs[place.run].count <= place.done {
        place = RunPlace {
            run: place.run + 1,
            done: 0,
        };
    }
    place
}

// The finding on a sector of a run, where there is one.
fn line_at(runs: &[SectorRun], place: RunPlace) -> Option<Finding>
    requires { AreRunsWithin runs.now }
    ensures { result ≡ sector_at runs.now place }
{
    let run = runs.get(place.run)?;
    if place.done < run.count {
        Some(run.finding(place.done))
    } else {
        None
    }
}

// A finding of a list, where it has so many.
fn single_at(single: &[Finding], at: usize) -> Option<Finding>
    ensures { result ≡ slice_get single.now at }
{
    single.get(at).copied()
}

// What is taken of the first single finding and of the first on a sector: the lesser one, or the one that both are.
fn step_of(single: Option<Finding>, line: Option<Finding>) -> Step
    ensures { result ≡ step_of single line }
{
    let order = match (&single, &line) {
        (Some(single), Some(line)) => single.cmp(line),
        (Some(_), None) => Ordering::Less,
        (None, _) => Ordering::Greater,
    };
    Step {
        finding: if order == Ordering::Less {
            single
        } else {
            line
        },
        single: order != Ordering::Greater,
        line: line.is_some() && order != Ordering::Less,
    }
}
