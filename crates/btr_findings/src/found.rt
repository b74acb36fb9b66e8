// Sets of findings.
ghost use Rattle.std.specs.Prelude.{◌≡◌, ◌<◌, ◌^◌, ◌||◌, ◌++◌, ◌∷◌, [], IfSome, OnOk, IfOk};
ghost use Rattle.std.specs.BTreeSet.{insert_key};
ghost use Rattle.std.specs.Option.{option_to_list};
ghost use Rattle.btr_findings.specs.declared.finding.Finding.{Finding};
ghost use Rattle.btr_findings.specs.Findings.{finding_cmp, has, is_same, unless, Adds, FoundSet, ListsSet, SetLaw};
ghost use Rattle.btr_findings.specs.Runs.{AreKept, IsSoundRun};
ghost use Rattle.btr_findings.specs.Sectors.{run_findings, runs_findings, sector_findings, IsRunWithin};

use crate::findings::Findings;
use crate::sector_run::SectorRun;
use crate::showing::shown;
use crate::{Finding, SectorRule};
use btr_base::Memory;
use std::alloc::Global;
use std::collections::BTreeSet;
use std::marker::Model;

/// What was found: a set of findings. Sectors one behind another that break the same rule take the memory of one.
#[derive(Drop)]
pub struct Found {
    single: BTreeSet<Finding>,
    runs: Vec<SectorRun>,
}

impl Model for Found {
    ghost use Rattle.btr_findings.specs.Findings.{FoundSet};
    ghost use Rattle.btr_findings.specs.Runs.{found_set, AreKept};

    ghost Value = { FoundSet };

    ghost view = { λ found. found_set found.single found.runs.items };

    ghost invariant = { λ found. AreKept found.runs.items };
}

impl Found {
    ghost use Rattle.std.specs.Prelude.{◌≡◌, false};
    ghost use Rattle.btr_findings.specs.declared.finding.Finding.{Finding};
    ghost use Rattle.btr_findings.specs.Findings.{has, ListsSet};

    /// Nothing yet.
    pub fn new(alloc: Global) -> Found
        ensures { (one : Finding) → has result one ≡ false }
    {
        Found {
            single: BTreeSet::new(alloc),
            runs: Vec::new(alloc),
        }
    }

    /// The findings, in ascending order and each once. `Memory`: there is no memory for the list, or there are 2^64 findings or more.
    pub fn list(self, alloc: Global) -> Result<Findings, Memory>
        ensures { ListsSet self result }
    {
        match self.single.iter().copied().collect(alloc) {
            Ok(single) => Findings::of(single, self.runs),
            Err(_) => Err(Memory),
        }
    }
}

// Puts a finding among single ones.
fn insert_single(single: &mut BTreeSet<Finding>, finding: Finding) -> Result<(), Memory>
    ensures { OnOk result (single.new.keys ≡ insert_key finding_cmp single.old.keys finding) }
{
    match single.insert(finding) {
        Ok(_) => Ok(()),
        Err(_) => Err(Memory),
    }
}

/// Puts a finding into a set, where it may be already. `Memory`: there is no memory for it; then nothing is said of the set.
pub fn insert(found: &mut Found, finding: Finding) -> Result<(), Memory>
    ensures { OnOk result ((one : Finding) → has found.new one ≡ (is_same one finding || has found.old one)) }
{
    insert_single(&mut found.single, finding)
}

/// Puts a finding into a set, unless its rule is kept. `Memory`: there is no memory for it.
pub fn put_unless(found: &mut Found, kept: bool, finding: Finding) -> Result<(), Memory>
    ensures { OnOk result (Adds (option_to_list (unless kept finding)) found.old found.new) }
{
    if kept {
        return Ok(());
    }
    insert(found, finding)
}

// A run and the one behind it as one, where it goes on.
fn both(run: &SectorRun, more: &SectorRun) -> Option<SectorRun>
    requires run { IsSoundRun run.now }
    requires more { IsSoundRun more.now }
    ensures kept { IfSome result IsSoundRun }
    ensures findings { IfSome result (λ both. run_findings both ≡ run_findings run.now ++ run_findings more.now) }
{
    if !run.rule.is(more.rule) || run.first + run.count != more.first {
        return None;
    }
    Some(SectorRun {
        rule: run.rule,
        first: run.first,
        count: run.count + more.count,
    })
}

// Puts a run behind others, as it is.
fn push_kept(runs: &mut Vec<SectorRun>, run: SectorRun) -> Result<(), Memory>
    requires runs { AreKept runs.old.items }
    requires run { IsSoundRun run }
    ensures kept { AreKept runs.new.items }
    ensures items { OnOk result (runs.new.items ≡ runs.old.items ++ run ∷ []) }
{
    match runs.push(run) {
        Ok(()) => Ok(()),
        Err(_) => Err(Memory),
    }
}

// Puts a run behind others, and makes one of it and the last, where that goes on.
fn push_run(runs: &mut Vec<SectorRun>, run: SectorRun) -> Result<(), Memory>
    requires runs { AreKept runs.old.items }
    requires run { IsSoundRun run }
    ensures kept { AreKept runs.new.items }
    ensures findings { OnOk result (runs_findings runs.new.items ≡ runs_findings runs.old.items ++ run_findings run) }
{
    let Some(last) = runs.pop() else {
        return push_kept(runs, run);
    };
    match both(&last, &run) {
        Some(both) => push_kept(runs, both),
        None => {
            push_kept(runs, last)?;
            push_kept(runs, run)
        }
    }
}

// Puts the findings on so many sectors one by one.
fn put_each(found: &mut Found, rule: SectorRule, start: u128, count: u64) -> Result<(), Memory>
    ensures { OnOk result (Adds (sector_findings rule start count) found.old found.new) }
{
    for i in 0..count {
        let addr = start.saturating_add(u128::from(i) * 4096);
        insert(found, rule.finding(shown(addr)))?;
    }
    Ok(())
}

/// Puts the findings on so many sectors from an address on into a set, which are of one rule. `Memory`: there is no memory for them; then nothing
/// is said of the set.
pub fn put_sectors(
    found: &mut Found,
    rule: SectorRule,
    start: u128,
    count: u64,
) -> Result<(), Memory>
    ensures { OnOk result (Adds (sector_findings rule start count) found.old found.new) }
{
    if count == 0 {
        return Ok(());
    }
    match SectorRun::at(rule, start, count) {
        Some(run) => push_run(&mut found.runs, run),
        None => put_each(found, rule, start, count),
    }
}

/// Which findings are in a list says what their set is, in whatever order and however often they are met. This function is the
/// law: its contract says it, and its body is empty.
pub fn set_law()
    ensures { SetLaw }
{}
