// A check of a filesystem.
ghost use Rattle.std.specs.Prelude.{◌≡◌, ◌++◌, None};
ghost use Rattle.btr_findings.specs.Findings.{HasJust};
ghost use Rattle.btr_check.specs.Before.{refusal};
ghost use Rattle.btr_check.specs.Counting.{Unless};
ghost use Rattle.btr_check.specs.Families.{IsRunsOf, found_on_extents, found_on_files};
ghost use Rattle.btr_check.specs.Findings.{all_findings, data_if, findings, rule_findings};
ghost use Rattle.btr_check.specs.Passes.{IsWalked, Lists, AddsFindings, AddsFindingsAnd};
ghost use Rattle.btr_check.specs.Running.{world, CanCheck, Answers, Ran};
ghost use Rattle.btr_check.specs.Wanted.{IfKnown, OfAllTrees, OfCheck};

use crate::checked::Checked;
use crate::file_trees::put_files;
use crate::readable::put_data_findings;
use crate::references::put_references;
use crate::refusing::last_of;
use crate::space::put_devices;
use crate::sums::{SUM_TREE, put_sums};
use crate::walk::Walk;
use crate::{all_trees, put_walk_findings, read_trees, walk_trees};
use btr_base::Memory;
use btr_check_sums::{Runs, sum_ranges};
use btr_findings::{Findings, Found};
use btr_rack::Rack;
use btr_volume::{Stop, TreeRoot, Volume};
use std::alloc::Global;

// Puts what is wrong with extents, with the references to them, with block groups and with checksums, and answers the runs of checksums.
fn put_extents<R: Rack>(
    alloc: Global,
    found: &mut Found,
    checked: Checked<'_>,
    walk: Walk,
    rack: &mut R,
    vol: &mut Volume,
) -> Result<Runs, Stop>
    requires ready { CanCheck (world (R.seen rack.old) vol.old) }
    ensures ran { Ran (IfKnown (IsWalked checked.entry.listed.now checked.entry.trees.now walk) OfAllTrees)
        (AddsFindingsAnd (IsWalked checked.entry.listed.now checked.entry.trees.now walk) IsRunsOf found_on_extents found.old found.new result)
        (world (R.seen rack.old) vol.old) (world (R.seen rack.new) vol.new) result }
{
    let extents = put_references(alloc, found, checked, walk, rack, vol)?;
    put_sums(alloc, found, checked.listed, extents.as_slice(), rack, vol)
}

// Puts what is lost of the data, where data is read.
fn put_data_if<R: Rack>(
    read_data: bool,
    found: &mut Found,
    listed: &[TreeRoot],
    runs: &Runs,
    rack: &mut R,
    vol: &mut Volume,
) -> Result<(), Stop>
    requires ready { CanCheck (world (R.seen rack.old) vol.old) }
    ensures ran { Ran
        (IfKnown (λ fs. Lists listed.now fs × IsRunsOf fs runs.now) (OfCheck read_data))
        (AddsFindings (λ fs. Lists listed.now fs × IsRunsOf fs runs.now)
        (data_if read_data) found.old found.new result)
        (world (R.seen rack.old) vol.old) (world (R.seen rack.new) vol.new) result }
{
    if read_data {
        let tree = last_of(listed, SUM_TREE);
        put_data_findings(found, runs.as_slice(), tree.as_ref(), rack, vol)
    } else {
        Ok(())
    }
}

// Puts what is wrong with files and names, and what is lost of the data, where that is read. These are the runs of checksums.
fn put_contents<R: Rack>(
    alloc: Global,
    found: &mut Found,
    checked: Checked<'_>,
    runs: Runs,
    rack: &mut R,
    vol: &mut Volume,
) -> Result<(), Stop>
    requires ready { CanCheck (world (R.seen rack.old) vol.old) }
    ensures ran { Ran (IfKnown (λ fs. Lists checked.entry.listed.now fs × IsRunsOf fs runs) (OfCheck checked.entry.read_data))
        (AddsFindings (λ fs. Lists checked.entry.listed.now fs × IsRunsOf fs runs)
        (λ fs. data_if checked.entry.read_data fs ++ found_on_files fs) found.old found.new result)
        (world (R.seen rack.old) vol.old) (world (R.seen rack.new) vol.new) result }
{
    put_data_if(checked.read_data, found, checked.listed, &runs, rack, vol)?;
    match sum_ranges(alloc, runs.as_slice()) {
        Ok(sums) => put_files(alloc, found, checked.listed, &sums, rack, vol),
        Err(Memory) => Err(Stop::Memory),
    }
}

// Puts what is wrong with what the trees say, where nothing is wrong with the trees themselves.
fn put_rules<R: Rack>(
    alloc: Global,
    found: &mut Found,
    checked: Checked<'_>,
    walk: Walk,
    rack: &mut R,
    vol: &mut Volume,
) -> Result<(), Stop>
    requires ready { CanCheck (world (R.seen rack.old) vol.old) }
    ensures ran { Ran (IfKnown (IsWalked checked.entry.listed.now checked.entry.trees.now walk) (OfCheck checked.entry.read_data))
        (AddsFindings (IsWalked checked.entry.listed.now checked.entry.trees.now walk) (rule_findings checked.entry.read_data)
        found.old found.new result)
        (world (R.seen rack.old) vol.old) (world (R.seen rack.new) vol.new) result }
{
    let runs = put_extents(alloc, found, checked, walk, rack, vol)?;
    put_devices(alloc, found, checked.listed, rack, vol)?;
    put_contents(alloc, found, checked, runs, rack, vol)
}

// All that is wrong, as a set: with the trees themselves, and else with what they say.
fn find_all<R: Rack>(
    alloc: Global,
    read_data: bool,
    listed: &[TreeRoot],
    rack: &mut R,
    vol: &mut Volume,
) -> Result<Found, Stop>
    requires ready { CanCheck (world (R.seen rack.old) vol.old) }
    ensures ran { Ran (IfKnown (Lists listed.now) (OfCheck read_data))
        (λ fs. Lists listed.now fs → Unless (HasJust (all_findings read_data fs)) result)
        (world (R.seen rack.old) vol.old) (world (R.seen rack.new) vol.new) result }
{
    let all = match all_trees(alloc, &vol.sup, listed) {
        Ok(all) => all,
        Err(Memory) => return Err(Stop::Memory),
    };
    let trees = all.as_slice();
    let walk = walk_trees(alloc, trees, rack, vol)?;
    let mut found = Found::new(alloc);
    if walk.is_sound() {
        let checked = Checked {
            read_data,
            listed,
            trees,
        };
        put_rules(alloc, &mut found, checked, walk, rack, vol)?;
        Ok(found)
    } else {
        match put_walk_findings(&mut found, &walk) {
            Ok(()) => Ok(found),
            Err(Memory) => Err(Stop::Memory),
        }
    }
}

/// Checks a filesystem: all that is wrong with it, each finding once and in ascending order; those on sectors one behind another take the memory
/// of one. Four slots are free. Where something is
/// wrong with the trees themselves, from `Kind::Lost` to `Crosses`, that is all; else come the other kinds, and `DataLost` where
/// `read_data` says that each sector that has a checksum is read. The trees are read several times, and nothing is written.
///
/// `Tree`: a block could not be read, which is `Unread`; or the root tree itself can't be read on, as `read_trees` says, which also says when
/// `Balance`, `Deletion` and `NoTree` come. `Memory`: there is no memory for what is kept, or there are 2^64 findings
/// or more. No other stop comes.
pub fn check<R: Rack>(
    alloc: Global,
    read_data: bool,
    rack: &mut R,
    vol: &mut Volume,
) -> Result<Findings, Stop>
    requires ready { CanCheck (world (R.seen rack.old) vol.old) }
    ensures ran { Ran (OfCheck read_data)
        (λ fs. Answers (λ all. (refusal fs ≡ None) × (all ≡ findings read_data fs)) fs result)
        (world (R.seen rack.old) vol.old) (world (R.seen rack.new) vol.new) result }
{
    let trees = read_trees(alloc, rack, vol)?;
    let found = find_all(alloc, read_data, &trees, rack, vol)?;
    match found.list(alloc) {
        Ok(all) => Ok(all),
        Err(Memory) => Err(Stop::Memory),
    }
}
