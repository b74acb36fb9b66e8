// Data that has a checksum, and whether it is readable.
ghost use Rattle.std.specs.Prelude.{◌≡◌, ◌+◌, ◌*◌, ◌^◌, ◌<◌, ◌∷◌, [], true, is_ok, filter_map, Ok, OnOk, IsTrue};
ghost use Rattle.std.specs.Option.{option_to_list};
ghost use Rattle.btr_ahead.specs.Ahead.{IsAhead};
ghost use Rattle.btr_files.specs.Content.{want_by};
ghost use Rattle.btr_files.specs.Sums.{tree_behind};
ghost use Rattle.btr_findings.specs.declared.kind.Kind.TheVariants as kind;
ghost use Rattle.btr_findings.specs.Findings.{Adds};
ghost use Rattle.btr_findings.specs.Findings as rows;
ghost use Rattle.btr_check_sums.specs.Ranks.{run_end};
ghost use Rattle.btr_check_sums.specs.Sums.{run_sectors};
ghost use Rattle.btr_check.specs.Counting.{Unless};
ghost use Rattle.btr_check.specs.Data.{data_findings, data_lost, is_readable, sum_runs, unread_stop, KeepsSums, ReadsBy};
ghost use Rattle.btr_check.specs.Running.{world, CanCheck, Ran};
ghost use Rattle.btr_check.specs.Trees.{tree_of};
ghost use Rattle.btr_check.specs.Wanted.{AreSums, IfKnown, OfData, OfSector};
ghost use Rattle.btr_check.specs.Wanted.{OfSectorBy, OfSectors, Only};

use crate::form::kind_of;
use btr_ahead::DataAhead;
use btr_base::{Memory, Sum};
use btr_files::{SumsAhead, sum_ahead};
use btr_findings::{Found, SectorRule, put_sectors};
use btr_items::SumRun;
use btr_rack::Rack;
use btr_read::{Want, fetch};
use btr_volume::{Stop, TreeRoot, Volume};
use btr_walk::TreeFault;

// A sector of a run: its address, and how many sectors of the run are left, this one too.
#[derive(Clone, Copy)]
pub(crate) struct RunSector {
    addr: u64,
    left: u64,
}

// The stop of a block that could not be read; other faults are none.
fn unread_stop(fault: TreeFault) -> Option<Stop>
    ensures { result ≡ unread_stop fault }
{
    match fault {
        TreeFault::Unread(addr, slot) => Some(Stop::Tree(TreeFault::Unread(addr, slot))),
        TreeFault::Lost(_)
        | TreeFault::Unmapped(_)
        | TreeFault::Crosses(_)
        | TreeFault::Malformed(_) => None,
    }
}

// How a sector is wanted: by its checksum, if it has one.
fn want_by(addr: u64, sum: Option<Sum>) -> Want
    ensures { result ≡ want_by addr sum }
{
    match sum {
        None => Want::Plain { addr },
        Some(sum) => Want::Sector { addr, sum },
    }
}

// The want of a sector by the checksum that is looked up, or that is kept of the look-up before; none where the checksum tree has a
// fault there.
fn sector_want<R: Rack>(
    sector: u64,
    sums: Option<&TreeRoot>,
    ahead: &mut SumsAhead,
    rack: &mut R,
    vol: &mut Volume,
) -> Result<Option<Want>, Stop>
    requires ready { CanCheck (world (R.seen rack.old) vol.old) }
    ensures ran { Ran (OfSector (tree_behind sums.entry) sector)
        (λ fs. KeepsSums fs (tree_behind sums.entry) ahead.old ahead.new (Unless (ReadsBy fs
        (tree_behind sums.entry) sector) result))
        (world (R.seen rack.old) vol.old) (world (R.seen rack.new) vol.new) result }
{
    if let Some(sum) = ahead.get(kind_of(&vol.sup), sector) {
        return Ok(Some(Want::Sector { addr: sector, sum }));
    }
    match sum_ahead(sums, sector, ahead, rack, vol) {
        Ok(sum) => Ok(Some(want_by(sector, sum))),
        Err(fault) => match unread_stop(fault) {
            None => Ok(None),
            Some(stop) => Err(stop),
        },
    }
}

// Whether a want comes to bytes, by all that may be read for it.
fn can_fetch<R: Rack>(want: &Want, rack: &mut R, vol: &mut Volume) -> Result<bool, Stop>
    requires ready { CanCheck (world (R.seen rack.old) vol.old) }
    ensures ran { Ran (Only want.now)
        (λ fs. Unless (λ can. can ≡ is_ok (fs.blocks want.now)) result)
        (world (R.seen rack.old) vol.old) (world (R.seen rack.new) vol.new) result }
{
    match fetch(want, rack, &mut vol.store) {
        Ok(loan) => {
            vol.store.give(loan);
            Ok(true)
        }
        Err(fault) => match unread_stop(TreeFault::from(fault)) {
            None => Ok(false),
            Some(stop) => Err(stop),
        },
    }
}

// Whether the first copy of a want, which is read with those behind it, passes: then it comes to bytes.
fn is_ahead<R: Rack>(
    want: &Want,
    left: u64,
    copies: &mut DataAhead,
    rack: &mut R,
    vol: &Volume,
) -> bool
    requires ready { CanCheck (world (R.seen rack.old) vol.now) }
    requires ahead { IsAhead (R.seen rack.old).held copies.old }
    ensures ahead { IsAhead (R.seen rack.new).held copies.new }
    ensures ran { Ran (Only want.now)
        (λ fs. IsTrue result → is_ok (fs.blocks want.now) ≡ true)
        (world (R.seen rack.old) vol.now) (world (R.seen rack.new) vol.now) (Ok result) }
{
    copies.has(want, left, rack, &vol.store)
}

// Whether a want comes to bytes: first by its first copy.
fn can_read<R: Rack>(
    want: &Want,
    left: u64,
    copies: &mut DataAhead,
    rack: &mut R,
    vol: &mut Volume,
) -> Result<bool, Stop>
    requires ready { CanCheck (world (R.seen rack.old) vol.old) }
    requires ahead { IsAhead (R.seen rack.old).held copies.old }
    ensures ahead { IsAhead (R.seen rack.new).held copies.new }
    ensures ran { Ran (Only want.now)
        (λ fs. Unless (λ can. can ≡ is_ok (fs.blocks want.now)) result)
        (world (R.seen rack.old) vol.old) (world (R.seen rack.new) vol.new) result }
{
    if is_ahead(want, left, copies, rack, vol) {
        return Ok(true);
    }
    can_fetch(want, rack, vol)
}

// Whether a sector comes to bytes, by the checksum that is looked up.
fn is_readable<R: Rack>(
    sector: RunSector,
    sums: Option<&TreeRoot>,
    ahead: &mut SumsAhead,
    copies: &mut DataAhead,
    rack: &mut R,
    vol: &mut Volume,
) -> Result<bool, Stop>
    requires ready { CanCheck (world (R.seen rack.old) vol.old) }
    requires ahead { IsAhead (R.seen rack.old).held copies.old }
    ensures ahead { IsAhead (R.seen rack.new).held copies.new }
    ensures ran { Ran (OfSectorBy (tree_behind sums.entry) ahead.old sector.addr)
        (λ fs. KeepsSums fs (tree_behind sums.entry) ahead.old ahead.new (Unless
        (λ can. can ≡ is_readable fs (tree_behind sums.entry) sector.addr) result))
        (world (R.seen rack.old) vol.old) (world (R.seen rack.new) vol.new) result }
{
    match sector_want(sector.addr, sums, ahead, rack, vol)? {
        None => Ok(false),
        Some(want) => can_read(&want, sector.left, copies, rack, vol),
    }
}

// Puts the finding on a sector into a set, unless it is readable.
fn put_lost(found: &mut Found, readable: bool, sector: u64) -> Result<(), Memory>
    ensures { OnOk result (Adds (option_to_list (rows.unless readable (rows.found kind.DataLost (sector ∷ [])))) found.old found.new) }
{
    if readable {
        return Ok(());
    }
    put_sectors(found, SectorRule::Lost, u128::from(sector), 1)
}

// Puts a sector into a set, unless it is readable.
fn put_sector<R: Rack>(
    found: &mut Found,
    sector: RunSector,
    sums: Option<&TreeRoot>,
    ahead: &mut SumsAhead,
    copies: &mut DataAhead,
    rack: &mut R,
    vol: &mut Volume,
) -> Result<(), Stop>
    requires ready { CanCheck (world (R.seen rack.old) vol.old) }
    requires ahead { IsAhead (R.seen rack.old).held copies.old }
    ensures ahead { IsAhead (R.seen rack.new).held copies.new }
    ensures ran { Ran (OfSectorBy (tree_behind sums.entry) ahead.old sector.addr)
        (λ fs. KeepsSums fs (tree_behind sums.entry) ahead.old ahead.new (Unless (λ u. Adds
        (option_to_list (data_lost fs (tree_behind sums.entry) sector.addr)) found.old found.new) result))
        (world (R.seen rack.old) vol.old) (world (R.seen rack.new) vol.new) result }
{
    let readable = is_readable(sector, sums, ahead, copies, rack, vol)?;
    match put_lost(found, readable, sector.addr) {
        Ok(()) => Ok(()),
        Err(Memory) => Err(Stop::Memory),
    }
}

// A sector of a run, by its number.
fn sector_at(run: &SumRun, i: u64) -> RunSector
    ensures { run_end run.now < 2 ^ 64 → i < run.now.count → result.addr ≡ run.now.start + i * 4096 }
{
    RunSector {
        addr: run.start.saturating_add(i.saturating_mul(4096)),
        left: run.count.saturating_sub(i),
    }
}

// Puts the sectors of a run that aren't readable into a set.
fn put_run<R: Rack>(
    found: &mut Found,
    run: &SumRun,
    sums: Option<&TreeRoot>,
    copies: &mut DataAhead,
    rack: &mut R,
    vol: &mut Volume,
) -> Result<(), Stop>
    requires ready { CanCheck (world (R.seen rack.old) vol.old) }
    requires ahead { IsAhead (R.seen rack.old).held copies.old }
    ensures ahead { IsAhead (R.seen rack.new).held copies.new }
    ensures ran { Ran (IfKnown (λ fs. run_end run.now < 2 ^ 64)
        (OfSectors (tree_behind sums.entry) (run_sectors run.now)))
        (λ fs. run_end run.now < 2 ^ 64 → Unless (λ u. Adds (filter_map (data_lost fs
        (tree_behind sums.entry)) (run_sectors run.now)) found.old found.new) result)
        (world (R.seen rack.old) vol.old) (world (R.seen rack.new) vol.new) result }
{
    let mut ahead = SumsAhead::new();
    for i in 0..run.count {
        let sector = sector_at(run, i);
        put_sector(found, sector, sums, &mut ahead, copies, rack, vol)?;
    }
    Ok(())
}

/// Puts the sectors that have a checksum and aren't readable into a set, where these are the runs of the checksum tree, and this is its root. Each
/// sector is read, up to 64 by one read, and a look-up of its checksum serves the sectors behind it in the same item. Four slots are free.
///
/// `Tree`: a block could not be read, which is `Unread`. `Memory`: there is no memory for the findings.
pub(crate) fn put_data_findings<R: Rack>(
    found: &mut Found,
    runs: &[SumRun],
    sums: Option<&TreeRoot>,
    rack: &mut R,
    vol: &mut Volume,
) -> Result<(), Stop>
    requires ready { CanCheck (world (R.seen rack.old) vol.old) }
    ensures ran { Ran (IfKnown (AreSums runs.now (tree_behind sums.entry)) OfData)
        (λ fs. runs.now ≡ sum_runs fs → tree_behind sums.entry ≡ tree_of fs.sup fs.blocks 7
        → Unless (λ u. Adds (data_findings fs) found.old found.new) result)
        (world (R.seen rack.old) vol.old) (world (R.seen rack.new) vol.new) result }
{
    let mut copies = DataAhead::new();
    for run in runs {
        put_run(found, run, sums, &mut copies, rack, vol)?;
    }
    Ok(())
}
