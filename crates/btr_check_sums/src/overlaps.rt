// Sectors that have more than one checksum.
ghost use Rattle.std.specs.Prelude.{◌≡◌, IfOk, OnOk, map, filter_map, ◌<◌, ◌^◌};
ghost use Rattle.std.specs.List.Sorted.{IsNonDecreasingBy};
ghost use Rattle.btr_findings.specs.Findings.{Adds};
ghost use Rattle.btr_check_sums.specs.Putting.{PutsOverlaps};
ghost use Rattle.btr_check_sums.specs.Broken.{RankReaches, number_or_last};
ghost use Rattle.btr_check_sums.specs.Ranks.{IsSortedOf, run_start, run_end};
ghost use Rattle.btr_check_sums.specs.Sums.{sum_overlap, summed};

use crate::sector_test::{SectorTest, put_broken};
use btr_base::Memory;
use btr_check_space::Reach;
use btr_findings::{Found, SectorRule, push, with_room};
use btr_items::SumRun;
use std::alloc::Global;

// Where a run ends.
fn end_of(run: &SumRun) -> u128
    ensures { result ≡ run_end run.now }
{
    u128::from(run.start) + u128::from(run.count) * 4096
}

// Where runs begin, in ascending order.
fn starts_of(alloc: Global, runs: &[SumRun]) -> Result<Vec<u128>, Memory>
    ensures { IfOk result (λ list. IsSortedOf (map run_start runs.now) list.items) }
{
    let mut starts = with_room(alloc, runs.len())?;
    for run in runs {
        push(&mut starts, u128::from(run.start))?;
    }
    starts.sort_unstable();
    Ok(starts)
}

// Where runs end, in ascending order.
fn ends_of(alloc: Global, runs: &[SumRun]) -> Result<Vec<u128>, Memory>
    ensures { IfOk result (λ list. IsSortedOf (map run_end runs.now) list.items) }
{
    let mut ends = with_room(alloc, runs.len())?;
    for run in runs {
        push(&mut ends, end_of(run))?;
    }
    ends.sort_unstable();
    Ok(ends)
}

// How many numbers are at most one, and up to before which one that is the same.
#[derive(Clone, Copy)]
pub(crate) struct RankReach {
    rank: usize,
    until: u128,
}

// The number at a place, or the greatest there is.
fn number_at(numbers: &[u128], place: usize) -> u128
    ensures { result ≡ number_or_last numbers.now place }
{
    if place < numbers.len() {
        numbers[place]
    } else {
        u128::MAX
    }
}

// The same for numbers that ascend.
fn rank_reach(numbers: &[u128], at: u128) -> RankReach
    requires ascend { IsNonDecreasingBy (λ n. n) numbers.now }
    requires at { at < 2 ^ 127 }
    ensures { RankReaches numbers.now at result }
{
    let rank = numbers.partition_point(|number| *number <= at);
    let until = number_at(numbers, rank);
    RankReach { rank, until }
}

// Where runs begin and end, in ascending order, by which sectors have at most one checksum: of the runs that begin at or before a sector all
// but one end there at the latest.
#[derive(Drop)]
struct SummedOnce<'a> {
    starts: &'a [u128],
    ends: &'a [u128],
    ghost starts_ascend: { IsNonDecreasingBy (λ n. n) starts.now },
    ghost ends_ascend: { IsNonDecreasingBy (λ n. n) ends.now },
}

impl SectorTest for SummedOnce<'_> {
    ghost use Rattle.std.specs.Prelude.{nat_le, ◌+◌};
    ghost use Rattle.btr_check_sums.specs.Ranks.{rank};

    ghost keeps = { λ once sector. nat_le (rank once.starts.now sector) (rank once.ends.now sector + 1) };

    fn reach(&self, sector: u128) -> Reach {
        let started = rank_reach(self.starts, sector);
        let ended = rank_reach(self.ends, sector);
        Reach {
            held: started.rank.saturating_sub(ended.rank) <= 1,
            until: started.until.min(ended.until),
        }
    }
}

// 13: the sectors of a run that have more than one checksum.
fn put_run(found: &mut Found, run: &SumRun, starts: &[u128], ends: &[u128]) -> Result<(), Memory>
    requires starts { IsNonDecreasingBy (λ n. n) starts.now }
    requires ends { IsNonDecreasingBy (λ n. n) ends.now }
    ensures { PutsOverlaps run.now starts.now ends.now found.old found.new result }
{
    let start = u128::from(run.start);
    let once = SummedOnce { starts, ends };
    put_broken(found, SectorRule::Overlap, start, run.count, &once)
}

// 13: all sectors that have more than one checksum.
pub(crate) fn put_overlaps(alloc: Global, found: &mut Found, runs: &[SumRun]) -> Result<(), Memory>
    ensures { OnOk result (Adds (filter_map (sum_overlap runs.now) (summed runs.now)) found.old found.new) }
{
    let starts = starts_of(alloc, runs)?;
    let ends = ends_of(alloc, runs)?;
    for run in runs {
        put_run(found, run, &starts, &ends)?;
    }
    Ok(())
}
