use crate::{Finding, SectorRule};

/// Sectors one behind another that break the same rule, by the number of the first: its address is 4096 times that.
#[derive(Clone, Copy, Debug, PartialEq, Eq)]
pub(crate) struct SectorRun {
    pub(crate) rule: SectorRule,
    pub(crate) first: u64,
    pub(crate) count: u64,
}

impl SectorRun {
    ghost use Rattle.std.specs.Prelude.{◌≡◌, ◌+◌, ◌*◌, ◌<◌, ◌≤◌, ◌^◌, IfSome, OnOk};
    ghost use Rattle.btr_findings.specs.Sectors.{sector_finding, IsRunWithin, IsRunAt};

    /// So many sectors from an address on, where they begin at a sector's start and end at 2^64 at the latest.
    pub(crate) fn at(rule: SectorRule, start: u128, count: u64) -> Option<SectorRun>
        ensures { IfSome result (IsRunAt rule start count) }
    {
        let first = u64::try_from(start / 4096).ok()?;
        let end = first.checked_add(count)?;
        if start % 4096 != 0 || end > 1 << 52 {
            return None;
        }
        Some(SectorRun { rule, first, count })
    }

    /// The finding on a sector of a run.
    pub(crate) fn finding(&self, i: u64) -> Finding
        requires within { IsRunWithin self.now }
        requires below { i < self.now.count }
        ensures { result ≡ sector_finding self.now.rule ((self.now.first + i) * 4096) }
    {
        self.rule.finding((self.first + i) * 4096)
    }
}
