// Sectors that break a rule, many at once.
ghost use Rattle.std.specs.Prelude.{ℕ, ◌+◌, ◌*◌, ◌<◌, ◌≤◌, ◌^◌, Bool, filter_map, OnOk};
ghost use Rattle.btr_findings.specs.Findings.{Adds};
ghost use Rattle.btr_findings.specs.Sectors.{sectors};
ghost use Rattle.btr_check_space.specs.AddressRanges.{HoldsUpTo};
ghost use Rattle.btr_check_sums.specs.Broken.{broken, broken_if};

use btr_base::Memory;
use btr_check_space::Reach;
use btr_findings::{Found, SectorRule, put_sectors};

/// A test of sectors by their addresses.
pub(crate) trait SectorTest {
    ghost keeps: { Self → ℕ → Bool };

    /// Whether the sector at an address passes, and up to before which address all pass, or none does.
    fn reach(&self, sector: u128) -> Reach
        requires { sector < 2 ^ 127 }
        ensures { HoldsUpTo (keeps self.now) sector result };
}

// How many sectors from an address on begin before another, at most so many.
fn sectors_before(sector: u128, until: u128, most: u64) -> u64
    requires until { sector < until }
    requires most { 0 < most }
    ensures some { 0 < result }
    ensures most { result ≤ most }
    ensures before { (i : ℕ) → i < result → sector + i * 4096 < until }
{
    let count = (until - sector - 1) / 4096 + 1;
    match u64::try_from(count) {
        Ok(count) => count.min(most),
        Err(_) => most,
    }
}

// Puts the findings on sectors, unless they keep the rule.
fn put_if(
    found: &mut Found,
    kept: bool,
    rule: SectorRule,
    sector: u128,
    count: u64,
) -> Result<(), Memory>
    ensures { OnOk result (Adds (broken_if kept rule sector count) found.old found.new) }
{
    if kept {
        return Ok(());
    }
    put_sectors(found, rule, sector, count)
}

/// Puts the findings on those of so many sectors from an address on that don't pass a test. That takes a number of steps that grows as what the
/// test looks up in, and not as the number of sectors. `Memory`: there is no memory for them.
pub(crate) fn put_broken<T: SectorTest>(
    found: &mut Found,
    rule: SectorRule,
    start: u128,
    count: u64,
    test: &T,
) -> Result<(), Memory>
    requires { start < 2 ^ 66 }
    ensures { OnOk result (Adds (filter_map (broken rule (T.keeps test.now)) (sectors start count)) found.old found.new) }
{
    let mut done = 0;
    while done < count {
        let sector = start + u128::from(done) * 4096;
        let reach = test.reach(sector);
        let more = sectors_before(sector, reach.until, count - done);
        put_if(found, reach.held, rule, sector, more)?;
        done += more;
    }
    Ok(())
}
