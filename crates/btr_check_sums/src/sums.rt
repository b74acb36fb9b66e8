// What is wrong with the checksums of a filesystem.
ghost use Rattle.std.specs.Prelude.{OnOk};
ghost use Rattle.btr_findings.specs.Findings.{Adds};
ghost use Rattle.btr_check_sums.specs.Sums.{sum_findings};

use crate::overlaps::put_overlaps;
use crate::strays::put_strays;
use btr_base::Memory;
use btr_findings::{Extent, Found};
use btr_items::SumRun;
use std::alloc::Global;

/// Puts the findings on checksums: each sector that has more than one, and each that has one and lies in no
/// data extent. `Memory`: there is no memory for them.
pub fn put_sum_findings(
    alloc: Global,
    found: &mut Found,
    runs: &[SumRun],
    extents: &[Extent],
) -> Result<(), Memory>
    ensures { OnOk result (Adds (sum_findings runs.now extents.now) found.old found.new) }
{
    put_overlaps(alloc, found, runs)?;
    put_strays(alloc, found, runs, extents)
}
