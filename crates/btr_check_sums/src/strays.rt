// Sectors that have a checksum and lie in no data extent.
ghost use Rattle.std.specs.Prelude.{IfOk, OnOk, map, filter_map};
ghost use Rattle.btr_findings.specs.Findings.{Adds};
ghost use Rattle.btr_check_space.specs.AddressRanges.{HoldSame};
ghost use Rattle.btr_check_sums.specs.Putting.{PutsStrays};
ghost use Rattle.btr_check_sums.specs.Sums.{data_extents, extent_range, sum_stray, summed};

use crate::sector_test::{SectorTest, put_broken};
use bitflags::Flags;
use btr_base::Memory;
use btr_check_space::{AddressRange, AddressRanges, Reach};
use btr_findings::{Extent, Found, SectorRule, push, with_room};
use btr_items::{ExtentFlags, SumRun};
use std::alloc::Global;

// The ranges of addresses of data extents.
fn data_ranges(alloc: Global, extents: &[Extent]) -> Result<AddressRanges, Memory>
    ensures { IfOk result (HoldSame (map extent_range (data_extents extents.now))) }
{
    let mut ranges = with_room(alloc, extents.len())?;
    for extent in extents {
        if extent.flags().intersects(ExtentFlags::DATA) {
            let range = AddressRange {
                start: extent.addr,
                len: extent.len,
            };
            push(&mut ranges, range)?;
        }
    }
    Ok(AddressRanges::new(ranges))
}

// Whether sectors lie in a data extent.
#[derive(Drop)]
struct InData<'a>(&'a AddressRanges);

impl SectorTest for InData<'_> {
    ghost use Rattle.btr_check_space.specs.AddressRanges.{is_held_from};

    ghost keeps = { λ within sector. is_held_from 4096 within.0.now sector };

    fn reach(&self, sector: u128) -> Reach {
        self.0.reach(sector, 4096)
    }
}

// 14: the sectors of a run that lie in no data extent.
fn put_run(found: &mut Found, run: &SumRun, ranges: &AddressRanges) -> Result<(), Memory>
    ensures { PutsStrays run.now ranges.now found.old found.new result }
{
    let start = u128::from(run.start);
    put_broken(found, SectorRule::Stray, start, run.count, &InData(ranges))
}

// 14: all sectors that have a checksum and lie in no data extent.
pub(crate) fn put_strays(
    alloc: Global,
    found: &mut Found,
    runs: &[SumRun],
    extents: &[Extent],
) -> Result<(), Memory>
    ensures { OnOk result (Adds (filter_map (sum_stray extents.now) (summed runs.now)) found.old found.new) }
{
    let ranges = data_ranges(alloc, extents)?;
    for run in runs {
        put_run(found, run, &ranges)?;
    }
    Ok(())
}
