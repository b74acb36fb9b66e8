// What is wrong with the checksums of data.
ghost use Rattle.btr_check.specs.Families.{IsRunsOf, found_on_sums};
ghost use Rattle.btr_check.specs.Passes.{AreExtents, Lists, AddsFindingsAnd};
ghost use Rattle.btr_check.specs.Running.{world, CanCheck, Ran};
ghost use Rattle.btr_check.specs.Wanted.{IfKnown, OfAllTrees};

use crate::collecting::collect;
use crate::form::kind_of;
use crate::refusing::last_of;
use btr_base::Memory;
use btr_check_sums::{Runs, keeps_law, put_sum_findings};
use btr_findings::{Extent, Finding, Found};
use btr_rack::Rack;
use btr_volume::{Stop, TreeRoot, Volume};
use std::alloc::Global;

pub(crate) const SUM_TREE: u64 = 7;

/// Puts what is wrong with checksums and extents, `SumOverlap` and `SumStray`. It visits the checksum tree, and answers its runs.
///
/// `Tree`: a block could not be read, which is `Unread`. `Memory`: there is no memory for what is kept.
pub(crate) fn put_sums<R: Rack>(
    alloc: Global,
    found: &mut Found,
    listed: &[TreeRoot],
    extents: &[Extent],
    rack: &mut R,
    vol: &mut Volume,
) -> Result<Runs, Stop>
    requires ready { CanCheck (world (R.seen rack.old) vol.old) }
    ensures ran { Ran (IfKnown (Lists listed.now) OfAllTrees)
        (AddsFindingsAnd (λ fs. Lists listed.now fs
        × AreExtents extents.now fs) IsRunsOf found_on_sums found.old found.new result)
        (world (R.seen rack.old) vol.old) (world (R.seen rack.new) vol.new) result }
{
    keeps_law();
    let tree = last_of(listed, SUM_TREE);
    let nothing = Runs::new(alloc, kind_of(&vol.sup));
    let runs = collect(tree, nothing, rack, vol)?;
    match put_sum_findings(alloc, found, runs.as_slice(), extents) {
        Ok(()) => Ok(runs),
        Err(Memory) => Err(Stop::Memory),
    }
}
