// Extents and what uses them.
ghost use Rattle.std.specs.Prelude.{◌≡◌, ◌++◌, IfOk};
ghost use Rattle.btr_check_space.specs.Groups.{group_findings};
ghost use Rattle.btr_findings.specs.Findings.{Adds};
ghost use Rattle.btr_refs.specs.Differences.{count_findings, total_findings};
ghost use Rattle.btr_refs.specs.Forward.{nothing_counted};
ghost use Rattle.btr_check.specs.Counting.{IsFull};
ghost use Rattle.btr_check.specs.ExtentTree.{IsBegun};
ghost use Rattle.btr_check.specs.Families.{found_on_groups};
ghost use Rattle.btr_check.specs.Passes.{ListExtents, KnowsUses, IsWalked, Lists, ListsSound, AddsFindingsAnd};
ghost use Rattle.btr_check.specs.Running.{world, CanCheck, Ran};
ghost use Rattle.btr_check.specs.Uses.{found_on_counts, found_on_totals, found_on_uses, reference_findings};
ghost use Rattle.btr_check.specs.Wanted.{IfKnown, OfAllTrees};

use crate::checked::Checked;
use crate::counting::{count_uses, full_backrefs};
use crate::extent_tree::read_extents;
use crate::space::put_groups;
use crate::walk::Walk;
use btr_base::Memory;
use btr_check_space::Groups;
use btr_findings::{Extent, Finding, Found};
use btr_rack::Rack;
use btr_refs::{Forward, Stored, put_count_findings, put_total_findings, put_use_findings};
use btr_tour::Both;
use btr_volume::{Stop, TreeRoot, Volume};
use btr_walk::RootPlace;
use std::alloc::Global;
use std::collections::BTreeSet;

// What uses are counted beside: what the extent tree stores, of which nothing is counted yet, and the addresses of the blocks that refer by
// their own.
#[derive(Drop)]
struct Begun {
    forward: Forward,
    full: BTreeSet<u64>,
}

// Puts what extents state of the references to them, and what is wrong with block groups, which are let go.
fn put_collected(
    alloc: Global,
    found: &mut Found,
    both: Both<Stored, Groups>,
    vol: &Volume,
) -> Result<Begun, Memory>
    ensures found { IfOk result (λ begun. Adds (total_findings both.first.extents both.first.refs
        ++ group_findings vol.now.store.layout.chunks both.first.extents both.second vol.now.sup.bytes_used) found.old found.new) }
    ensures forward { IfOk result (λ begun. begun.forward ≡ nothing_counted both.first) }
    ensures full { IfOk result (λ begun. IsFull both.first.extents begun.full) }
{
    let stored = both.first.into_list(alloc)?;
    put_total_findings(found, &stored)?;
    put_groups(alloc, found, stored.extents(), &both.second, vol)?;
    let full = full_backrefs(alloc, stored.extents())?;
    let forward = Forward::new(alloc, stored)?;
    Ok(Begun { forward, full })
}

// The same by what the trees say.
fn put_stored<R: Rack>(
    alloc: Global,
    found: &mut Found,
    listed: &[TreeRoot],
    rack: &mut R,
    vol: &mut Volume,
) -> Result<Begun, Stop>
    requires ready { CanCheck (world (R.seen rack.old) vol.old) }
    ensures ran { Ran (IfKnown (Lists listed.now) OfAllTrees)
        (AddsFindingsAnd (ListsSound listed.now) IsBegun (λ fs. found_on_totals fs ++ found_on_groups fs) found.old found.new result)
        (world (R.seen rack.old) vol.old) (world (R.seen rack.new) vol.new) result }
{
    let both = read_extents(alloc, listed, rack, vol)?;
    match put_collected(alloc, found, both, vol) {
        Ok(begun) => Ok(begun),
        Err(Memory) => Err(Stop::Memory),
    }
}

// Puts where references are counted otherwise than they are stored, and what is wrong with extents by their uses. The extents are left.
fn put_uses(found: &mut Found, forward: Forward) -> Result<Vec<Extent>, Memory>
    ensures found { IfOk result (λ extents. Adds (count_findings forward.uses.refs forward.stored.refs ++ forward.uses.misused) found.old found.new) }
    ensures extents { IfOk result (λ extents. extents.items ≡ forward.stored.extents) }
{
    put_count_findings(found, &forward)?;
    put_use_findings(found, &forward)?;
    Ok(forward.into_extents())
}

// Counts what uses extents, by the blocks that were met, and puts what is wrong by that.
fn put_counted<R: Rack>(
    found: &mut Found,
    trees: &[TreeRoot],
    places: Vec<RootPlace>,
    begun: Begun,
    rack: &mut R,
    vol: &mut Volume,
) -> Result<Vec<Extent>, Stop>
    requires ready { CanCheck (world (R.seen rack.old) vol.old) }
    ensures ran { Ran (IfKnown (KnowsUses trees.now places.items begun) OfAllTrees)
        (AddsFindingsAnd (KnowsUses trees.now places.items begun) ListExtents (λ fs. found_on_counts fs ++ found_on_uses fs) found.old found.new result)
        (world (R.seen rack.old) vol.old) (world (R.seen rack.new) vol.new) result }
{
    let forward = count_uses(
        begun.forward,
        trees,
        places.as_slice(),
        &begun.full,
        rack,
        vol,
    )?;
    match put_uses(found, forward) {
        Ok(extents) => Ok(extents),
        Err(Memory) => Err(Stop::Memory),
    }
}

/// Puts what is wrong with extents, with the references to them and with block groups, and answers the extents. Of the walk, which found
/// nothing, the blocks that were met are kept, and read again.
///
/// `Tree`: a block could not be read, which is `Unread`. `Memory`: there is no memory for what is kept.
pub(crate) fn put_references<R: Rack>(
    alloc: Global,
    found: &mut Found,
    checked: Checked<'_>,
    walk: Walk,
    rack: &mut R,
    vol: &mut Volume,
) -> Result<Vec<Extent>, Stop>
    requires ready { CanCheck (world (R.seen rack.old) vol.old) }
    ensures ran { Ran (IfKnown (IsWalked checked.entry.listed.now checked.entry.trees.now walk) OfAllTrees)
        (AddsFindingsAnd (IsWalked checked.entry.listed.now checked.entry.trees.now walk) ListExtents
        (λ fs. reference_findings fs ++ found_on_groups fs) found.old found.new result)
        (world (R.seen rack.old) vol.old) (world (R.seen rack.new) vol.new) result }
{
    let places = walk.into_places();
    let begun = put_stored(alloc, found, checked.listed, rack, vol)?;
    put_counted(found, checked.trees, places, begun, rack, vol)
}
