// What the extent tree and the tree that has the block groups say.
ghost use Rattle.std.specs.Prelude.{◌≡◌, ◌++◌, fold, option_to_list};
ghost use Rattle.btr_check.specs.Counting.{Unless};
ghost use Rattle.btr_check.specs.ExtentTree.{AreCollected};
ghost use Rattle.btr_check.specs.Passes.{Lists, ListsSound, marks_if};
ghost use Rattle.btr_check.specs.Running.{world, CanCheck, Ran};
ghost use Rattle.btr_check.specs.Wanted.{IfKnown, OfAllTrees, OfTrees};

use crate::collecting::collect;
use crate::refusing::{EXTENT_TREE, last_of};
use btr_base::Memory;
use btr_check_space::{Groups, collects_law};
use btr_rack::Rack;
use btr_refs::{Stored, stored_law};
use btr_tour::{Both, Visitor};
use btr_volume::{Stop, TreeRoot, Volume};
use std::alloc::Global;

const GROUP_TREE: u64 = 11;

// What a visit of a tree each leaves of two visitors.
fn collect_each<R: Rack, A: Visitor<Memory> + Drop, B: Visitor<Memory> + Drop>(
    first: Option<TreeRoot>,
    second: Option<TreeRoot>,
    both: Both<A, B>,
    rack: &mut R,
    vol: &mut Volume,
) -> Result<Both<A, B>, Stop>
    requires ready { CanCheck (world (R.seen rack.old) vol.old) }
    ensures ran { Ran (OfTrees (option_to_list first ++ option_to_list second))
        (λ fs. Unless (λ met. met ≡ record {
          first = fold A.step both.first (marks_if fs.blocks first);
          second = fold B.step both.second (marks_if fs.blocks second);
        }) result)
        (world (R.seen rack.old) vol.old) (world (R.seen rack.new) vol.new) result }
{
    let first = collect(first, both.first, rack, vol)?;
    let second = collect(second, both.second, rack, vol)?;
    Ok(Both { first, second })
}

/// Collects what the extent tree stores, and the block groups: in one visit, unless block groups have a tree of their own. These are the
/// listed trees, after a walk of all trees that found nothing.
///
/// `Tree`: a block could not be read, which is `Unread`. `Memory`: there is no memory for what is collected.
pub(crate) fn read_extents<R: Rack>(
    alloc: Global,
    listed: &[TreeRoot],
    rack: &mut R,
    vol: &mut Volume,
) -> Result<Both<Stored, Groups>, Stop>
    requires ready { CanCheck (world (R.seen rack.old) vol.old) }
    ensures ran { Ran (IfKnown (Lists listed.now) OfAllTrees)
        (λ fs. ListsSound listed.now fs → Unless (AreCollected fs) result)
        (world (R.seen rack.old) vol.old) (world (R.seen rack.new) vol.new) result }
{
    stored_law();
    collects_law();
    let both = Both {
        first: Stored::new(alloc, u64::from(vol.sup.nodesize)),
        second: Groups::new(alloc),
    };
    let extents = last_of(listed, EXTENT_TREE);
    match last_of(listed, GROUP_TREE) {
        None => collect(extents, both, rack, vol),
        Some(groups) => collect_each(extents, Some(groups), both, rack, vol),
    }
}
