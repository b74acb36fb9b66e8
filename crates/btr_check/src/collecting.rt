// What visits of trees collect.
ghost use Rattle.std.specs.Prelude.{◌≡◌, fold, option_to_list};
ghost use Rattle.btr_check.specs.Counting.{Unless};
ghost use Rattle.btr_check.specs.Passes.{marks_if, or_memory};
ghost use Rattle.btr_check.specs.Running.{world, CanCheck, Ran};
ghost use Rattle.btr_check.specs.Wanted.{OfTrees};

use crate::visiting::visit_tree;
use btr_base::Memory;
use btr_rack::Rack;
use btr_tour::Visitor;
use btr_volume::{Stop, TreeRoot, Volume};

/// What a visit of a tree leaves of a visitor; where there is no tree, nothing is met.
pub(crate) fn collect<R: Rack, V: Visitor<Memory> + Drop>(
    tree: Option<TreeRoot>,
    mut visitor: V,
    rack: &mut R,
    vol: &mut Volume,
) -> Result<V, Stop>
    requires ready { CanCheck (world (R.seen rack.old) vol.old) }
    ensures ran { Ran (OfTrees (option_to_list tree))
        (λ fs. Unless (λ met. met ≡ fold V.step visitor (marks_if fs.blocks tree)) result)
        (world (R.seen rack.old) vol.old) (world (R.seen rack.new) vol.new) result }
{
    let Some(tree) = tree else {
        return Ok(visitor);
    };
    visit_tree(&tree.place, &mut visitor, rack, vol)?;
    Ok(visitor)
}

/// How a call ends that may want memory.
pub(crate) fn or_memory(done: Result<(), Memory>) -> Result<(), Stop>
    ensures { result ≡ or_memory done }
{
    match done {
        Ok(()) => Ok(()),
        Err(Memory) => Err(Stop::Memory),
    }
}
