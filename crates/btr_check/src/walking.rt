// The walk of all trees.
ghost use Rattle.std.specs.Prelude.{◌∷◌, ◌++◌, [], ℕ, List, OnOk, IfOk};
ghost use Rattle.btr_volume.specs.declared.root.TreeRoot.{TreeRoot};
ghost use Rattle.btr_check.specs.Passing.{Keeps, Knows, Passes, Walks, children_marks};
ghost use Rattle.btr_check.specs.Passing.{subtree_marks};
ghost use Rattle.btr_check.specs.Running.{world, CanCheck, Ran, StopsOutside};
ghost use Rattle.btr_check.specs.Walking.{HasWalked, IsWalkOf};
ghost use Rattle.btr_check.specs.Wanted.{OfSubtree, OfSubtrees, OfTree, OfTrees};

use crate::form::kind_of;
use crate::opening::{Opened, open_block};
use crate::refusing::is_file_tree;
use crate::subtrees::{Edges, Subtrees, join};
use crate::walk::Walk;
use btr_base::Memory;
use btr_rack::Rack;
use btr_volume::{Stop, TreeRoot, Volume};
use btr_walk::BlockPointer;
use std::alloc::Global;

// Passes a subtree that was walked before.
fn pass(walk: &mut Walk, edges: Option<Edges>) -> Result<Option<Edges>, Stop>
    ensures { Passes walk.old edges walk.new result }
{
    match walk.pass(edges) {
        Ok(()) => Ok(edges),
        Err(Memory) => Err(Stop::Memory),
    }
}

// Keeps a subtree that was walked, where nothing was found so far.
fn keep(
    level: u8,
    pointer: &BlockPointer,
    edges: Option<Edges>,
    walk: &Walk,
    subtrees: &mut Subtrees,
) -> Result<Option<Edges>, Stop>
    ensures { Keeps subtrees.old.keeps level pointer.now edges walk.now
        subtrees.old.known.entries subtrees.new.known.entries result }
{
    match subtrees.keep(level, pointer, edges, walk.is_sound()) {
        Ok(()) => Ok(edges),
        Err(Memory) => Err(Stop::Memory),
    }
}

// Walks what is below the block of a level at a pointer: passes it where it was walked before with the
// same bounds.
#[cycle(walking)]
fn walk_block<R: Rack>(
    level: u8,
    pointer: &BlockPointer,
    walk: &mut Walk,
    subtrees: &mut Subtrees,
    rack: &mut R,
    vol: &mut Volume,
) -> Result<Option<Edges>, Stop>
    requires ready { CanCheck (world (R.seen rack.old) vol.old) }
    ensures outside { StopsOutside result }
    ensures ran { Ran (OfSubtree level pointer.now)
        (λ fs. Walks fs (subtree_marks fs level pointer.now) walk.old walk.new
        subtrees.old.known.entries subtrees.new.known.entries result)
        (world (R.seen rack.old) vol.old) (world (R.seen rack.new) vol.new) result }
{
    if let Some(edges) = subtrees.find(level, pointer) {
        return pass(walk, edges);
    }
    let edges = walk_below(level, pointer, walk, subtrees, rack, vol)?;
    keep(level, pointer, edges, walk, subtrees)
}

// The same of one that wasn't walked before.
#[cycle(walking)]
fn walk_below<R: Rack>(
    level: u8,
    pointer: &BlockPointer,
    walk: &mut Walk,
    subtrees: &mut Subtrees,
    rack: &mut R,
    vol: &mut Volume,
) -> Result<Option<Edges>, Stop>
    requires ready { CanCheck (world (R.seen rack.old) vol.old) }
    ensures outside { StopsOutside result }
    ensures ran { Ran (OfSubtree level pointer.now)
        (λ fs. Walks fs (subtree_marks fs level pointer.now) walk.old walk.new
        subtrees.old.known.entries subtrees.new.known.entries result)
        (world (R.seen rack.old) vol.old) (world (R.seen rack.new) vol.new) result }
{
    match open_block(level, pointer, walk, rack, vol)? {
        Opened::Whole(edges) => Ok(edges),
        Opened::Children(block_pointers) => {
            walk_children(
                level - 1,
                block_pointers.as_slice(),
                walk,
                subtrees,
                rack,
                vol,
            )
        }
    }
}

// Walks what is below the children of a node, which are blocks of this level.
#[cycle(walking)]
fn walk_children<R: Rack>(
    level: u8,
    block_pointers: &[BlockPointer],
    walk: &mut Walk,
    subtrees: &mut Subtrees,
    rack: &mut R,
    vol: &mut Volume,
) -> Result<Option<Edges>, Stop>
    requires ready { CanCheck (world (R.seen rack.old) vol.old) }
    ensures outside { StopsOutside result }
    ensures ran { Ran (OfSubtrees level block_pointers.now)
        (λ fs. (addr : ℕ) → Walks fs (children_marks fs addr level block_pointers.now)
        walk.old walk.new subtrees.old.known.entries subtrees.new.known.entries result)
        (world (R.seen rack.old) vol.old) (world (R.seen rack.new) vol.new) result }
{
    let mut edges = None;
    for pointer in block_pointers {
        let more = walk_block(level, pointer, walk, subtrees, rack, vol)?;
        edges = join(edges, more);
    }
    Ok(edges)
}

// Walks one tree more.
fn walk_tree<R: Rack>(
    tree: &TreeRoot,
    walk: &mut Walk,
    subtrees: &mut Subtrees,
    rack: &mut R,
    vol: &mut Volume,
) -> Result<(), Stop>
    requires ready { CanCheck (world (R.seen rack.old) vol.old) }
    ensures outside { StopsOutside result }
    ensures ran { Ran (OfTree tree.now.place)
        (λ fs. (before : List TreeRoot) → HasWalked fs before walk.old
        → Knows fs walk.old subtrees.old.known.entries
        → OnOk result (HasWalked fs (before ++ tree.now ∷ []) walk.new
        × Knows fs walk.new subtrees.new.known.entries))
        (world (R.seen rack.old) vol.old) (world (R.seen rack.new) vol.new) result }
{
    walk.begin();
    subtrees.begin(tree.id);
    let pointer = BlockPointer {
        addr: tree.place.addr,
        generation: tree.place.generation,
        first: None,
        up: None,
    };
    walk_block(tree.place.level, &pointer, walk, subtrees, rack, vol)?;
    Ok(())
}

// Walks trees, one after another.
fn walk_more<R: Rack>(
    trees: &[TreeRoot],
    walk: &mut Walk,
    subtrees: &mut Subtrees,
    rack: &mut R,
    vol: &mut Volume,
) -> Result<(), Stop>
    requires ready { CanCheck (world (R.seen rack.old) vol.old) }
    ensures outside { StopsOutside result }
    ensures ran { Ran (OfTrees trees.now)
        (λ fs. HasWalked fs [] walk.old → Knows fs walk.old subtrees.old.known.entries
        → OnOk result (HasWalked fs trees.now walk.new
        × Knows fs walk.new subtrees.new.known.entries))
        (world (R.seen rack.old) vol.old) (world (R.seen rack.new) vol.new) result }
{
    for tree in trees {
        walk_tree(tree, walk, subtrees, rack, vol)?;
    }
    Ok(())
}

/// Walks all these trees, and goes on behind faults. Four slots are free. Where nothing is wrong
/// with what is below a block, that is walked once, and passed where another tree reaches it with
/// the same bounds.
///
/// `Tree`: a block could not be read, which is `Unread`. `Memory`: there is no memory for what is
/// kept.
pub fn walk_trees<R: Rack>(
    alloc: Global,
    trees: &[TreeRoot],
    rack: &mut R,
    vol: &mut Volume,
) -> Result<Walk, Stop>
    requires ready { CanCheck (world (R.seen rack.old) vol.old) }
    ensures outside { StopsOutside result }
    ensures ran { Ran (OfTrees trees.now)
        (λ fs. IfOk result (IsWalkOf fs trees.now))
        (world (R.seen rack.old) vol.old) (world (R.seen rack.new) vol.new) result }
{
    let mut walk = Walk::new(alloc, kind_of(&vol.sup));
    let mut subtrees = Subtrees::new(alloc, trees);
    walk_more(trees, &mut walk, &mut subtrees, rack, vol)?;
    Ok(walk)
}
