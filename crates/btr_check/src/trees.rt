// The trees of a filesystem.
ghost use Rattle.std.specs.Prelude.{◌≡◌, ◌∷◌, ◌++◌, [], None, IfOk, OnOk};
ghost use Rattle.btr_check.specs.Before.{refusal};
ghost use Rattle.btr_check.specs.Running.{world, CanCheck, Answers, Ran};
ghost use Rattle.btr_check.specs.Trees.{root_tree, chunk_tree, listed};
ghost use Rattle.btr_check.specs.Walking.{RootEnds};
ghost use Rattle.btr_check.specs.Wanted.{OfAllTrees};

use crate::form::kind_of;
use crate::refusing::refusal_in;
use crate::root_walk::RootWalk;
use crate::visiting::visit_tree;
use btr_base::Memory;
use btr_rack::Rack;
use btr_super::Super;
use btr_volume::{Stop, TreeRoot, Volume, chunk_root, named_root, root_root};
use std::alloc::Global;

pub(crate) const ROOT_TREE: u64 = 1;

pub(crate) const CHUNK_TREE: u64 = 3;

// The trees that the root tree lists, where nothing is wrong with it.
fn walk_root<R: Rack>(alloc: Global, rack: &mut R, vol: &mut Volume) -> Result<Vec<TreeRoot>, Stop>
    requires ready { CanCheck (world (R.seen rack.old) vol.old) }
    ensures ran { Ran OfAllTrees
        (λ fs. RootEnds fs result)
        (world (R.seen rack.old) vol.old) (world (R.seen rack.new) vol.new) result }
{
    let mut walk = RootWalk::new(alloc, kind_of(&vol.sup));
    let root = root_root(&vol.sup);
    visit_tree(&root, &mut walk, rack, vol)?;
    match walk.end() {
        Ok(trees) => Ok(trees),
        Err(fault) => Err(fault.stop()),
    }
}

/// The trees that the root tree lists, in the order of its items. Four slots are free.
///
/// `Tree`: a block of the root tree could not be read, which is `Unread`; or it is `Lost`, `Unmapped`, `Crosses` or `Malformed`, or an item
/// of the root tree hasn't its form, which is `Malformed` of its leaf: the first of these on the way through the tree. Then come, by the
/// list, `Balance` and `Deletion`, in the order of the items: a balance is pending, or the deletion of a tree of files. `NoTree`:
/// there is no extent tree, 2, or no device tree, 4. `Memory`: there is no memory for the list.
pub fn read_trees<R: Rack>(
    alloc: Global,
    rack: &mut R,
    vol: &mut Volume,
) -> Result<Vec<TreeRoot>, Stop>
    requires ready { CanCheck (world (R.seen rack.old) vol.old) }
    ensures ran { Ran OfAllTrees
        (λ fs. Answers
        (λ trees. (refusal fs ≡ None) × (trees.items ≡ listed fs.sup fs.blocks)) fs result)
        (world (R.seen rack.old) vol.old) (world (R.seen rack.new) vol.new) result }
{
    let trees = walk_root(alloc, rack, vol)?;
    match refusal_in(&trees) {
        Some(stop) => Err(stop),
        None => Ok(trees),
    }
}

// Puts a tree behind others.
pub(crate) fn push_tree(trees: &mut Vec<TreeRoot>, tree: TreeRoot) -> Result<(), Memory>
    ensures { OnOk result (trees.new.items ≡ trees.old.items ++ tree ∷ []) }
{
    match trees.push(tree) {
        Ok(()) => Ok(()),
        Err(_) => Err(Memory),
    }
}

/// All trees: the chunk tree, the root tree, and those that the root tree lists. `Memory`: there is no memory for the list.
pub fn all_trees(alloc: Global, sup: &Super, listed: &[TreeRoot]) -> Result<Vec<TreeRoot>, Memory>
    ensures { IfOk result (λ trees. trees.items ≡ chunk_tree sup.now ∷ root_tree sup.now ∷ listed.now) }
{
    let mut trees = Vec::new(alloc);
    push_tree(&mut trees, named_root(CHUNK_TREE, chunk_root(sup)))?;
    push_tree(&mut trees, named_root(ROOT_TREE, root_root(sup)))?;
    match trees.extend_from_slice(listed) {
        Ok(()) => Ok(trees),
        Err(_) => Err(Memory),
    }
}
