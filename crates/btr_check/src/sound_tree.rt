// Trees of files in which nothing is wrong.
ghost use Rattle.std.specs.Prelude.{◌≡◌, IfOk, IsTrue, OnOk};
ghost use Rattle.btr_check.specs.Filesystem.{Filesystem};
ghost use Rattle.btr_check.specs.Running.{world, CanCheck, Ran};
ghost use Rattle.btr_check.specs.Counting.{Unless};
ghost use Rattle.btr_check.specs.SoundTrees.{AreBelow, AreKept, IsKeptOf, IsLike, PassesTree};
ghost use Rattle.btr_check.specs.Wanted.{OfTree};

use crate::form::kind_of;
use crate::opening::{Opened, open_block};
use crate::walk::Walk;
use btr_base::Memory;
use btr_check_differences::same_pointer;
use btr_check_names::{SubvolumeNames, Unpaired};
use btr_findings::push;
use btr_rack::Rack;
use btr_volume::{Stop, TreeRoot, Volume};
use btr_walk::BlockPointer;
use std::alloc::Global;

/// A tree of files, and where the blocks below its root stand: none of these where the root is a leaf.
#[derive(Drop)]
pub(crate) struct RootedTree {
    pub(crate) tree: TreeRoot,
    pub(crate) children: Vec<BlockPointer>,
}

/// A tree of files in which nothing is wrong, what a visit left of its names: those of subvolumes, and whether none of its items is an orphan's.
#[derive(Drop)]
pub(crate) struct SoundTree {
    pub(crate) rooted: RootedTree,
    pub(crate) names: Unpaired,
    pub(crate) is_plain: bool,
}

// So many sound trees are kept.
const MOST: usize = 16;

// Whether a block is among some.
fn is_among(pointer: &BlockPointer, others: &[BlockPointer]) -> bool {
    for other in others {
        if same_pointer(pointer, other) {
            return true;
        }
    }
    false
}

/// Whether two lists of blocks have one in common.
pub(crate) fn share_one(some: &[BlockPointer], others: &[BlockPointer]) -> bool {
    for pointer in some {
        if is_among(pointer, others) {
            return true;
        }
    }
    false
}

// Whether blocks stand at the same pointers, in the same order.
#[tactic(auto, using(crate::proofs::SoundTrees::pointers_more, crate::proofs::SoundTrees::pointers_all))]
fn same_pointers(some: &[BlockPointer], others: &[BlockPointer]) -> bool
    ensures { IsTrue result → some.now ≡ others.now }
{
    if some.len() != others.len() {
        return false;
    }
    for at in 0..some.len() {
        if !same_pointer(&some[at], &others[at]) {
            return false;
        }
    }
    true
}

// Whether a tree has the same blocks below its root as a sound one, and the same first directory.
fn is_like(sound: &SoundTree, rooted: &RootedTree) -> bool
    ensures { IsTrue result → IsLike sound.now rooted.now }
{
    sound.rooted.tree.place.level == rooted.tree.place.level
        && sound.rooted.tree.dirid == rooted.tree.dirid
        && same_pointers(sound.rooted.children.as_slice(), rooted.children.as_slice())
}

/// Passes a tree that has the same blocks below its root as a sound one: nothing is wrong with it either, and its names of subvolumes are kept.
/// The answer is whether it was passed. `Memory`: there is no memory for the names.
pub(crate) fn pass_like(
    sound: &[SoundTree],
    rooted: &RootedTree,
    subvolumes: &mut SubvolumeNames,
) -> Result<bool, Memory>
    ensures { IfOk result (PassesTree sound.now rooted.now subvolumes.old subvolumes.new) }
{
    let children = rooted.children.as_slice();
    if children.is_empty() {
        return Ok(false);
    }
    for one in sound {
        if is_like(one, rooted) {
            subvolumes.take_kept(rooted.tree.id, &one.names)?;
            return Ok(true);
        }
    }
    Ok(false)
}

// Makes room for one more: the first one goes where these are many.
fn make_room(sound: &mut Vec<SoundTree>)
    ensures { (fs : Filesystem) → AreKept fs sound.old.items → AreKept fs sound.new.items }
{
    if sound.len() >= MOST {
        let _first = sound.remove(0);
    }
}

/// Keeps a sound tree, in place of the first of those that are kept where these are many. `Memory`: there is no memory for it.
pub(crate) fn keep_sound(sound: &mut Vec<SoundTree>, one: SoundTree) -> Result<(), Memory>
    ensures { OnOk result ((fs : Filesystem) → IsKeptOf fs one → AreKept fs sound.old.items → AreKept fs sound.new.items) }
{
    make_room(sound);
    push(sound, one)
}

/// Where the blocks below the root of a tree stand. Four slots are free, and no loan is kept.
///
/// `Tree`: the root could not be read, which is `Unread`. `Memory`: there is no memory for the list.
pub(crate) fn read_rooted<R: Rack>(
    alloc: Global,
    tree: &TreeRoot,
    rack: &mut R,
    vol: &mut Volume,
) -> Result<RootedTree, Stop>
    requires ready { CanCheck (world (R.seen rack.old) vol.old) }
    ensures tree { IfOk result (λ rooted. rooted.tree ≡ tree.now) }
    ensures ran { Ran (OfTree tree.now.place)
        (λ fs. Unless (λ rooted. AreBelow fs tree.now rooted.children.items) result)
        (world (R.seen rack.old) vol.old) (world (R.seen rack.new) vol.new) result }
{
    let pointer = BlockPointer {
        addr: tree.place.addr,
        generation: tree.place.generation,
        first: None,
        up: None,
    };
    let mut walk = Walk::new(alloc, kind_of(&vol.sup));
    match open_block(tree.place.level, &pointer, &mut walk, rack, vol)? {
        Opened::Whole(_) => Ok(RootedTree {
            tree: *tree,
            children: Vec::new(alloc),
        }),
        Opened::Children(children) => Ok(RootedTree {
            tree: *tree,
            children,
        }),
    }
}
