// Whether a filesystem is checked.
ghost use Rattle.std.specs.Prelude.{◌≡◌, ◌==◌, filter_map, IfSome};
ghost use Rattle.btr_check.specs.Before.{pending, list_refusals, first_of, OfList};
ghost use Rattle.btr_check.specs.Filesystem.{is_file_tree};
ghost use Rattle.btr_check.specs.Trees.{last_of};
ghost use Rattle.btr_check.specs.Walking.{or_first};

use btr_volume::{Stop, TreeRoot};

// The tree that is there while a balance is pending.
const BALANCE_TREE: u64 = u64::MAX - 7;

const FILE_TREE: u64 = 5;

// The first and the last id of subvolumes.
const FIRST_SUBVOLUME: u64 = 256;

const LAST_SUBVOLUME: u64 = u64::MAX - 255;

pub(crate) const EXTENT_TREE: u64 = 2;

pub(crate) const DEVICE_TREE: u64 = 4;

/// Whether the tree of an id is a tree of files.
pub(crate) fn is_file_tree(id: u64) -> bool
    ensures { result ≡ is_file_tree id }
{
    id == FILE_TREE || FIRST_SUBVOLUME <= id && id <= LAST_SUBVOLUME
}

// Why a filesystem with this tree isn't checked, if so.
fn pending(tree: &TreeRoot) -> Option<Stop>
    ensures value { result ≡ pending tree.now }
    ensures listed { IfSome result OfList }
{
    if tree.id == BALANCE_TREE {
        Some(Stop::Balance)
    } else if tree.refs == 0 && is_file_tree(tree.id) {
        Some(Stop::Deletion(tree.id))
    } else {
        None
    }
}

// The first of two reasons, if there is one.
fn first_of_two(first: Option<Stop>, second: Option<Stop>) -> Option<Stop>
    ensures { result ≡ or_first first second }
{
    match first {
        None => second,
        Some(stop) => Some(stop),
    }
}

// The first of some trees for which a filesystem isn't checked.
fn first_pending(trees: &[TreeRoot]) -> Option<Stop>
    ensures value { result ≡ first_of (filter_map pending trees.now) }
    ensures listed { IfSome result OfList }
{
    let mut first = None;
    for tree in trees {
        first = first_of_two(first, pending(tree));
    }
    first
}

/// The tree of an id, the last one in the list.
pub(crate) fn last_of(trees: &[TreeRoot], id: u64) -> Option<TreeRoot>
    ensures { result ≡ last_of id trees.now }
{
    let mut last = None;
    for tree in trees {
        last = if tree.id == id { Some(*tree) } else { last };
    }
    last
}

/// Why a filesystem with these trees isn't checked, if so.
pub(crate) fn refusal_in(trees: &[TreeRoot]) -> Option<Stop>
    ensures value { result ≡ first_of (list_refusals trees.now) }
    ensures listed { IfSome result OfList }
{
    if let Some(stop) = first_pending(trees) {
        return Some(stop);
    }
    if last_of(trees, EXTENT_TREE).is_none() {
        return Some(Stop::NoTree(EXTENT_TREE));
    }
    if last_of(trees, DEVICE_TREE).is_none() {
        return Some(Stop::NoTree(DEVICE_TREE));
    }
    None
}
