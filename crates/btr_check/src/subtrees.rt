// Subtrees that were walked, and are passed where they are met again.
ghost use Rattle.std.specs.Prelude.{◌≡◌, count_by, nat_lt};
ghost use Rattle.btr_volume.specs.declared.root.TreeRoot.{TreeRoot};
ghost use Rattle.btr_check.specs.Filesystem.{is_file_tree};
ghost use Rattle.btr_check.specs.Passing.{edge_of, joined, place_at};

use crate::places::BlockId;
use crate::refusing::is_file_tree;
use crate::walk::FileRange;
use btr_base::{Key, Memory};
use btr_check_differences::same_bound;
use btr_volume::TreeRoot;
use btr_walk::BlockPointer;
use std::alloc::Global;
use std::collections::BTreeMap;

/// The first and the last of some ranges of files.
#[derive(Clone, Copy)]
pub(crate) struct Edges {
    pub(crate) first: FileRange,
    pub(crate) last: FileRange,
}

/// The edges of one range, if there is one.
pub(crate) fn edge_of(range: Option<FileRange>) -> Option<Edges>
    ensures { result ≡ edge_of range }
{
    match range {
        None => None,
        Some(range) => Some(Edges {
            first: range,
            last: range,
        }),
    }
}

/// The edges of some ranges and of those behind them.
pub(crate) fn join(front: Option<Edges>, back: Option<Edges>) -> Option<Edges>
    ensures { result ≡ joined front back }
{
    match (front, back) {
        (None, back) => back,
        (Some(front), None) => Some(front),
        (Some(front), Some(back)) => Some(Edges {
            first: front.first,
            last: back.last,
        }),
    }
}

/// What is kept of a subtree: the keys that bound it, and the ranges of files at its edges.
#[derive(Clone, Copy)]
pub(crate) struct Subtree {
    first: Option<Key>,
    up: Option<Key>,
    edges: Option<Edges>,
}

/// Subtrees that were walked and have nothing wrong, by the places of their highest blocks.
#[derive(Drop)]
pub(crate) struct Subtrees {
    // Whether there are trees that may share blocks, and the one that is walked is one of these.
    shares: bool,
    keeps: bool,
    known: BTreeMap<BlockId, Subtree>,
}

// Where the block of a level at a pointer stands.
fn place_at(level: u8, pointer: &BlockPointer) -> BlockId
    ensures { result ≡ place_at level pointer.now }
{
    BlockId {
        addr: pointer.addr,
        generation: pointer.generation,
        level,
    }
}

// Whether two trees may share blocks: two of files.
fn may_share(trees: &[TreeRoot]) -> bool
    ensures { result ≡ nat_lt 1 (count_by (λ (tree : TreeRoot). is_file_tree tree.id) trees.now) }
{
    trees.iter().filter(|tree| is_file_tree(tree.id)).count() > 1
}

impl Subtrees {
    ghost use Rattle.std.specs.Prelude.{◌≡◌, ◌&&◌, [], OnOk, MatchOption};
    ghost use Rattle.btr_check.specs.Filesystem.{is_file_tree};
    ghost use Rattle.btr_check.specs.Passing.{IsSubtreeKept, kept_if};

    /// None of these trees was walked yet.
    pub(crate) fn new(alloc: Global, trees: &[TreeRoot]) -> Subtrees
        ensures { result.known.entries ≡ [] }
    {
        Subtrees {
            shares: may_share(trees),
            keeps: false,
            known: BTreeMap::new(alloc),
        }
    }

    /// The tree of an id begins: subtrees are kept where it may share blocks with another.
    pub(crate) fn begin(&mut self, id: u64)
        ensures known { self.new.known ≡ self.old.known }
        ensures keeps { self.new.keeps ≡ (self.old.shares && is_file_tree id) }
    {
        self.keeps = self.shares && is_file_tree(id);
    }

    /// The edges of the subtree below the block of a level at a pointer, if it is kept with its bounds.
    pub(crate) fn find(&self, level: u8, pointer: &BlockPointer) -> Option<Option<Edges>>
        ensures { MatchOption result
            ((edges : _) → IsSubtreeKept self.now.known.entries level pointer.now edges → ⊥)
            (IsSubtreeKept self.now.known.entries level pointer.now) }
    {
        match self.known.get(&place_at(level, pointer)) {
            None => None,
            Some(kept) => {
                if same_bound(kept.first, pointer.first) && same_bound(kept.up, pointer.up) {
                    Some(kept.edges)
                } else {
                    None
                }
            }
        }
    }

    /// Keeps the subtree below the block of a level at a pointer, in place of one with other bounds,
    /// where subtrees are kept and it is sound. `Memory`: there is no memory for it.
    pub(crate) fn keep(
        &mut self,
        level: u8,
        pointer: &BlockPointer,
        edges: Option<Edges>,
        sound: bool,
    ) -> Result<(), Memory>
        ensures { OnOk result
            (self.new.known.entries
            ≡ kept_if (self.old.keeps && sound) self.old.known.entries level pointer.now edges) }
    {
        if !self.keeps || !sound {
            return Ok(());
        }
        let subtree = Subtree {
            first: pointer.first,
            up: pointer.up,
            edges,
        };
        match self.known.insert(place_at(level, pointer), subtree) {
            Ok(_) => Ok(()),
            Err(_) => Err(Memory),
        }
    }
}
