// The walk of the root tree.
ghost use Rattle.std.specs.Prelude.{◌≡◌, ◌++◌, OnOk};
ghost use Rattle.std.specs.Option.{option_to_list};
ghost use Rattle.btr_check.specs.Trees.{tree_in};
ghost use Rattle.btr_check.specs.Walking.{or_first};

use crate::block_fault::BlockFault;
use crate::form::broken_in;
use btr_base::{Key, Memory, SumKind};
use btr_items::{ItemFault, item};
use btr_tour::{Met, Visitor};
use btr_volume::{TreeRoot, root_at};
use std::alloc::Global;
use std::marker::Model;

/// What is kept of the root tree: what is wrong with it first, and the trees that it lists.
#[derive(Drop)]
pub(crate) struct RootWalk {
    alloc: Global,
    kind: SumKind,
    wrong: Option<BlockFault>,
    trees: Vec<TreeRoot>,
}

impl Model for RootWalk {
    ghost use Rattle.btr_check.specs.Walking.{RootSeen};

    ghost Value = { RootSeen };

    ghost view = { λ walk. record { kind = walk.kind; wrong = walk.wrong; trees = walk.trees.items } };
}

impl RootWalk {
    ghost use Rattle.std.specs.Prelude.{◌≡◌};
    ghost use Rattle.btr_check.specs.Walking.{FindsTrees, nothing_seen};

    /// Nothing was met yet. Checksums are of this kind.
    pub(crate) fn new(alloc: Global, kind: SumKind) -> RootWalk
        ensures { result ≡ nothing_seen kind }
    {
        RootWalk {
            alloc,
            kind,
            wrong: None,
            trees: Vec::new(alloc),
        }
    }

    /// The trees, or what is wrong first.
    pub(crate) fn end(self) -> Result<Vec<TreeRoot>, BlockFault>
        ensures { FindsTrees self result }
    {
        match self.wrong {
            Some(fault) => Err(fault),
            None => Ok(self.trees),
        }
    }
}

// Keeps the first thing that is wrong.
fn note(wrong: &mut Option<BlockFault>, fault: Option<BlockFault>)
    ensures { wrong.new ≡ or_first wrong.old fault }
{
    if wrong.is_none() {
        *wrong = fault;
    }
}

// The tree that an item describes.
fn tree_in(key: Key, body: &[u8]) -> Option<TreeRoot>
    ensures { result ≡ tree_in key body.now }
{
    if key.kind != item::ROOT_ITEM {
        return None;
    }
    match root_at(key, body) {
        Ok(root) => Some(root),
        Err(ItemFault) => None,
    }
}

// Lists the tree that an item describes.
fn list_tree(trees: &mut Vec<TreeRoot>, key: Key, body: &[u8]) -> Result<(), Memory>
    ensures { OnOk result (trees.new.items ≡ trees.old.items ++ option_to_list (tree_in key body.now)) }
{
    let Some(tree) = tree_in(key, body) else {
        return Ok(());
    };
    match trees.push(tree) {
        Ok(()) => Ok(()),
        Err(_) => Err(Memory),
    }
}

impl Visitor<Memory> for RootWalk {
    ghost use Rattle.btr_check.specs.Walking.{root_step};

    ghost step = { root_step };

    fn meet(&mut self, met: &Met<'_>) -> Result<(), Memory> {
        match met {
            Met::Block { .. } | Met::Child { .. } => Ok(()),
            Met::Fault(fault) => {
                note(&mut self.wrong, BlockFault::of(*fault));
                Ok(())
            }
            Met::Item(found) => {
                note(&mut self.wrong, broken_in(self.alloc, self.kind, found)?);
                list_tree(&mut self.trees, found.key, found.body)
            }
        }
    }
}
