// What a tree of files holds of names.
ghost use Rattle.btr_check_names.specs.Names.{NamesLaw};

use crate::taking::{take_hashed, take_indexed, take_inodes, take_orphans, take_refs};
use crate::{EntryList, InodeAt, LinkList};
use btr_base::{Key, Memory};
use btr_tour::{Met, Visitor};
use std::alloc::Global;
use std::marker::Model;

/// What the items of a tree of files say of names: its inodes, the entries of its directories, the references of its inodes, and the
/// inodes that are kept without a name, in the order of the items. It is a visitor of the tree.
#[derive(Drop)]
pub struct TreeNames {
    pub(crate) tree: u64,
    pub(crate) dirid: u64,
    pub(crate) inodes: Vec<InodeAt>,
    pub(crate) indexed: EntryList,
    pub(crate) hashed: EntryList,
    pub(crate) refs: LinkList,
    pub(crate) orphans: Vec<u64>,
}

impl Model for TreeNames {
    ghost use Rattle.btr_check_names.specs.Names.{Names};

    ghost Value = { Names };

    ghost view = { λ names. record {
      tree = names.tree;
      dirid = names.dirid;
      inodes = names.inodes.items;
      indexed = names.indexed;
      hashed = names.hashed;
      refs = names.refs;
      orphans = names.orphans.items;
    } };
}

impl TreeNames {
    ghost use Rattle.std.specs.Prelude.{◌≡◌, OnOk};
    ghost use Rattle.btr_check_names.specs.Names.{no_names, names_with};

    /// Nothing of the tree of this id is met yet; its first directory has the inode `dirid`.
    pub fn new(alloc: Global, tree: u64, dirid: u64) -> TreeNames
        ensures { result ≡ no_names tree dirid }
    {
        TreeNames {
            tree,
            dirid,
            inodes: Vec::new(alloc),
            indexed: EntryList::new(alloc),
            hashed: EntryList::new(alloc),
            refs: LinkList::new(alloc),
            orphans: Vec::new(alloc),
        }
    }

    /// Keeps what one more item says. `Memory`: there is no memory for it; then nothing is said of what was kept.
    pub fn take(&mut self, key: Key, body: &[u8]) -> Result<(), Memory>
        ensures { OnOk result (self.new ≡ names_with self.old key body.now) }
    {
        take_inodes(&mut self.inodes, key, body)?;
        take_indexed(&mut self.indexed, key, body)?;
        take_hashed(&mut self.hashed, key, body)?;
        take_refs(&mut self.refs, key, body)?;
        take_orphans(&mut self.orphans, key)
    }
}

impl Visitor<Memory> for TreeNames {
    ghost use Rattle.btr_check_names.specs.Names.{names_step};

    ghost step = { names_step };

    fn meet(&mut self, met: &Met<'_>) -> Result<(), Memory> {
        match met {
            Met::Item(found) => self.take(found.key, found.body),
            Met::Block { .. } | Met::Child { .. } | Met::Fault(_) => Ok(()),
        }
    }
}

/// What a visit of a tree leaves is what the tree's items hold, in their order. This function is the law: its contract says it,
/// and its body is empty.
pub fn names_law()
    ensures { NamesLaw }
{}
