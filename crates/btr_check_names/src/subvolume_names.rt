// The names of subvolumes.
ghost use Rattle.std.specs.Prelude.{◌≡◌, ◌∷◌, ◌++◌, [], OnOk};
ghost use Rattle.btr_items.specs.RootRef.{root_ref_of};
ghost use Rattle.btr_check_names.specs.Subvolumes.{names_read, root_refs_in, root_backrefs_in, names_at, SubvolumesLaw};

use crate::{EntryList, SubvolumeList, SubvolumeName, TreeNames, Unpaired};
use btr_base::{Key, Memory};
use btr_items::{RootRef, item};
use btr_tour::{Met, Visitor};
use std::alloc::Global;
use std::marker::Model;

/// The names of subvolumes: those in ROOT_REFs and in ROOT_BACKREFs, in the order of the items, and those of entries of trees of files.
/// It is a visitor of the root tree.
#[derive(Drop)]
pub struct SubvolumeNames {
    pub(crate) refs: SubvolumeList,
    pub(crate) backrefs: SubvolumeList,
    pub(crate) entries: SubvolumeList,
}

impl Model for SubvolumeNames {
    ghost use Rattle.btr_check_names.specs.Subvolumes.{Subvolumes};

    ghost Value = { Subvolumes };

    ghost view = { λ names. record { refs = names.refs; backrefs = names.backrefs; entries = names.entries } };
}

impl SubvolumeNames {
    ghost use Rattle.std.specs.Prelude.{◌≡◌, OnOk};
    ghost use Rattle.btr_check_names.specs.Subvolumes.{no_subvolumes, subvolumes_with, subvolumes_at};

    /// No names are met yet.
    pub fn new(alloc: Global) -> SubvolumeNames
        ensures { result ≡ no_subvolumes }
    {
        SubvolumeNames {
            refs: SubvolumeList::new(alloc),
            backrefs: SubvolumeList::new(alloc),
            entries: SubvolumeList::new(alloc),
        }
    }

    /// Keeps what one more item of the root tree says. `Memory`: there is no memory for it; then nothing is said of what was kept.
    pub fn take(&mut self, key: Key, body: &[u8]) -> Result<(), Memory>
        ensures { OnOk result (self.new ≡ subvolumes_with self.old key body.now) }
    {
        take_root_ref(&mut self.refs, key, body)?;
        take_root_backref(&mut self.backrefs, key, body)
    }

    /// Keeps the entries of a tree of files that lead to subvolumes. `Memory`: there is no memory for them; then nothing is said of what
    /// was kept.
    pub fn take_entries(&mut self, names: &TreeNames) -> Result<(), Memory>
        ensures { OnOk result (self.new ≡ subvolumes_at self.old names.now.tree names.now.indexed) }
    {
        push_entries(&mut self.entries, names.tree, &names.indexed)
    }

    /// Keeps the entries that lead to subvolumes of a tree of files whose names are paired. `Memory`: there is no memory for them; then
    /// nothing is said of what was kept.
    pub fn take_kept(&mut self, tree: u64, names: &Unpaired) -> Result<(), Memory>
        ensures { OnOk result (self.new ≡ subvolumes_at self.old tree names.now.subvolumes) }
    {
        push_entries(&mut self.entries, tree, &names.subvolumes)
    }
}

// Keeps the name in the body of a ROOT_REF or a ROOT_BACKREF.
fn push_name(list: &mut SubvolumeList, parent: u64, child: u64, body: &[u8]) -> Result<(), Memory>
    ensures { OnOk result (list.new ≡ list.old ++ names_read parent child body.now (root_ref_of body.now ∷ [])) }
{
    let Ok(part) = RootRef::read(body) else {
        return Ok(());
    };
    list.push(&SubvolumeName {
        parent,
        dirid: part.dirid,
        index: part.sequence,
        child,
        name: part.name(body),
    })
}

// Keeps the name of an item, if it is a ROOT_REF.
fn take_root_ref(list: &mut SubvolumeList, key: Key, body: &[u8]) -> Result<(), Memory>
    ensures { OnOk result (list.new ≡ list.old ++ root_refs_in key body.now) }
{
    if key.kind != item::ROOT_REF {
        return Ok(());
    }
    push_name(list, key.objectid, key.offset, body)
}

// Keeps the name of an item, if it is a ROOT_BACKREF.
fn take_root_backref(list: &mut SubvolumeList, key: Key, body: &[u8]) -> Result<(), Memory>
    ensures { OnOk result (list.new ≡ list.old ++ root_backrefs_in key body.now) }
{
    if key.kind != item::ROOT_BACKREF {
        return Ok(());
    }
    push_name(list, key.offset, key.objectid, body)
}

// Keeps the names of the entries of a tree that lead to subvolumes.
fn push_entries(list: &mut SubvolumeList, tree: u64, entries: &EntryList) -> Result<(), Memory>
    ensures { OnOk result (list.new ≡ list.old ++ names_at tree entries.now) }
{
    for entry in entries.iter() {
        if entry.target.kind == item::ROOT_ITEM {
            list.push(&SubvolumeName {
                parent: tree,
                dirid: entry.dir,
                index: entry.offset,
                child: entry.target.objectid,
                name: entry.name,
            })?;
        }
    }
    Ok(())
}

impl Visitor<Memory> for SubvolumeNames {
    ghost use Rattle.btr_check_names.specs.Subvolumes.{subvolumes_step};

    ghost step = { subvolumes_step };

    fn meet(&mut self, met: &Met<'_>) -> Result<(), Memory> {
        match met {
            Met::Item(found) => self.take(found.key, found.body),
            Met::Block { .. } | Met::Child { .. } | Met::Fault(_) => Ok(()),
        }
    }
}

/// What a visit of the root tree leaves is what the tree's items hold, in their order. This function is the law: its contract says it,
/// and its body is empty.
pub fn subvolumes_law()
    ensures { SubvolumesLaw }
{}
