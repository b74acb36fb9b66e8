// What items of a tree of files say of names.
ghost use Rattle.std.specs.Prelude.{◌≡◌, ◌∷◌, ◌++◌, [], OnOk};
ghost use Rattle.btr_items.specs.Entry.{entries_of, index_entry_of};
ghost use Rattle.btr_items.specs.ExtRef.{ext_refs_of};
ghost use Rattle.btr_items.specs.Form.{HasName};
ghost use Rattle.btr_items.specs.Inode.{inode_of};
ghost use Rattle.btr_items.specs.InodeRef.{inode_refs_of};
ghost use Rattle.btr_check_names.specs.Items.{entry_with, entries_read, ref_with, refs_read, ext_ref_with, ext_refs_read, inodes_read};
ghost use Rattle.btr_check_names.specs.Items.{indexed_in, hashed_in, refs_in, inodes_in, orphans_in};

use crate::parts::{entry_in, ext_ref_in, ref_in};
use crate::{EntryList, InodeAt, LinkList};
use btr_base::{Key, Memory};
use btr_items::{Entry, ExtRef, Inode, InodeRef, entries, ext_refs, inode_refs, item};

// Keeps an entry in the body of an item.
fn push_entry(list: &mut EntryList, key: Key, body: &[u8], entry: &Entry) -> Result<(), Memory>
    requires { HasName body.now entry.now.name_at entry.now.name_len }
    ensures { OnOk result (list.new ≡ list.old ++ entry_with key body.now entry.now ∷ []) }
{
    list.push(&entry_in(key, body, entry))
}

// Keeps the entry in the body of a DIR_INDEX.
fn take_index(list: &mut EntryList, key: Key, body: &[u8]) -> Result<(), Memory>
    ensures { OnOk result (list.new ≡ list.old ++ entries_read key body.now (index_entry_of body.now ∷ [])) }
{
    match Entry::index(body) {
        Ok(entry) => push_entry(list, key, body, &entry),
        Err(_) => Ok(()),
    }
}

// Keeps the entries in the body of a DIR_ITEM.
fn take_entries(list: &mut EntryList, key: Key, body: &[u8]) -> Result<(), Memory>
    ensures { OnOk result (list.new ≡ list.old ++ entries_read key body.now (entries_of body.now)) }
{
    for entry in entries(body) {
        match entry {
            Ok(entry) => push_entry(list, key, body, &entry)?,
            Err(_) => {}
        }
    }
    Ok(())
}

// Keeps a reference in the body of an INODE_REF.
fn push_ref(list: &mut LinkList, key: Key, body: &[u8], part: &InodeRef) -> Result<(), Memory>
    requires { HasName body.now part.now.name_at part.now.name_len }
    ensures { OnOk result (list.new ≡ list.old ++ ref_with key body.now part.now ∷ []) }
{
    list.push(&ref_in(key, body, part))
}

// Keeps the references in the body of an INODE_REF.
fn take_inode_refs(list: &mut LinkList, key: Key, body: &[u8]) -> Result<(), Memory>
    ensures { OnOk result (list.new ≡ list.old ++ refs_read key body.now (inode_refs_of body.now)) }
{
    for part in inode_refs(body) {
        match part {
            Ok(part) => push_ref(list, key, body, &part)?,
            Err(_) => {}
        }
    }
    Ok(())
}

// Keeps a reference in the body of an INODE_EXTREF.
fn push_ext_ref(list: &mut LinkList, key: Key, body: &[u8], part: &ExtRef) -> Result<(), Memory>
    requires { HasName body.now part.now.name_at part.now.name_len }
    ensures { OnOk result (list.new ≡ list.old ++ ext_ref_with key body.now part.now ∷ []) }
{
    list.push(&ext_ref_in(key, body, part))
}

// Keeps the references in the body of an INODE_EXTREF.
fn take_ext_refs(list: &mut LinkList, key: Key, body: &[u8]) -> Result<(), Memory>
    ensures { OnOk result (list.new ≡ list.old ++ ext_refs_read key body.now (ext_refs_of body.now)) }
{
    for part in ext_refs(body) {
        match part {
            Ok(part) => push_ext_ref(list, key, body, &part)?,
            Err(_) => {}
        }
    }
    Ok(())
}

// Keeps the inode in the body of an INODE_ITEM.
fn take_inode(inodes: &mut Vec<InodeAt>, key: Key, body: &[u8]) -> Result<(), Memory>
    ensures { OnOk result (inodes.new.items ≡ inodes.old.items ++ inodes_read key body.now (inode_of body.now ∷ [])) }
{
    let Ok(inode) = Inode::read(body) else {
        return Ok(());
    };
    let at = InodeAt {
        number: key.objectid,
        inode,
    };
    match inodes.push(at) {
        Ok(()) => Ok(()),
        Err(_) => Err(Memory),
    }
}

/// Keeps the entry of an item, if it is a DIR_INDEX. `Memory`: there is no memory for it.
pub(crate) fn take_indexed(list: &mut EntryList, key: Key, body: &[u8]) -> Result<(), Memory>
    ensures { OnOk result (list.new ≡ list.old ++ indexed_in key body.now) }
{
    if key.kind != item::DIR_INDEX {
        return Ok(());
    }
    take_index(list, key, body)
}

/// Keeps the entries of an item, if it is a DIR_ITEM. `Memory`: there is no memory for them.
pub(crate) fn take_hashed(list: &mut EntryList, key: Key, body: &[u8]) -> Result<(), Memory>
    ensures { OnOk result (list.new ≡ list.old ++ hashed_in key body.now) }
{
    if key.kind != item::DIR_ITEM {
        return Ok(());
    }
    take_entries(list, key, body)
}

/// Keeps the references of an item, if it is an INODE_REF or an INODE_EXTREF. `Memory`: there is no memory for them.
pub(crate) fn take_refs(list: &mut LinkList, key: Key, body: &[u8]) -> Result<(), Memory>
    ensures { OnOk result (list.new ≡ list.old ++ refs_in key body.now) }
{
    match key.kind {
        item::INODE_REF => take_inode_refs(list, key, body),
        item::INODE_EXTREF => take_ext_refs(list, key, body),
        _ => Ok(()),
    }
}

/// Keeps the inode of an item, if it is an INODE_ITEM. `Memory`: there is no memory for it.
pub(crate) fn take_inodes(inodes: &mut Vec<InodeAt>, key: Key, body: &[u8]) -> Result<(), Memory>
    ensures { OnOk result (inodes.new.items ≡ inodes.old.items ++ inodes_in key body.now) }
{
    if key.kind != item::INODE_ITEM {
        return Ok(());
    }
    take_inode(inodes, key, body)
}

/// Keeps the number of the inode of an ORPHAN_ITEM, if an item is one. `Memory`: there is no memory for it.
pub(crate) fn take_orphans(orphans: &mut Vec<u64>, key: Key) -> Result<(), Memory>
    ensures { OnOk result (orphans.new.items ≡ orphans.old.items ++ orphans_in key) }
{
    if key.kind != item::ORPHAN_ITEM {
        return Ok(());
    }
    match orphans.push(key.offset) {
        Ok(()) => Ok(()),
        Err(_) => Err(Memory),
    }
}
