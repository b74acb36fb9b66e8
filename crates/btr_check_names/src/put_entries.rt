// What is wrong with the entries of directories and with the references of inodes.
ghost use Rattle.std.specs.Prelude.{◌≡◌, ◌∷◌, ◌||◌, [], List, OnOk};
ghost use Rattle.btr_findings.specs.declared.kind.Kind.TheVariants as kind;
ghost use Rattle.btr_findings.specs.Findings.{found, PutsRows};
ghost use Rattle.btr_check_names.specs.Entry.{entry_of, ref_of, NameRef};
ghost use Rattle.btr_check_names.specs.Names.{entry_item, entry_index, entry_ref, ref_entry, ref_kept, asked};
ghost use Rattle.btr_check_names.specs.Names as words;
ghost use Rattle.btr_check_names.specs.Sets.{HasRefs};

use crate::findings::of_entry;
use crate::sets::{
    entries_of, entries_under_hashes, link_to, numbers_of, refs_asked, refs_of, under_hash,
};
use crate::{DirEntry, EntryList, LinkList, LinkName};
use btr_base::Memory;
use btr_findings::{Finding, Found, Kind, put_unless};
use btr_items::item;
use std::alloc::Global;
use std::collections::BTreeSet;

/// `EntryItem`: the entries at indexes that stand under no hash, but for those of the directories in `removed`. `Memory`: there is no memory.
pub(crate) fn put_entry_items(
    alloc: Global,
    found: &mut Found,
    tree: u64,
    removed: &[u64],
    indexed: &EntryList,
    hashed: &EntryList,
) -> Result<(), Memory>
    ensures { OnOk result (PutsRows (entry_item tree removed.now hashed.now) indexed.now found.old found.new) }
{
    let numbers = numbers_of(alloc, removed)?;
    let stands = entries_of(alloc, hashed)?;
    for entry in indexed.iter() {
        let kept = numbers.contains(&entry.dir) || stands.contains(&under_hash(&entry));
        put_unless(found, kept, of_entry(Kind::EntryItem, tree, &entry))?;
    }
    Ok(())
}

/// `EntryIndex`: the entries under hashes that aren't as one at an index is to stand there, but for those of the directories in `removed`.
/// `Memory`: there is no memory.
pub(crate) fn put_entry_indexes(
    alloc: Global,
    found: &mut Found,
    tree: u64,
    removed: &[u64],
    indexed: &EntryList,
    hashed: &EntryList,
) -> Result<(), Memory>
    ensures { OnOk result (PutsRows (entry_index tree removed.now indexed.now) hashed.now found.old found.new) }
{
    let numbers = numbers_of(alloc, removed)?;
    let stands = entries_under_hashes(alloc, indexed)?;
    for entry in hashed.iter() {
        let kept = numbers.contains(&entry.dir) || stands.contains(&entry);
        put_unless(found, kept, of_entry(Kind::EntryIndex, tree, &entry))?;
    }
    Ok(())
}

// Whether the inode that an entry leads to has its reference, if it leads to one.
fn has_ref<'a>(refs: &BTreeSet<LinkName<'a>>, entry: &DirEntry<'a>) -> bool
    ensures { (list : List NameRef) → HasRefs list refs.now → result ≡ ref_kept list (entry_of entry.now) }
{
    entry.target.kind != item::INODE_ITEM || refs.contains(&link_to(entry))
}

/// `EntryRef`: the entries that lead to inodes without the reference, but for those of the directories in `removed`. `Memory`: there is no memory.
pub(crate) fn put_entry_refs(
    alloc: Global,
    found: &mut Found,
    tree: u64,
    removed: &[u64],
    indexed: &EntryList,
    refs: &LinkList,
) -> Result<(), Memory>
    ensures { OnOk result (PutsRows (entry_ref tree removed.now refs.now) indexed.now found.old found.new) }
{
    let numbers = numbers_of(alloc, removed)?;
    let stands = refs_of(alloc, refs)?;
    for entry in indexed.iter() {
        let kept = numbers.contains(&entry.dir) || has_ref(&stands, &entry);
        put_unless(found, kept, of_entry(Kind::EntryRef, tree, &entry))?;
    }
    Ok(())
}

/// Whether a reference is that of the first directory to itself.
pub(crate) fn is_free(dirid: u64, link: &LinkName<'_>) -> bool
    ensures { result ≡ words.is_free dirid (ref_of link.now) }
{
    link.inode == dirid && link.parent == dirid && link.name == b"..".as_slice()
}

// What is wrong with a reference without its entry.
fn of_link(tree: u64, link: &LinkName<'_>) -> Finding
    ensures { result ≡ found kind.RefEntry (tree ∷ link.now.inode ∷ link.now.parent ∷ link.now.index ∷ []) }
{
    Finding::new(Kind::RefEntry, [tree, link.inode, link.parent, link.index])
}

/// `RefEntry`: the references that no entry asks for. `Memory`: there is no memory.
pub(crate) fn put_ref_entries(
    alloc: Global,
    found: &mut Found,
    tree: u64,
    dirid: u64,
    indexed: &EntryList,
    refs: &LinkList,
) -> Result<(), Memory>
    ensures { OnOk result (PutsRows (ref_entry tree dirid indexed.now) refs.now found.old found.new) }
{
    let asked = refs_asked(alloc, indexed)?;
    for link in refs.iter() {
        let kept = is_free(dirid, &link) || asked.contains(&link);
        put_unless(found, kept, of_link(tree, &link))?;
    }
    Ok(())
}
