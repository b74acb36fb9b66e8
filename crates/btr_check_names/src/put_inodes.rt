// What is wrong with the inodes of a tree of files.
ghost use Rattle.std.specs.Prelude.{◌≡◌, ◌||◌, ℕ, List, OnOk, IfOk};
ghost use Rattle.btr_check_names.specs.Entry.{entry_of};
ghost use Rattle.btr_check_names.specs.Names.{entry_mode, link_count, dir_size, orphan, mode_kept, orphan_kept, has_size, is_removed, removed_dirs};
ghost use Rattle.btr_findings.specs.Findings.{PutsRows};
ghost use Rattle.btr_check_names.specs.Sets.{HasModes, HasNumbers};

use crate::findings::{of_entry, of_orphan, of_sum};
use crate::mode_at::{ModeAt, mode_of_kind};
use crate::sets::{link_counts, modes_of, name_sizes, numbers_of, sum_at};
use crate::{DirEntry, EntryList, InodeAt, LinkList};
use btr_base::Memory;
use btr_findings::{Finding, Found, Kind, push, put_unless};
use btr_items::item;
use std::alloc::Global;
use std::collections::BTreeSet;

// Whether an inode is a directory without links that is an orphan.
fn is_removed(orphans: &BTreeSet<u64>, at: &InodeAt) -> bool
    ensures { (list : List ℕ) → HasNumbers list orphans.now → result ≡ is_removed list at.now }
{
    at.is_unlinked() && orphans.contains(&at.number)
}

/// The directories that are being removed: those without links that are orphans. `Memory`: there is no memory for them.
pub(crate) fn removed_dirs(
    alloc: Global,
    orphans: &[u64],
    inodes: &[InodeAt],
) -> Result<Vec<u64>, Memory>
    ensures { IfOk result (λ removed. removed.items ≡ removed_dirs orphans.now inodes.now) }
{
    let numbers = numbers_of(alloc, orphans)?;
    let mut removed = Vec::new(alloc);
    for at in inodes {
        if is_removed(&numbers, at) {
            push(&mut removed, at.number)?;
        }
    }
    Ok(removed)
}

// Whether the inode that an entry leads to is there, and of its kind, if it leads to one.
fn has_mode(modes: &BTreeSet<ModeAt>, entry: &DirEntry<'_>) -> bool
    ensures { (inodes : List InodeAt) → HasModes inodes modes.now → result ≡ mode_kept inodes (entry_of entry.now) }
{
    let mode = ModeAt {
        number: entry.target.objectid,
        format: mode_of_kind(entry.kind),
    };
    entry.target.kind != item::INODE_ITEM || modes.contains(&mode)
}

/// `EntryMode`: the entries that lead to no inode, or to one of another kind, but for those of the directories in `removed`. `Memory`: there is no
/// memory.
pub(crate) fn put_entry_modes(
    alloc: Global,
    found: &mut Found,
    tree: u64,
    removed: &[u64],
    indexed: &EntryList,
    inodes: &[InodeAt],
) -> Result<(), Memory>
    ensures { OnOk result (PutsRows (entry_mode tree removed.now inodes.now) indexed.now found.old found.new) }
{
    let numbers = numbers_of(alloc, removed)?;
    let modes = modes_of(alloc, inodes)?;
    for entry in indexed.iter() {
        let kept = numbers.contains(&entry.dir) || has_mode(&modes, &entry);
        put_unless(found, kept, of_entry(Kind::EntryMode, tree, &entry))?;
    }
    Ok(())
}

/// `LinkCount`: the inodes that state another number of references. `Memory`: there is no memory.
pub(crate) fn put_link_counts(
    alloc: Global,
    found: &mut Found,
    tree: u64,
    refs: &LinkList,
    inodes: &[InodeAt],
) -> Result<(), Memory>
    ensures { OnOk result (PutsRows (link_count tree refs.now) inodes.now found.old found.new) }
{
    let counts = link_counts(alloc, refs)?;
    for at in inodes {
        let stated = u64::from(at.inode.nlink);
        let links = sum_at(&counts, at.number);
        let finding = of_sum(Kind::LinkCount, tree, at.number, stated, links);
        put_unless(found, at.has_links(links), finding)?;
    }
    Ok(())
}

// Whether an inode has a size, if it is a directory that isn't being removed.
fn keeps_size(orphans: &BTreeSet<u64>, at: &InodeAt, size: u128) -> bool
    ensures { (list : List ℕ) → HasNumbers list orphans.now → result ≡ (is_removed list at.now || has_size at.now size) }
{
    is_removed(orphans, at) || at.has_size(size)
}

/// `DirSize`: the directories that aren't as large as the names in them, twice, but for those that are being removed. `Memory`: there is no
/// memory.
pub(crate) fn put_dir_sizes(
    alloc: Global,
    found: &mut Found,
    tree: u64,
    orphans: &[u64],
    indexed: &EntryList,
    inodes: &[InodeAt],
) -> Result<(), Memory>
    ensures { OnOk result (PutsRows (dir_size tree orphans.now indexed.now) inodes.now found.old found.new) }
{
    let numbers = numbers_of(alloc, orphans)?;
    let sizes = name_sizes(alloc, indexed)?;
    for at in inodes {
        let size = sum_at(&sizes, at.number);
        let finding = of_sum(Kind::DirSize, tree, at.number, at.inode.size, size);
        let kept = keeps_size(&numbers, at, size);
        put_unless(found, kept, finding)?;
    }
    Ok(())
}

// Whether an inode without links is an orphan.
fn is_kept(orphans: &BTreeSet<u64>, at: &InodeAt) -> bool
    ensures { (list : List ℕ) → HasNumbers list orphans.now → result ≡ orphan_kept list at.now }
{
    at.inode.nlink != 0 || orphans.contains(&at.number)
}

/// `Orphan`: the inodes without links that aren't orphans. `Memory`: there is no memory.
pub(crate) fn put_orphans(
    alloc: Global,
    found: &mut Found,
    tree: u64,
    orphans: &[u64],
    inodes: &[InodeAt],
) -> Result<(), Memory>
    ensures { OnOk result (PutsRows (orphan tree orphans.now) inodes.now found.old found.new) }
{
    let numbers = numbers_of(alloc, orphans)?;
    for at in inodes {
        let kept = is_kept(&numbers, at);
        put_unless(found, kept, of_orphan(tree, at))?;
    }
    Ok(())
}
