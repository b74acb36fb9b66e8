// Sets and sums that are made of lists, to look up in.
ghost use Rattle.std.specs.Prelude.{◌≡◌, ℕ, ◌+◌, ◌*◌, ◌==◌, cond, map, OnOk, IfOk};
ghost use Rattle.btr_check_names.specs.Entry.{entry_of, ref_of};
ghost use Rattle.btr_check_names.specs.Names.{asked, links_of, names_size, ref_to, under_hash};
ghost use Rattle.btr_check_names.specs.Sets.{HasEntries, HasRefs, HasModes, HasNumbers, HasSums, sum_in};

use crate::mode_at::{ModeAt, format_of};
use crate::{DirEntry, EntryList, InodeAt, LinkList, LinkName};
use btr_base::{Memory, name_hash};
use btr_items::item;
use std::alloc::Global;
use std::collections::{BTreeMap, BTreeSet};

/// An entry as it is to stand in a DIR_ITEM, under the hash of its name.
pub(crate) fn under_hash<'a>(entry: &DirEntry<'a>) -> DirEntry<'a>
    ensures { entry_of result ≡ under_hash (entry_of entry.now) }
{
    DirEntry {
        offset: u64::from(name_hash(entry.name)),
        ..*entry
    }
}

/// The name that the inode to which an entry leads is to have.
pub(crate) fn link_to<'a>(entry: &DirEntry<'a>) -> LinkName<'a>
    ensures { ref_of result ≡ ref_to (entry_of entry.now) }
{
    LinkName {
        inode: entry.target.objectid,
        parent: entry.dir,
        index: entry.offset,
        name: entry.name,
    }
}

/// The entries of a list. `Memory`: there is no memory for them.
pub(crate) fn entries_of(
    alloc: Global,
    entries: &EntryList,
) -> Result<BTreeSet<DirEntry<'_>>, Memory>
    ensures { IfOk result (HasEntries entries.now) }
{
    let mut set = BTreeSet::new(alloc);
    for entry in entries.iter() {
        match set.insert(entry) {
            Ok(_) => {}
            Err(_) => return Err(Memory),
        }
    }
    Ok(set)
}

/// The entries of a list, each under the hash of its name. `Memory`: there is no memory for them.
pub(crate) fn entries_under_hashes(
    alloc: Global,
    entries: &EntryList,
) -> Result<BTreeSet<DirEntry<'_>>, Memory>
    ensures { IfOk result (HasEntries (map under_hash entries.now)) }
{
    let mut set = BTreeSet::new(alloc);
    for entry in entries.iter() {
        match set.insert(under_hash(&entry)) {
            Ok(_) => {}
            Err(_) => return Err(Memory),
        }
    }
    Ok(set)
}

/// The references of a list. `Memory`: there is no memory for them.
pub(crate) fn refs_of(alloc: Global, refs: &LinkList) -> Result<BTreeSet<LinkName<'_>>, Memory>
    ensures { IfOk result (HasRefs refs.now) }
{
    let mut set = BTreeSet::new(alloc);
    for link in refs.iter() {
        match set.insert(link) {
            Ok(_) => {}
            Err(_) => return Err(Memory),
        }
    }
    Ok(set)
}

/// The references that the entries of a list ask for. `Memory`: there is no memory for them.
pub(crate) fn refs_asked(
    alloc: Global,
    entries: &EntryList,
) -> Result<BTreeSet<LinkName<'_>>, Memory>
    ensures { IfOk result (HasRefs (asked entries.now)) }
{
    let mut set = BTreeSet::new(alloc);
    for entry in entries.iter() {
        if entry.target.kind == item::INODE_ITEM {
            match set.insert(link_to(&entry)) {
                Ok(_) => {}
                Err(_) => return Err(Memory),
            }
        }
    }
    Ok(set)
}

/// The kinds in the modes of inodes. `Memory`: there is no memory for them.
pub(crate) fn modes_of(alloc: Global, inodes: &[InodeAt]) -> Result<BTreeSet<ModeAt>, Memory>
    ensures { IfOk result (HasModes inodes.now) }
{
    let mut set = BTreeSet::new(alloc);
    for at in inodes {
        let mode = ModeAt {
            number: at.number,
            format: format_of(&at.inode),
        };
        match set.insert(mode) {
            Ok(_) => {}
            Err(_) => return Err(Memory),
        }
    }
    Ok(set)
}

/// The numbers of a list. `Memory`: there is no memory for them.
pub(crate) fn numbers_of(alloc: Global, numbers: &[u64]) -> Result<BTreeSet<u64>, Memory>
    ensures { IfOk result (HasNumbers numbers.now) }
{
    let mut set = BTreeSet::new(alloc);
    for number in numbers {
        match set.insert(*number) {
            Ok(_) => {}
            Err(_) => return Err(Memory),
        }
    }
    Ok(set)
}

/// The sum at a number.
pub(crate) fn sum_at(sums: &BTreeMap<u64, u128>, number: u64) -> u128
    ensures { result ≡ sum_in sums.now number }
{
    match sums.get(&number) {
        Some(sum) => *sum,
        None => 0,
    }
}

// Adds to the sum at a number. Where it would pass the greatest number there is, that is want of memory too.
fn add(sums: &mut BTreeMap<u64, u128>, number: u64, more: u128) -> Result<(), Memory>
    ensures { OnOk result ((one : ℕ) → sum_in sums.new one ≡ sum_in sums.old one + cond (number == one) more 0) }
{
    let Some(sum) = sum_at(sums, number).checked_add(more) else {
        return Err(Memory);
    };
    match sums.insert(number, sum) {
        Ok(_) => Ok(()),
        Err(_) => Err(Memory),
    }
}

/// How many references each inode has. `Memory`: there is no memory for them.
pub(crate) fn link_counts(alloc: Global, refs: &LinkList) -> Result<BTreeMap<u64, u128>, Memory>
    ensures { IfOk result (HasSums (links_of refs.now)) }
{
    let mut sums = BTreeMap::new(alloc);
    for link in refs.iter() {
        add(&mut sums, link.inode, 1)?;
    }
    Ok(sums)
}

// Twice a length.
fn twice(len: usize) -> u128
    ensures { result ≡ 2 * len }
{
    2 * len as u128
}

/// How long the names in each directory are, each counted twice. `Memory`: there is no memory for them.
pub(crate) fn name_sizes(alloc: Global, entries: &EntryList) -> Result<BTreeMap<u64, u128>, Memory>
    ensures { IfOk result (HasSums (names_size entries.now)) }
{
    let mut sums = BTreeMap::new(alloc);
    for entry in entries.iter() {
        add(&mut sums, entry.dir, twice(entry.name.len()))?;
    }
    Ok(sums)
}
