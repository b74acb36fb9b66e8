// A directory that is being removed, and the old inode cache.
use super::files::{HASH_F, tree_with, unpaired_with};
use super::rows::findings;
use super::trees::{entry, inode, inode_ref, key, meet};
use btr_base::Memory;
use btr_check_names::{TreeNames, Unpaired};
use btr_findings::{Finding, Kind};
use btr_items::item;
use btr_make_blocks::Body;
use btr_tour::Visitor;
use std::alloc::Global;
use std::process::Abort;
use std::test::Fail;

const DIRECTORY: u32 = 0o40755;

const FILE: u32 = 0o100600;

const ORPHANS: u64 = u64::MAX - 4;

// Directory 300, which has no links; its entries under a hash and at an index aren't what belongs together, and its size isn't theirs.
fn put_left<V: Visitor<Memory>>(names: &mut V, alloc: Global) -> Result<(), Fail> {
    let directory = inode(alloc, 7, 0, DIRECTORY)?;
    meet(names, key(300, item::INODE_ITEM, 0), &directory)?;
    let body = entry(alloc, key(257, item::INODE_ITEM, 0), 2, b"g")?;
    meet(names, key(300, item::DIR_ITEM, HASH_F), &body)?;
    meet(names, key(300, item::DIR_INDEX, 9), &body)
}

// The orphan item of an inode.
fn put_orphan<V: Visitor<Memory>>(names: &mut V, alloc: Global, number: u64) -> Result<(), Fail> {
    let empty = Body::new(alloc);
    meet(names, key(ORPHANS, item::ORPHAN_ITEM, number), &empty)
}

// The findings on the names of a tree are these.
fn finds(
    rt: &impl Abort,
    alloc: Global,
    names: &TreeNames,
    wanted: &[(Kind, [u64; 7])],
) -> Result<(), Fail> {
    let found = findings(alloc, names)?;
    assert_eq!(rt; found.len(), wanted.len());
    for (one, (kind, n)) in found.iter().zip(wanted) {
        assert_eq!(rt; *one, Finding { kind: *kind, n: *n });
    }
    Ok(())
}

#[test]
fn a_directory_without_an_orphan_item(rt: HostRuntime) -> Result<(), Fail> {
    let alloc = rt.alloc();
    let mut names = tree_with(alloc, None)?;
    put_left(&mut names, alloc)?;
    put_orphan(&mut names, alloc, 301)?;
    let wanted = [
        (Kind::EntryItem, [5, 300, 9, 0, 0, 0, 0]),
        (Kind::EntryIndex, [5, 300, HASH_F, 0, 0, 0, 0]),
        (Kind::EntryRef, [5, 300, 9, 0, 0, 0, 0]),
        (Kind::EntryMode, [5, 300, 9, 0, 0, 0, 0]),
        (Kind::DirSize, [5, 300, 7, 2, 0, 0, 0]),
        (Kind::Orphan, [5, 300, 0, 0, 0, 0, 0]),
    ];
    finds(&rt, alloc, &names, &wanted)
}

#[test]
fn a_directory_that_is_being_removed(rt: HostRuntime) -> Result<(), Fail> {
    let alloc = rt.alloc();
    let mut names = tree_with(alloc, None)?;
    put_left(&mut names, alloc)?;
    put_orphan(&mut names, alloc, 300)?;
    finds(&rt, alloc, &names, &[])?;
    let reference = inode_ref(alloc, 4, b"h")?;
    meet(&mut names, key(257, item::INODE_REF, 300), &reference)?;
    let wanted = [
        (Kind::RefEntry, [5, 257, 300, 4, 0, 0, 0]),
        (Kind::LinkCount, [5, 257, 1, 2, 0, 0, 0]),
    ];
    finds(&rt, alloc, &names, &wanted)
}

#[test]
fn the_old_inode_cache(rt: HostRuntime) -> Result<(), Fail> {
    let alloc = rt.alloc();
    let mut names = tree_with(alloc, None)?;
    let file = inode(alloc, 65536, 1, FILE)?;
    let cache = u64::MAX - 11;
    meet(&mut names, key(cache, item::INODE_ITEM, 0), &file)?;
    finds(&rt, alloc, &names, &[])?;
    meet(&mut names, key(cache - 1, item::INODE_ITEM, 0), &file)?;
    let wanted = [(Kind::LinkCount, [5, cache - 1, 1, 0, 0, 0, 0])];
    finds(&rt, alloc, &names, &wanted)
}

// What is left in a directory without links waits for nothing but the directory's orphan item, and a reference to it for its entry.
#[test]
fn nothing_waits_in_a_directory_that_is_being_removed(rt: HostRuntime) -> Result<(), Fail> {
    let alloc = rt.alloc();
    let mut names = unpaired_with(alloc, None)?;
    put_left(&mut names, alloc)?;
    let unlinked = names.are_paired();
    put_orphan(&mut names, alloc, 300)?;
    let removed = names.are_paired();
    let cache = inode(alloc, 65536, 1, FILE)?;
    meet(&mut names, key(u64::MAX - 11, item::INODE_ITEM, 0), &cache)?;
    assert_eq!(rt;
        (unlinked, removed, names.are_paired()),
        (false, true, true)
    );
    Ok(())
}

#[test]
fn a_reference_waits_for_its_entry(rt: HostRuntime) -> Result<(), Fail> {
    let alloc = rt.alloc();
    let mut names = Unpaired::new(alloc, 256);
    let file = inode(alloc, 0, 1, FILE)?;
    meet(&mut names, key(257, item::INODE_ITEM, 0), &file)?;
    let reference = inode_ref(alloc, 4, b"h")?;
    meet(&mut names, key(257, item::INODE_REF, 300), &reference)?;
    put_left(&mut names, alloc)?;
    put_orphan(&mut names, alloc, 300)?;
    assert!(rt; !names.are_paired());
    Ok(())
}
