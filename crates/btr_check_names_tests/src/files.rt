// A small tree of files, in which one rule is broken.
use super::trees::{ext_ref, file_entry, inode, inode_ref, key, meet};
use btr_base::Memory;
use btr_check_names::{TreeNames, Unpaired};
use btr_findings::Kind;
use btr_items::item;
use btr_make_blocks::Body;
use btr_tour::Visitor;
use std::alloc::Global;
use std::test::Fail;

const DIRECTORY: u32 = 0o40755;

const FILE: u32 = 0o100644;

/// The hashes of the names `f` and `g`.
pub(super) const HASH_F: u64 = 411982631;

pub(super) const HASH_G: u64 = 3940931620;

const ORPHANS: u64 = 0xffff_ffff_ffff_fffb;

// The first directory, which has the file `f` at index 2.
fn put_directory<V: Visitor<Memory>>(
    names: &mut V,
    alloc: Global,
    broken: Option<Kind>,
) -> Result<(), Fail> {
    let size = if broken == Some(Kind::DirSize) { 4 } else { 2 };
    let directory = inode(alloc, size, 1, DIRECTORY)?;
    meet(names, key(256, item::INODE_ITEM, 0), &directory)?;
    let parent = inode_ref(alloc, 0, b"..")?;
    meet(names, key(256, item::INODE_REF, 256), &parent)?;
    let file = file_entry(alloc, b"f")?;
    if broken != Some(Kind::EntryItem) {
        meet(names, key(256, item::DIR_ITEM, HASH_F), &file)?;
    }
    if broken == Some(Kind::EntryIndex) {
        let other = file_entry(alloc, b"g")?;
        meet(names, key(256, item::DIR_ITEM, HASH_G), &other)?;
    }
    meet(names, key(256, item::DIR_INDEX, 2), &file)
}

// The file 257.
fn put_file<V: Visitor<Memory>>(
    names: &mut V,
    alloc: Global,
    broken: Option<Kind>,
) -> Result<(), Fail> {
    let nlink = match broken {
        Some(Kind::EntryRef) => 0,
        Some(Kind::RefEntry | Kind::LinkCount) => 2,
        _ => 1,
    };
    let (mode, size) = match broken {
        Some(Kind::EntryMode) => (DIRECTORY, 0),
        _ => (FILE, 5),
    };
    let file = inode(alloc, size, nlink, mode)?;
    meet(names, key(257, item::INODE_ITEM, 0), &file)?;
    if broken == Some(Kind::EntryRef) {
        let empty = Body::new(alloc);
        return meet(names, key(ORPHANS, item::ORPHAN_ITEM, 257), &empty);
    }
    let name = inode_ref(alloc, 2, b"f")?;
    meet(names, key(257, item::INODE_REF, 256), &name)?;
    if broken == Some(Kind::RefEntry) {
        let other = ext_ref(alloc, 9, b"g")?;
        meet(names, key(257, item::INODE_EXTREF, 77), &other)?;
    }
    Ok(())
}

// A tree whose names break the rule of a kind, or none.
fn put_tree<V: Visitor<Memory>>(
    names: &mut V,
    alloc: Global,
    broken: Option<Kind>,
) -> Result<(), Fail> {
    put_directory(names, alloc, broken)?;
    put_file(names, alloc, broken)?;
    let nameless = inode(alloc, 0, 0, FILE)?;
    meet(names, key(258, item::INODE_ITEM, 0), &nameless)?;
    if broken != Some(Kind::Orphan) {
        let empty = Body::new(alloc);
        meet(names, key(ORPHANS, item::ORPHAN_ITEM, 258), &empty)?;
    }
    Ok(())
}

/// The names of a tree that break the rule of this kind, or none.
pub(super) fn tree_with(alloc: Global, broken: Option<Kind>) -> Result<TreeNames, Fail> {
    let mut names = TreeNames::new(alloc, 5, 256);
    put_tree(&mut names, alloc, broken)?;
    Ok(names)
}

/// What of the names of such a tree has not met its counterpart.
pub(super) fn unpaired_with(alloc: Global, broken: Option<Kind>) -> Result<Unpaired, Fail> {
    let mut names = Unpaired::new(alloc, 256);
    put_tree(&mut names, alloc, broken)?;
    Ok(names)
}
