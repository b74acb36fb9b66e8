// Names that meet their counterparts.
use super::files::unpaired_with;
use super::trees::{entry, inode, inode_ref, key, meet};
use btr_check_names::Unpaired;
use btr_findings::Kind;
use btr_items::item;
use std::alloc::Global;
use std::test::Fail;

const DIRECTORY: u32 = 0o40755;

const FILE: u32 = 0o100644;

// The hash of the name `sub`.
const HASH_SUB: u64 = 3841705590;

#[test]
fn each_kind_is_noticed(rt: HostRuntime) -> Result<(), Fail> {
    let alloc = rt.alloc();
    assert!(rt; unpaired_with(alloc, None)?.are_paired());
    for broken in [
        Kind::EntryItem,
        Kind::EntryIndex,
        Kind::EntryRef,
        Kind::RefEntry,
        Kind::EntryMode,
        Kind::LinkCount,
        Kind::DirSize,
        Kind::Orphan,
    ] {
        assert!(rt;
            !unpaired_with(alloc, Some(broken))?.are_paired(),
            "{broken:?}"
        );
    }
    Ok(())
}

// A directory that stands before the one that has its name.
#[test]
fn references_come_first(rt: HostRuntime) -> Result<(), Fail> {
    let alloc = rt.alloc();
    let mut names = Unpaired::new(alloc, 300);
    let sub = inode(alloc, 0, 1, DIRECTORY)?;
    meet(&mut names, key(257, item::INODE_ITEM, 0), &sub)?;
    let name = inode_ref(alloc, 3, b"sub")?;
    meet(&mut names, key(257, item::INODE_REF, 300), &name)?;
    let parent = inode(alloc, 6, 1, DIRECTORY)?;
    meet(&mut names, key(300, item::INODE_ITEM, 0), &parent)?;
    let itself = inode_ref(alloc, 0, b"..")?;
    meet(&mut names, key(300, item::INODE_REF, 300), &itself)?;
    let entry = entry(alloc, key(257, item::INODE_ITEM, 0), 2, b"sub")?;
    meet(&mut names, key(300, item::DIR_ITEM, HASH_SUB), &entry)?;
    let before = names.are_paired();
    meet(&mut names, key(300, item::DIR_INDEX, 3), &entry)?;
    assert_eq!(rt; (before, names.are_paired()), (false, true));
    Ok(())
}

// Meets a file with a reference of a name, at index 2 of directory 300.
fn meet_file(alloc: Global, names: &mut Unpaired, mode: u32, name: &[u8]) -> Result<(), Fail> {
    meet(
        names,
        key(301, item::INODE_ITEM, 0),
        &inode(alloc, 9, 1, mode)?,
    )?;
    meet(
        names,
        key(301, item::INODE_REF, 300),
        &inode_ref(alloc, 2, name)?,
    )
}

// A tree that has all but one file from another tree, in which the entry of the file stands.
#[test]
fn what_differs_is_compared(rt: HostRuntime) -> Result<(), Fail> {
    let alloc = rt.alloc();
    for (mode, name, settles) in [
        (FILE, b"name", true),
        (FILE, b"nome", false),
        (0o120777, b"name", false),
    ] {
        let mut names = Unpaired::new(alloc, 300);
        meet_file(alloc, &mut names, mode, name)?;
        let alone = (names.are_whole(), names.are_paired());
        let mut names = names.compared(alloc);
        meet_file(alloc, &mut names, FILE, b"name")?;
        assert_eq!(rt;
            (alone, names.are_paired()),
            ((true, false), settles),
            "{name:?}"
        );
    }
    Ok(())
}
