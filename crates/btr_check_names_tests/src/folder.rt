// A folder of so many files that what waits of their names moves together, and whose items come in one order or another.
use super::trees::{entry, inode, inode_ref, key, meet};
use btr_base::name_hash;
use btr_check_names::Unpaired;
use btr_items::item;
use std::alloc::{AllocError, Global};
use std::test::Fail;

const DIRECTORY: u32 = 0o40755;

const FILE: u32 = 0o100644;

// The indexes of the files; file `n` has the inode 1000 + n, and a name of eight bytes.
const FIRST: u64 = 2;

const END: u64 = 5002;

// The hashes of the names and the indexes, in the order of the hashes.
fn by_hash(alloc: Global) -> Result<Vec<(u32, u64)>, AllocError> {
    let mut all = Vec::new(alloc);
    for n in FIRST..END {
        all.push((name_hash(&n.to_be_bytes()), n))?;
    }
    all.sort()?;
    Ok(all)
}

// The folder itself, whose size is that of all names, twice.
fn put_folder(names: &mut Unpaired, alloc: Global) -> Result<(), Fail> {
    let folder = inode(alloc, 16 * (END - FIRST), 1, DIRECTORY)?;
    meet(names, key(256, item::INODE_ITEM, 0), &folder)?;
    let parent = inode_ref(alloc, 0, b"..")?;
    meet(names, key(256, item::INODE_REF, 256), &parent)
}

// The entry of a file, under its name's hash.
fn put_item(names: &mut Unpaired, alloc: Global, hash: u32, n: u64) -> Result<(), Fail> {
    let body = entry(
        alloc,
        key(n.wrapping_add(1000), item::INODE_ITEM, 0),
        1,
        &n.to_be_bytes(),
    )?;
    meet(names, key(256, item::DIR_ITEM, u64::from(hash)), &body)
}

// The entry of a file, at its index.
fn put_index(names: &mut Unpaired, alloc: Global, n: u64) -> Result<(), Fail> {
    let body = entry(
        alloc,
        key(n.wrapping_add(1000), item::INODE_ITEM, 0),
        1,
        &n.to_be_bytes(),
    )?;
    meet(names, key(256, item::DIR_INDEX, n), &body)
}

// A file, whose reference has a name.
fn put_file(names: &mut Unpaired, alloc: Global, n: u64, name: &[u8]) -> Result<(), Fail> {
    let file = inode(alloc, 5, 1, FILE)?;
    meet(names, key(n.wrapping_add(1000), item::INODE_ITEM, 0), &file)?;
    let name = inode_ref(alloc, n, name)?;
    meet(
        names,
        key(n.wrapping_add(1000), item::INODE_REF, 256),
        &name,
    )
}

// The entries at indexes, and then the files but for the last one.
fn put_rest(names: &mut Unpaired, alloc: Global) -> Result<(), Fail> {
    for n in FIRST..END {
        put_index(names, alloc, n)?;
    }
    for n in FIRST..END - 1 {
        put_file(names, alloc, n, &n.to_be_bytes())?;
    }
    Ok(())
}

#[test]
fn all_meet_in_their_order(rt: HostRuntime) -> Result<(), Fail> {
    let alloc = rt.alloc();
    let mut names = Unpaired::new(alloc, 256);
    put_folder(&mut names, alloc)?;
    for (hash, n) in &by_hash(alloc)? {
        put_item(&mut names, alloc, *hash, *n)?;
    }
    put_rest(&mut names, alloc)?;
    let before = names.are_paired();
    put_file(&mut names, alloc, END - 1, &(END - 1).to_be_bytes())?;
    assert_eq!(rt; (before, names.are_paired()), (false, true));
    Ok(())
}

#[test]
fn all_meet_backwards(rt: HostRuntime) -> Result<(), Fail> {
    let alloc = rt.alloc();
    let mut names = Unpaired::new(alloc, 256);
    put_folder(&mut names, alloc)?;
    for (hash, n) in by_hash(alloc)?.iter().rev() {
        put_item(&mut names, alloc, *hash, *n)?;
    }
    put_rest(&mut names, alloc)?;
    put_file(&mut names, alloc, END - 1, &(END - 1).to_be_bytes())?;
    assert!(rt; names.are_paired());
    Ok(())
}

#[test]
fn all_meet_in_a_mixed_order(rt: HostRuntime) -> Result<(), Fail> {
    let alloc = rt.alloc();
    let mut names = Unpaired::new(alloc, 256);
    put_folder(&mut names, alloc)?;
    let all = by_hash(alloc)?;
    for odd in [true, false] {
        for (hash, n) in &all {
            if (*n % 2 == 1) == odd {
                put_item(&mut names, alloc, *hash, *n)?;
            }
        }
    }
    put_rest(&mut names, alloc)?;
    put_file(&mut names, alloc, END - 1, &(END - 1).to_be_bytes())?;
    assert!(rt; names.are_paired());
    Ok(())
}

#[test]
fn a_name_differs(rt: HostRuntime) -> Result<(), Fail> {
    let alloc = rt.alloc();
    let mut names = Unpaired::new(alloc, 256);
    put_folder(&mut names, alloc)?;
    for (hash, n) in &by_hash(alloc)? {
        put_item(&mut names, alloc, *hash, *n)?;
    }
    put_rest(&mut names, alloc)?;
    put_file(&mut names, alloc, END - 1, b"elsewise")?;
    assert!(rt; !names.are_paired());
    Ok(())
}

#[test]
fn an_entry_comes_twice(rt: HostRuntime) -> Result<(), Fail> {
    let alloc = rt.alloc();
    let mut names = Unpaired::new(alloc, 256);
    put_folder(&mut names, alloc)?;
    for (hash, n) in &by_hash(alloc)? {
        put_item(&mut names, alloc, *hash, *n)?;
    }
    put_rest(&mut names, alloc)?;
    put_index(&mut names, alloc, END - 1)?;
    put_file(&mut names, alloc, END - 1, &(END - 1).to_be_bytes())?;
    assert!(rt; !names.are_paired());
    Ok(())
}
