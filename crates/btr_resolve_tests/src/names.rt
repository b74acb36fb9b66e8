// The names of owners, and their paths.
use super::scene::{Content, DATA, FRONT, Row, Scene, TREES, add};
use btr_items::item;
use btr_make_blocks::{Items, bodies};
use btr_volume::Stop;
use btr_walk::TreeFault;
use std::alloc::Global;
use std::process::Abort;
use std::test::Fail;

const EXTENT: Row = (900, item::EXTENT_DATA, 0, FRONT);

// The text of the owner of an address by these rows, behind the line's beginning.
fn paths(rt: &impl Abort, alloc: Global, rows: &[Row], expected: &[&[u8]]) -> Result<(), Fail> {
    let mut items = Items::new(alloc);
    add(alloc, &mut items, &[EXTENT])?;
    add(alloc, &mut items, rows)?;
    let found = Scene::new(alloc)?.with(5, items)?.owners(DATA, 0)?;
    let mut text = Vec::new(alloc);
    for path in expected {
        text.extend_from_slice(b"tree 5 inode 900 position 0 path ")?;
        text.extend_from_slice(path)?;
        text.push(b'\n')?;
    }
    let count = format!(in alloc; "owners {}\n", expected.len())?;
    text.extend_from_slice(count.as_bytes())?;
    assert_eq!(rt; found.result, Ok(expected.len() as u64));
    assert_eq!(rt; found.out.text(), text.as_slice());
    Ok(())
}

// Names in one directory stand in one item one behind another; the items come by their keys, those of the first type first.
#[test]
fn hard_links(rt: HostRuntime) -> Result<(), Fail> {
    let rows: [Row; 6] = [
        (257, item::INODE_REF, 256, Content::Name(2, b"d")),
        (258, item::INODE_REF, 257, Content::Name(2, b"e")),
        (900, item::INODE_REF, 256, Content::Name(9, b"b")),
        (900, item::INODE_REF, 256, Content::Name(3, b"a")),
        (900, item::INODE_REF, 258, Content::Name(2, b"c \\")),
        (900, item::INODE_EXTREF, 1, Content::FarName(257, 5, b"far")),
    ];
    let expected = [b"/b".as_slice(), b"/a", b"/d/e/c \\x5c", b"/d/far"];
    paths(&rt, rt.alloc(), &rows, &expected)
}

#[test]
fn no_name(rt: HostRuntime) -> Result<(), Fail> {
    paths(&rt, rt.alloc(), &[], &[b"?"])
}

// A directory on the way has no name, or two; or it is its own parent.
#[test]
fn directories_without_one_name(rt: HostRuntime) -> Result<(), Fail> {
    let rows: [Row; 8] = [
        (257, item::INODE_REF, 256, Content::Name(2, b"d")),
        (257, item::INODE_EXTREF, 7, Content::FarName(256, 3, b"e")),
        (258, item::INODE_REF, 258, Content::Name(2, b"loop")),
        (260, item::INODE_REF, 257, Content::Name(2, b"below")),
        (900, item::INODE_REF, 257, Content::Name(2, b"two")),
        (900, item::INODE_REF, 258, Content::Name(2, b"own")),
        (900, item::INODE_REF, 259, Content::Name(2, b"none")),
        (900, item::INODE_REF, 260, Content::Name(2, b"deep")),
    ];
    paths(&rt, rt.alloc(), &rows, &[b"?", b"?", b"?", b"?"])
}

// A name that breaks its form makes its leaf malformed, before the owner has a line.
#[test]
fn names_that_are_broken(rt: HostRuntime) -> Result<(), Fail> {
    let alloc = rt.alloc();
    for row in [
        (900, item::INODE_REF, 256, Content::Zeros(9)),
        (900, item::INODE_REF, 256, Content::Zeros(0)),
        (900, item::INODE_EXTREF, 256, Content::Zeros(18)),
    ] {
        let mut items = Items::new(alloc);
        add(alloc, &mut items, &[EXTENT, row])?;
        let found = Scene::new(alloc)?.with(5, items)?.owners(DATA, 0)?;
        let malformed = TreeFault::Malformed(TREES);
        assert_eq!(rt; found.result, Err(Stop::Tree(malformed)));
        assert!(rt; found.out.text().is_empty());
    }
    Ok(())
}

// A file so many directories below the top directory: directory n stands in n + 1, and the last in the top directory.
fn deep(alloc: Global, depth: u64) -> Result<Scene, Fail> {
    let mut items = Items::new(alloc);
    add(alloc, &mut items, &[EXTENT])?;
    let name = bodies::inode_ref(alloc, 2, b"f")?;
    items.append(900, item::INODE_REF, 1000, &name)?;
    for n in 0..depth {
        let name = bodies::inode_ref(alloc, 2, b"d")?;
        let dir = n.saturating_add(1000);
        let next = n.saturating_add(1);
        let parent = if next == depth {
            256
        } else {
            dir.saturating_add(1)
        };
        items.append(dir, item::INODE_REF, parent, &name)?;
    }
    Scene::new(alloc)?.with(5, items)
}

// 512 steps from a directory to its parent give a path, and 513 none.
#[test]
fn the_deepest_file(rt: HostRuntime) -> Result<(), Fail> {
    let alloc = rt.alloc();
    let found = deep(alloc, 512)?.owners(DATA, 0)?;
    assert_eq!(rt; found.result, Ok(1));
    let text = found.out.text();
    assert_eq!(rt; text.len(), 33 + 1024 + 2 + 1 + 9);
    assert!(rt; text.starts_with(b"tree 5 inode 900 position 0 path /d/d/d"));
    assert!(rt; text.ends_with(b"/d/d/f\nowners 1\n"));
    let found = deep(alloc, 513)?.owners(DATA, 0)?;
    assert_eq!(rt; found.result, Ok(1));
    assert_eq!(rt;
        found.out.text(),
        b"tree 5 inode 900 position 0 path ?\nowners 1\n".as_slice()
    );
    Ok(())
}
