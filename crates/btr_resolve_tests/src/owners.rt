// Which extents have an address, in which trees.
use super::scene::{Content, DATA, FRONT, MIDDLE, Row, Scene, TREES, add, part};
use btr_items::{Shape, item};
use btr_make_blocks::Items;
use btr_volume::Stop;
use btr_walk::TreeFault;
use std::alloc::Global;
use std::process::Abort;
use std::test::Fail;

// The top directory has itself as its parent; a file in it has an extent from the second sector of the data on.
const FILE: [Row; 3] = [
    (256, item::INODE_REF, 256, Content::Name(0, b"..")),
    (257, item::INODE_REF, 256, Content::Name(2, b"f")),
    (257, item::EXTENT_DATA, 0, MIDDLE),
];

fn told(rt: &impl Abort, scene: Scene, addr: u64, count: u64, text: &[u8]) -> Result<(), Fail> {
    let found = scene.owners(addr, 0)?;
    assert_eq!(rt; found.result, Ok(count));
    assert_eq!(rt; found.out.text(), text);
    Ok(())
}

// The first and the last byte that the file has of the extent, and those beside them.
#[test]
fn the_ends_of_an_extent(rt: HostRuntime) -> Result<(), Fail> {
    let first = b"tree 5 inode 257 position 0 path /f\nowners 1\n";
    let last = b"tree 5 inode 257 position 8191 path /f\nowners 1\n";
    for (addr, count, text) in [
        (DATA + 4095, 0, b"owners 0\n".as_slice()),
        (DATA + 4096, 1, first),
        (DATA + 12287, 1, last),
        (DATA + 12288, 0, b"owners 0\n"),
    ] {
        let scene = Scene::new(rt.alloc())?.with_rows(5, &FILE)?;
        told(&rt, scene, addr, count, text)?;
    }
    Ok(())
}

// Two files have other parts of one extent, and one has the same byte twice.
#[test]
fn a_shared_extent(rt: HostRuntime) -> Result<(), Fail> {
    let rows: [Row; 7] = [
        (257, item::INODE_REF, 256, Content::Name(2, b"f")),
        (257, item::EXTENT_DATA, 0, part(DATA, 4096)),
        (257, item::EXTENT_DATA, 8192, part(DATA, 0)),
        (258, item::INODE_REF, 256, Content::Name(3, b"g")),
        (258, item::EXTENT_DATA, 4096, part(DATA, 8192)),
        (259, item::INODE_REF, 256, Content::Name(4, b"h")),
        (259, item::EXTENT_DATA, 0, part(DATA, 0)),
    ];
    let text =
        b"tree 5 inode 257 position 4100 path /f\ntree 5 inode 258 position 4100 path /g\nowners 2\n";
    let scene = Scene::new(rt.alloc())?.with_rows(5, &rows)?;
    told(&rt, scene, DATA + 8196, 2, text)?;
    let text =
        b"tree 5 inode 257 position 1 path /f\ntree 5 inode 257 position 12289 path /f\ntree 5 inode 259 position 4097 path /h\nowners 3\n";
    let scene = Scene::new(rt.alloc())?.with_rows(5, &rows)?;
    told(&rt, scene, DATA + 4097, 3, text)
}

// A compressed extent has its bytes on the disk, wherever they are in the file; a preallocated one is like one with data, a hole and an
// inline extent have no byte on the disk.
#[test]
fn extents_of_each_kind(rt: HostRuntime) -> Result<(), Fail> {
    let packed = Content::Extent(
        3,
        Shape::Regular {
            addr: DATA,
            disk_len: 4096,
            skip: 8192,
            len: 16384,
        },
    );
    let prealloc = Content::Extent(
        0,
        Shape::Prealloc {
            addr: DATA + 4096,
            disk_len: 8192,
            skip: 4096,
            len: 4096,
        },
    );
    let rows: [Row; 6] = [
        (257, item::INODE_REF, 256, Content::Name(2, b"f")),
        (257, item::EXTENT_DATA, 4096, packed),
        (257, item::EXTENT_DATA, 20480, part(0, 0)),
        (257, item::EXTENT_DATA, 28672, prealloc),
        (258, item::INODE_REF, 256, Content::Name(3, b"g")),
        (
            258,
            item::EXTENT_DATA,
            0,
            Content::Extent(0, Shape::Inline { len: 9 }),
        ),
    ];
    let at_packed = b"tree 5 inode 257 position 4096 path /f\nowners 1\n";
    let at_prealloc = b"tree 5 inode 257 position 28673 path /f\nowners 1\n";
    for (addr, count, text) in [
        (DATA, 1, at_packed.as_slice()),
        (DATA + 4095, 1, at_packed),
        (DATA + 4096, 0, b"owners 0\n"),
        (DATA + 8193, 1, at_prealloc),
    ] {
        let scene = Scene::new(rt.alloc())?.with_rows(5, &rows)?;
        told(&rt, scene, addr, count, text)?;
    }
    Ok(())
}

// A snapshot has the extents of its subvolume too. Trees of other ids are no subvolumes: not the extent tree, nor the one with the id minus 9.
#[test]
fn each_subvolume(rt: HostRuntime) -> Result<(), Fail> {
    let last = u64::MAX - 255;
    let mut text = Vec::new(rt.alloc());
    for id in ["5", "256", "300", "18446744073709551360"] {
        let line = format!(in rt.alloc(); "tree {} inode 257 position 0 path /f\n", id)?;
        text.extend_from_slice(line.as_bytes())?;
    }
    text.extend_from_slice(b"owners 4\n")?;
    let mut scene = Scene::new(rt.alloc())?;
    for id in [300, 2, 256, 255, 5, last, u64::MAX - 8] {
        if id == 2 || id == 255 || id == u64::MAX - 8 {
            // No block of such a tree is read: its root stands in no chunk.
            scene = scene.with_root(id, 0, u64::MAX - 8191)?;
        } else {
            scene = scene.with_rows(id, &FILE)?;
        }
    }
    told(&rt, scene, DATA + 4096, 4, text.as_slice())
}

// A subvolume in a directory of another one, and in that a snapshot of the first: a path begins at the top of its own subvolume, and the names of subvolumes
// in the root tree aren't read.
#[test]
fn nested_subvolumes(rt: HostRuntime) -> Result<(), Fail> {
    let outer: [Row; 2] = [
        (256, item::INODE_REF, 256, Content::Name(0, b"..")),
        (300, item::INODE_REF, 256, Content::Name(2, b"holds sub")),
    ];
    let inner: [Row; 4] = [
        (256, item::INODE_REF, 256, Content::Name(0, b"..")),
        (300, item::INODE_REF, 256, Content::Name(2, b"in sub")),
        (400, item::INODE_REF, 300, Content::Name(2, b"f")),
        (400, item::EXTENT_DATA, 4096, FRONT),
    ];
    let scene = Scene::new(rt.alloc())?
        .with_rows(5, &outer)?
        .beside(5, item::ROOT_REF, 256, 3)?
        .with_rows(256, &inner)?
        .beside(256, item::ROOT_BACKREF, 5, 3)?
        .beside(256, item::ROOT_REF, 257, 0)?
        .with_rows(257, &inner)?
        .beside(257, item::ROOT_BACKREF, 256, 0)?;
    let text =
        b"tree 256 inode 400 position 4101 path /in sub/f\ntree 257 inode 400 position 4101 path /in sub/f\nowners 2\n";
    told(&rt, scene, DATA + 5, 2, text)
}

// Of several ROOT_ITEMs of one id the one with the greatest offset has the tree, which is told once.
#[test]
fn one_tree_for_each_id(rt: HostRuntime) -> Result<(), Fail> {
    let scene = Scene::new(rt.alloc())?
        .with_rows(256, &FILE)?
        .with_root(257, 3, u64::MAX - 8191)?
        .with_root(257, 9, TREES)?;
    let text =
        b"tree 256 inode 257 position 0 path /f\ntree 257 inode 257 position 0 path /f\nowners 2\n";
    told(&rt, scene, DATA + 4096, 2, text)
}

// An owner is told before the items behind it are looked at.
fn breaks(rt: &impl Abort, alloc: Global, row: Row, leaf: u64) -> Result<(), Fail> {
    let mut items = Items::new(alloc);
    add(alloc, &mut items, &FILE)?;
    add(alloc, &mut items, &[row])?;
    let found = Scene::new(alloc)?.with(5, items)?.owners(DATA + 4096, 0)?;
    assert_eq!(rt; found.result, Err(Stop::Tree(TreeFault::Malformed(leaf))));
    assert_eq!(rt;
        found.out.text(),
        b"tree 5 inode 257 position 0 path /f\n".as_slice()
    );
    Ok(())
}

#[test]
fn extents_that_are_broken(rt: HostRuntime) -> Result<(), Fail> {
    let overlapping = (257, item::EXTENT_DATA, 4096, part(DATA, 0));
    breaks(&rt, rt.alloc(), overlapping, TREES)?;
    let short = (258, item::EXTENT_DATA, 0, Content::Zeros(20));
    breaks(&rt, rt.alloc(), short, TREES)
}

// An extent of the next file begins before the end of the one before.
#[test]
fn extents_of_the_next_file(rt: HostRuntime) -> Result<(), Fail> {
    let mut items = Items::new(rt.alloc());
    add(rt.alloc(), &mut items, &FILE)?;
    let next: [Row; 1] = [(258, item::EXTENT_DATA, 0, part(DATA, 0))];
    add(rt.alloc(), &mut items, &next)?;
    let scene = Scene::new(rt.alloc())?.with(5, items)?;
    let text =
        b"tree 5 inode 257 position 0 path /f\ntree 5 inode 258 position 4096 path ?\nowners 2\n";
    told(&rt, scene, DATA + 4096, 2, text)
}

// Items of other types aren't read by their form.
#[test]
fn items_that_are_not_read(rt: HostRuntime) -> Result<(), Fail> {
    let mut items = Items::new(rt.alloc());
    add(rt.alloc(), &mut items, &FILE)?;
    let other: [Row; 2] = [
        (257, item::INODE_ITEM, 0, Content::Zeros(3)),
        (300, item::INODE_REF, 256, Content::Zeros(3)),
    ];
    add(rt.alloc(), &mut items, &other)?;
    let scene = Scene::new(rt.alloc())?.with(5, items)?;
    let text = b"tree 5 inode 257 position 0 path /f\nowners 1\n";
    told(&rt, scene, DATA + 4096, 1, text)
}

// Two subvolumes of two levels each, with an owner in the last leaf of the first and in both leaves of the second.
fn of_two_levels(alloc: Global) -> Result<Scene, Fail> {
    let first: [Row; 6] = [
        (257, item::INODE_REF, 256, Content::Name(2, b"d")),
        (258, item::INODE_REF, 256, Content::Name(3, b"e")),
        (259, item::INODE_REF, 257, Content::Name(2, b"x")),
        (260, item::INODE_REF, 258, Content::Name(2, b"y")),
        (261, item::INODE_REF, 258, Content::Name(2, b"z")),
        (261, item::EXTENT_DATA, 0, FRONT),
    ];
    let second: [Row; 6] = [
        (257, item::INODE_REF, 256, Content::Name(2, b"d")),
        (258, item::INODE_REF, 257, Content::Name(2, b"e")),
        (259, item::INODE_REF, 258, Content::Name(2, b"x")),
        (259, item::EXTENT_DATA, 0, FRONT),
        (260, item::INODE_REF, 258, Content::Name(2, b"y")),
        (260, item::EXTENT_DATA, 0, FRONT),
    ];
    Scene::new(alloc)?
        .with_rows(5, &first)?
        .with_rows(256, &second)
}

// Each read on the way to these owners fails in turn, behind the opening, which is call 1: of the root tree's one block, and of three of each subvolume, which
// are kept once they were read. What was told before it stands.
#[test]
fn each_read_that_fails(rt: HostRuntime) -> Result<(), Fail> {
    let whole =
        b"tree 5 inode 261 position 0 path /e/z\ntree 256 inode 259 position 0 path /d/e/x\ntree 256 inode 260 position 0 path /d/e/y\nowners 3\n";
    let none = b"".as_slice();
    let one = b"tree 5 inode 261 position 0 path /e/z\n".as_slice();
    let two = b"tree 5 inode 261 position 0 path /e/z\ntree 256 inode 259 position 0 path /d/e/x\n";
    for (n, before) in [
        (2, none),
        (3, none),
        (4, none),
        (5, none),
        (6, one),
        (7, one),
        (8, two),
    ] {
        let found = of_two_levels(rt.alloc())?.owners(DATA, n)?;
        assert!(rt; matches!(found.result, Err(Stop::Tree(TreeFault::Unread(_, 0)))));
        assert_eq!(rt; found.out.text(), before);
    }
    let found = of_two_levels(rt.alloc())?.owners(DATA, 9)?;
    assert_eq!(rt; found.result, Ok(3));
    assert_eq!(rt; found.out.text(), whole.as_slice());
    Ok(())
}
