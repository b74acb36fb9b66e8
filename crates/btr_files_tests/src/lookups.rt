// Lookups in trees of several leaves. Each is made in a volume of its own.
use super::volume::{DATA, START, SUMS, form, root_of, scene_by, tree_at, tree_of};
use btr_base::{SumKind, sum};
use btr_files::{NameBuf, Summed, Survey, inode, linked, mounted, sums_from, survey};
use btr_items::{FileExtent, Inode, Shape, item};
use btr_make_blocks::{Body, Form, Items, Tree, bodies};
use btr_walk::TreeFault;
use std::alloc::{AllocError, Global};
use std::test::Fail;

const CRC: SumKind = SumKind::Crc32c;

const INODE: Inode = Inode {
    size: 10,
    nlink: 1,
    mode: 0o100644,
    flags: 0,
};

// The faults of leaves of a tree, which stand one behind another.
const IN_SECOND: TreeFault = TreeFault::Malformed(START + 8192);

const IN_THIRD: TreeFault = TreeFault::Malformed(START + 16384);

const IN_FOURTH: TreeFault = TreeFault::Malformed(START + 24576);

// What stands in an item.
#[derive(Clone, Copy)]
enum Content {
    Inode,
    Zeros(usize),
    // A name by its index in a directory: of an inode, of one in the directory 256, and of a subvolume there.
    Name(u64, &'static [u8]),
    FarName(u64, &'static [u8]),
    RootName(u64, &'static [u8]),
    // An extent of 8192 bytes, by its compression and whether it is encoded.
    Extent(u64, bool),
    Inline,
}

// The parts of an item's key, and a part of its body.
type Row = (u64, u8, u64, Content);

fn extent(compression: u64, encoded: bool) -> FileExtent {
    FileExtent {
        generation: 7,
        ram: 8192,
        compression,
        encoded,
        shape: Shape::Regular {
            addr: DATA,
            disk_len: 8192,
            skip: 0,
            len: 8192,
        },
    }
}

fn body_of(alloc: Global, content: Content) -> Result<Body, AllocError> {
    match content {
        Content::Inode => bodies::inode_item(alloc, &INODE, 7, 0),
        Content::Zeros(len) => Body::new(alloc).zeros(len),
        Content::Name(index, name) => bodies::inode_ref(alloc, index, name),
        Content::FarName(index, name) => bodies::ext_ref(alloc, 256, index, name),
        Content::RootName(index, name) => bodies::root_ref(alloc, 256, index, name),
        Content::Extent(compression, encoded) => {
            bodies::file_extent(alloc, &extent(compression, encoded))
        }
        Content::Inline => bodies::inline(alloc, 7, b"end"),
    }
}

// The tree of some items.
fn tree(alloc: Global, rows: &[Row]) -> Result<Tree, Fail> {
    let mut items = Items::new(alloc);
    for (objectid, kind, offset, content) in rows {
        let part = body_of(alloc, *content)?;
        items.append(*objectid, *kind, *offset, &part)?;
    }
    tree_of(alloc, items)
}

// The inode of a number, where the call of another number fails.
fn inode_in(
    alloc: Global,
    tree: &Tree,
    failing: u64,
    ino: u64,
) -> Result<Result<Option<Inode>, TreeFault>, Fail> {
    let mut scene = scene_by(alloc, CRC, tree, failing)?;
    Ok(inode(&root_of(tree), ino, &mut scene.rack, &mut scene.vol))
}

// The inodes 257 to 266, and one that breaks its form.
const INODES: [Row; 11] = [
    (257, item::INODE_ITEM, 0, Content::Inode),
    (258, item::INODE_ITEM, 0, Content::Inode),
    (259, item::INODE_ITEM, 0, Content::Inode),
    (260, item::INODE_ITEM, 0, Content::Inode),
    (261, item::INODE_ITEM, 0, Content::Inode),
    (262, item::INODE_ITEM, 0, Content::Inode),
    (263, item::INODE_ITEM, 0, Content::Inode),
    (264, item::INODE_ITEM, 0, Content::Inode),
    (265, item::INODE_ITEM, 0, Content::Inode),
    (266, item::INODE_ITEM, 0, Content::Inode),
    (300, item::INODE_ITEM, 0, Content::Zeros(159)),
];

const FOUND_INODES: [(u64, Result<Option<Inode>, TreeFault>); 5] = [
    (257, Ok(Some(INODE))),
    (266, Ok(Some(INODE))),
    (256, Ok(None)),
    (301, Ok(None)),
    (300, Err(IN_FOURTH)),
];

#[test]
fn inodes_of_a_tree(rt: HostRuntime) -> Result<(), Fail> {
    let tree = tree(rt.alloc(), &INODES)?;
    for (ino, wanted) in &FOUND_INODES {
        let found = inode_in(rt.alloc(), &tree, 0, *ino)?;
        assert_eq!(rt; found, *wanted, "of {ino}");
    }
    Ok(())
}

// The second to the fourth call read the blocks above an inode's item.
#[test]
fn inodes_that_cannot_be_read(rt: HostRuntime) -> Result<(), Fail> {
    let tree = tree(rt.alloc(), &INODES)?;
    for failing in 2..5 {
        let found = inode_in(rt.alloc(), &tree, failing, 257)?;
        assert!(rt;
            matches!(found, Err(TreeFault::Unread(_, 0))),
            "at {failing}"
        );
    }
    Ok(())
}

// A name in its place.
fn name(bytes: &[u8]) -> NameBuf {
    let mut name = NameBuf::new();
    if bytes.len() <= 255 {
        name.set(bytes);
    }
    name
}

// A name that is asked for: of which inode or subvolume it is, and in which tree; its directory, its index there and its bytes.
#[derive(Clone, Copy)]
struct Asked {
    id: u64,
    parent: u64,
    dir: u64,
    index: u64,
    name: &'static [u8],
}

// Whether a name is the one of an inode.
fn linked_in(alloc: Global, tree: &Tree, asked: &Asked) -> Result<Result<bool, TreeFault>, Fail> {
    let mut scene = scene_by(alloc, CRC, tree, 0)?;
    let name = name(asked.name);
    Ok(linked(
        &root_of(tree),
        asked.id,
        asked.dir,
        asked.index,
        &name,
        &mut scene.rack,
        &mut scene.vol,
    ))
}

// Whether a name is the one of a subvolume.
fn mounted_in(alloc: Global, tree: &Tree, asked: &Asked) -> Result<Result<bool, TreeFault>, Fail> {
    let mut scene = scene_by(alloc, CRC, tree, 0)?;
    let name = name(asked.name);
    Ok(mounted(
        asked.id,
        asked.parent,
        asked.dir,
        asked.index,
        &name,
        &mut scene.rack,
        &mut scene.vol,
    ))
}

// Inodes with names: 257 has one, 258 two in one item, 259 two in items of both kinds, 260 one in an INODE_EXTREF, and
// those of 261 and 262 break their form.
const NAMES: [Row; 9] = [
    (257, item::INODE_REF, 256, Content::Name(2, b"one")),
    (258, item::INODE_REF, 256, Content::Name(3, b"one")),
    (258, item::INODE_REF, 256, Content::Name(4, b"two")),
    (259, item::INODE_REF, 256, Content::Name(5, b"one")),
    (259, item::INODE_EXTREF, 77, Content::FarName(6, b"two")),
    (260, item::INODE_EXTREF, 77, Content::FarName(7, b"one")),
    (261, item::INODE_REF, 256, Content::Zeros(0)),
    (262, item::INODE_REF, 256, Content::Name(8, b"one")),
    (262, item::INODE_REF, 257, Content::Zeros(9)),
];

type Linked = (u64, u64, u64, &'static [u8], Result<bool, TreeFault>);

const LINKED: [Linked; 10] = [
    (257, 256, 2, b"one", Ok(true)),
    (257, 257, 2, b"one", Ok(false)),
    (257, 256, 3, b"one", Ok(false)),
    (257, 256, 2, b"on", Ok(false)),
    (258, 256, 3, b"one", Ok(false)),
    (259, 256, 5, b"one", Ok(false)),
    (260, 256, 7, b"one", Ok(true)),
    (263, 256, 7, b"one", Ok(false)),
    (261, 256, 7, b"one", Err(IN_SECOND)),
    (262, 256, 8, b"one", Err(IN_THIRD)),
];

#[test]
fn names_of_inodes(rt: HostRuntime) -> Result<(), Fail> {
    let tree = tree(rt.alloc(), &NAMES)?;
    for (ino, dir, index, name, wanted) in &LINKED {
        let asked = Asked {
            id: *ino,
            parent: 5,
            dir: *dir,
            index: *index,
            name: *name,
        };
        let found = linked_in(rt.alloc(), &tree, &asked)?;
        assert_eq!(rt; found, *wanted, "of {ino}");
    }
    Ok(())
}

const ROOT_NAMES: [Row; 3] = [
    (256, item::ROOT_BACKREF, 5, Content::RootName(2, b"sub")),
    (257, item::ROOT_BACKREF, 5, Content::RootName(3, b"two")),
    (257, item::ROOT_BACKREF, 256, Content::RootName(3, b"two")),
];

type Mounted = (u64, u64, u64, u64, &'static [u8], bool);

const MOUNTED: [Mounted; 6] = [
    (256, 5, 256, 2, b"sub", true),
    (256, 6, 256, 2, b"sub", false),
    (256, 5, 257, 2, b"sub", false),
    (256, 5, 256, 2, b"two", false),
    (257, 5, 256, 3, b"two", false),
    (258, 5, 256, 3, b"sub", false),
];

#[test]
fn names_of_subvolumes(rt: HostRuntime) -> Result<(), Fail> {
    let tree = tree(rt.alloc(), &ROOT_NAMES)?;
    for (id, parent, dir, index, name, wanted) in &MOUNTED {
        let asked = Asked {
            id: *id,
            parent: *parent,
            dir: *dir,
            index: *index,
            name: *name,
        };
        let found = mounted_in(rt.alloc(), &tree, &asked)?;
        assert_eq!(rt; found, Ok(*wanted), "of {id}");
    }
    Ok(())
}

fn survey_in(alloc: Global, tree: &Tree, ino: u64) -> Result<Result<Survey, TreeFault>, Fail> {
    let mut scene = scene_by(alloc, CRC, tree, 0)?;
    Ok(survey(&root_of(tree), ino, &mut scene.rack, &mut scene.vol))
}

const EXTENTS: [Row; 10] = [
    (258, item::EXTENT_DATA, 0, Content::Extent(0, false)),
    (258, item::EXTENT_DATA, 8192, Content::Extent(3, true)),
    (258, item::EXTENT_DATA, 12288, Content::Zeros(0)),
    (259, item::EXTENT_DATA, 0, Content::Extent(0, false)),
    (259, item::EXTENT_DATA, 8192, Content::Extent(0, true)),
    (259, item::EXTENT_DATA, 12288, Content::Zeros(0)),
    (257, item::EXTENT_DATA, 0, Content::Extent(0, false)),
    (257, item::EXTENT_DATA, 8192, Content::Inline),
    (260, item::EXTENT_DATA, 0, Content::Extent(0, false)),
    (260, item::EXTENT_DATA, 4096, Content::Extent(3, false)),
];

const SURVEYS: [(u64, Result<Survey, TreeFault>); 5] = [
    (256, Ok(Survey::Clear)),
    (257, Ok(Survey::Clear)),
    (258, Ok(Survey::Compressed)),
    (259, Ok(Survey::Encoded)),
    (260, Err(IN_FOURTH)),
];

#[test]
fn surveys_of_files(rt: HostRuntime) -> Result<(), Fail> {
    let tree = tree(rt.alloc(), &EXTENTS)?;
    for (ino, wanted) in &SURVEYS {
        let found = survey_in(rt.alloc(), &tree, *ino)?;
        assert_eq!(rt; found, *wanted, "of {ino}");
    }
    Ok(())
}

// What a look-up tells of the checksums from an address on, in a filesystem whose checksums are of
// this kind and stand in a tree, or in none.
fn summed_in(
    alloc: Global,
    kind: SumKind,
    tree: &Tree,
    is_there: bool,
    addr: u64,
) -> Result<Result<Summed, TreeFault>, Fail> {
    let root = root_of(tree);
    let mut scene = scene_by(alloc, kind, tree, 0)?;
    let sums = if is_there { Some(&root) } else { None };
    Ok(sums_from(sums, addr, &mut scene.rack, &mut scene.vol))
}

// A run of checksums of these sectors, each of one byte.
fn run(alloc: Global, kind: SumKind, sectors: &[u8]) -> Result<Body, AllocError> {
    let mut body = Body::new(alloc);
    for byte in sectors {
        body = bodies::with_sum(body, kind, &sum(kind, &[*byte; 4096]))?;
    }
    Ok(body)
}

// What is told of a sector: the byte that it is made of, or how many from it on have no checksum.
#[derive(Clone, Copy)]
enum Wanted {
    Byte(u8),
    Gap(u64),
}

// The same with the checksum of a sector of that byte.
fn summed_by(kind: SumKind, wanted: Wanted) -> Summed {
    match wanted {
        Wanted::Byte(byte) => Summed::Sum(sum(kind, &[byte; 4096])),
        Wanted::Gap(count) => Summed::Gap(count),
    }
}

// The tree of the checksums of three sectors, with so many items in a leaf.
fn sums(alloc: Global, kind: SumKind, in_leaf: usize) -> Result<Tree, Fail> {
    let mut items = Items::new(alloc);
    let (sums, csum) = (u64::MAX - 9, item::EXTENT_CSUM);
    items.put(sums, csum, DATA, run(alloc, kind, &[1, 2])?)?;
    items.put(sums, csum, DATA + 16384, run(alloc, kind, &[5])?)?;
    let form = Form {
        items: in_leaf,
        ..form(kind)
    };
    tree_at(alloc, &form, SUMS, items)
}

const SECTORS: [(u64, bool, Wanted); 10] = [
    (DATA - 16384, true, Wanted::Gap(4)),
    (DATA - 4096, true, Wanted::Gap(1)),
    (DATA, true, Wanted::Byte(1)),
    (DATA + 4096, true, Wanted::Byte(2)),
    (DATA + 8192, true, Wanted::Gap(2)),
    (DATA + 12288, true, Wanted::Gap(1)),
    (DATA + 16384, true, Wanted::Byte(5)),
    (DATA + 20480, true, Wanted::Gap(u64::MAX)),
    (DATA, false, Wanted::Gap(u64::MAX)),
    (0, false, Wanted::Gap(u64::MAX)),
];

#[test]
fn checksums_of_sectors(rt: HostRuntime) -> Result<(), Fail> {
    for kind in [SumKind::Crc32c, SumKind::Xxh64, SumKind::Sha256] {
        for in_leaf in [1, 3] {
            let tree = sums(rt.alloc(), kind, in_leaf)?;
            for (addr, is_there, wanted) in &SECTORS {
                let found = summed_in(rt.alloc(), kind, &tree, *is_there, *addr)?;
                assert_eq!(rt; found, Ok(summed_by(kind, *wanted)), "at {addr}");
            }
        }
    }
    Ok(())
}
