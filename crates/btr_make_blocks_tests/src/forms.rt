// Bodies, as they are read back.
use btr_base::{Key, SumKind, sum};
use btr_chunk::{Chunk, Stripe};
use btr_items::{
    BlockGroup, DevExtent, DevItem, Entry, ExtRef, ExtentFlags, ExtentItem, FileExtent, InlineRef,
    Inode, InodeRef, Link, LooseRef, RootItem, RootRef, Shape, SumRun, item,
};
use btr_make_blocks::{Body, bodies};
use std::test::Fail;

const NO_KEY: Key = Key {
    objectid: 0,
    kind: 0,
    offset: 0,
};

const HOME: Key = Key {
    objectid: 256,
    kind: 1,
    offset: 0,
};

#[test]
fn inodes(rt: HostRuntime) -> Result<(), Fail> {
    let inode = Inode {
        size: 9,
        nlink: 8,
        mode: 0o100644,
        flags: 7,
    };
    let body = bodies::inode_item(rt.alloc(), &inode, 3, 2)?;
    assert_eq!(rt; Inode::read(body.as_slice()), Ok(inode));
    Ok(())
}

#[test]
fn ranges_of_files(rt: HostRuntime) -> Result<(), Fail> {
    let (addr, disk_len, skip, len) = (4096, 40960, 8192, 12288);
    for shape in [
        Shape::Inline { len: 300 },
        Shape::Regular {
            addr,
            disk_len,
            skip,
            len,
        },
        Shape::Prealloc {
            addr,
            disk_len,
            skip,
            len,
        },
    ] {
        let extent = FileExtent {
            generation: 3,
            ram: 4,
            compression: 1,
            encoded: true,
            shape,
        };
        let body = bodies::file_extent(rt.alloc(), &extent)?;
        assert_eq!(rt; FileExtent::read(0, body.as_slice()), Ok(extent));
    }
    let body = bodies::inline(rt.alloc(), 3, b"hello")?;
    assert!(rt; body.as_slice().ends_with(b"hello") && body.len() == 26);
    Ok(())
}

#[test]
fn entries(rt: HostRuntime) -> Result<(), Fail> {
    let body = bodies::entry(rt.alloc(), HOME, 7, 2, b"home")?;
    let entry = Entry {
        location: HOME,
        transid: 7,
        kind: 2,
        extra_len: 0,
        name_at: 30,
        name_len: 4,
        end: 34,
    };
    assert_eq!(rt; Entry::index(body.as_slice()), Ok(entry));
    let body = bodies::xattr(rt.alloc(), 7, b"user.x", b"data")?;
    let attribute = Entry {
        location: NO_KEY,
        kind: 8,
        extra_len: 4,
        name_len: 6,
        end: 40,
        ..entry
    };
    assert_eq!(rt; Entry::read(body.as_slice(), 0), Ok(attribute));
    Ok(())
}

#[test]
fn names(rt: HostRuntime) -> Result<(), Fail> {
    let body = bodies::inode_ref(rt.alloc(), 5, b"home")?;
    let name = InodeRef {
        index: 5,
        name_at: 10,
        name_len: 4,
        end: 14,
    };
    assert_eq!(rt; InodeRef::read(body.as_slice(), 0), Ok(name));
    let body = bodies::ext_ref(rt.alloc(), 256, 5, b"home")?;
    let name = ExtRef {
        parent: 256,
        index: 5,
        name_at: 18,
        name_len: 4,
        end: 22,
    };
    assert_eq!(rt; ExtRef::read(body.as_slice(), 0), Ok(name));
    let body = bodies::root_ref(rt.alloc(), 256, 5, b"home")?;
    let name = RootRef {
        dirid: 256,
        sequence: 5,
        name_at: 18,
        name_len: 4,
    };
    assert_eq!(rt; RootRef::read(body.as_slice()), Ok(name));
    Ok(())
}

#[test]
fn extents(rt: HostRuntime) -> Result<(), Fail> {
    let alloc = rt.alloc();
    let file = Link::File {
        root: 5,
        objectid: 260,
        offset: 4096,
    };
    let links = [
        (Link::Tree(5), item::TREE_BLOCK_REF, 5, 1),
        (Link::SharedTree(4096), item::SHARED_BLOCK_REF, 4096, 1),
        (Link::SharedFile(4096), item::SHARED_DATA_REF, 4096, 3),
        (
            file,
            item::EXTENT_DATA_REF,
            bodies::data_ref_hash(5, 260, 4096),
            3,
        ),
    ];
    let extent = ExtentItem {
        refs: 8,
        generation: 7,
        flags: ExtentFlags::TREE_BLOCK.0,
        level: Some(3),
        first: 42,
    };
    let mut body = bodies::extent_item(alloc, &extent)?;
    for (link, kind, offset, count) in links {
        let at = body.len();
        body = bodies::inline_ref(body, &link, count)?;
        let end = body.len();
        let bytes = body.as_slice();
        assert!(rt; at <= bytes.len());
        let found = InlineRef { link, count, end };
        assert_eq!(rt; InlineRef::read(bytes, at), Ok(found));
        let key = Key {
            objectid: 8192,
            kind,
            offset,
        };
        let loose = bodies::loose_ref(alloc, &link, count)?;
        let found = LooseRef { link, count };
        assert_eq!(rt; LooseRef::read(key, loose.as_slice()), Ok(found));
    }
    assert_eq!(rt;
        ExtentItem::read(item::EXTENT_ITEM, body.as_slice())?,
        extent
    );
    Ok(())
}

#[test]
fn chunks(rt: HostRuntime) -> Result<(), Fail> {
    let stripe = Stripe {
        devid: 2,
        offset: 1048576,
        uuid: [9; 16],
    };
    let body = bodies::chunk_item(rt.alloc(), 131072, 0x41, &[stripe, stripe])?;
    let chunk = Chunk::read(rt.alloc(), 65536, body.as_slice())?;
    assert_eq!(rt; (chunk.length, chunk.kind), (131072, 0x41));
    assert!(rt; chunk.stripes.len() == 2);
    assert_eq!(rt; chunk.stripes.at(1), stripe);
    let group = BlockGroup {
        used: 3,
        owner: 256,
        flags: 0x41,
    };
    let body = bodies::block_group(rt.alloc(), &group)?;
    assert_eq!(rt; BlockGroup::read(body.as_slice()), Ok(group));
    Ok(())
}

#[test]
fn devices(rt: HostRuntime) -> Result<(), Fail> {
    let extent = DevExtent {
        chunk: 65536,
        length: 131072,
    };
    let body = bodies::dev_extent(rt.alloc(), &extent, &[8; 16])?;
    assert_eq!(rt; DevExtent::read(body.as_slice()), Ok(extent));
    let device = DevItem {
        devid: 2,
        total: 5,
        used: 4,
        uuid: [9; 16],
    };
    let body = bodies::dev_item(rt.alloc(), &device, &[8; 16])?;
    assert_eq!(rt; DevItem::read(body.as_slice()), Ok(device));
    Ok(())
}

#[test]
fn roots(rt: HostRuntime) -> Result<(), Fail> {
    let root = RootItem {
        generation: 7,
        dirid: 256,
        bytenr: 16384,
        flags: 1,
        refs: 1,
        level: 2,
    };
    let body = bodies::root_item(rt.alloc(), &root, 16384)?;
    assert_eq!(rt; RootItem::read(body.as_slice()), Ok(root));
    assert_eq!(rt; body.len(), 439);
    Ok(())
}

#[test]
fn sums(rt: HostRuntime) -> Result<(), Fail> {
    let alloc = rt.alloc();
    let key = Key {
        objectid: 0xffff_ffff_ffff_fff6,
        kind: item::EXTENT_CSUM,
        offset: 4096,
    };
    for kind in [SumKind::Crc32c, SumKind::Sha256, SumKind::Xxh64] {
        let (first, second) = (sum(kind, b"first"), sum(kind, b"second"));
        let body = bodies::with_sum(Body::new(alloc), kind, &first)?;
        let body = bodies::with_sum(body, kind, &second)?;
        let bytes = body.as_slice();
        let run = SumRun::read(kind, key, bytes)?;
        assert_eq!(rt; run.start, 4096);
        assert!(rt; run.count == 2);
        assert_eq!(rt; run.sum_at(kind, bytes, 0), first);
        assert_eq!(rt; run.sum_at(kind, bytes, 1), second);
    }
    Ok(())
}
