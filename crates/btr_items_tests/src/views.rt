// What is asked of an item that was read.
use super::bodies;
use btr_base::Key;
use btr_items::{Entry, ExtRef, ExtentItem, FileExtent, InodeRef, Link, RootRef, Shape, item};
use std::test::Fail;

#[test]
fn bytes_of_names(rt: HostRuntime) -> Result<(), Fail> {
    let color = Entry::read(bodies::COLOR, 0)?;
    assert_eq!(rt; color.name(bodies::COLOR), b"user.color".as_slice());
    let first = InodeRef::read(bodies::NAMES, 0)?;
    assert_eq!(rt; first.name(bodies::NAMES), b"first".as_slice());
    let another = ExtRef::read(bodies::FAR_NAMES, 22)?;
    assert_eq!(rt; another.name(bodies::FAR_NAMES), b"another".as_slice());
    let subvolume = RootRef::read(bodies::ROOT_NAME)?;
    assert_eq!(rt; subvolume.name(bodies::ROOT_NAME), b"sv1".as_slice());
    Ok(())
}

#[test]
fn inline_bytes(rt: HostRuntime) -> Result<(), Fail> {
    let data = FileExtent::inline_data(bodies::INLINE);
    assert_eq!(rt; data, b"inline data of a file\x0a".as_slice());
    Ok(())
}

// An inline extent that is compressed may make any number of bytes.
#[test]
fn ends_of_extents(rt: HostRuntime) -> Result<(), Fail> {
    let read = FileExtent::read(0, bodies::INLINE)?;
    assert_eq!(rt; (read.file_len(), read.end(0)), (22, 22));
    let huge = FileExtent {
        ram: u64::MAX,
        compression: 3,
        shape: Shape::Inline { len: 22 },
        ..read
    };
    assert_eq!(rt; huge.end(4096), 18_446_744_073_709_555_711);
    let part = FileExtent::read(114_688, bodies::PART)?;
    assert_eq!(rt; part.end(114_688), 204_800);
    let prealloc = FileExtent::read(0, bodies::PREALLOC)?;
    assert_eq!(rt; prealloc.end(0), 1_048_576);
    Ok(())
}

#[test]
fn keys_of_blocks(rt: HostRuntime) -> Result<(), Fail> {
    let key = Key {
        objectid: 1,
        kind: 216,
        offset: 1,
    };
    let block = ExtentItem::read(item::EXTENT_ITEM, bodies::BLOCK)?;
    assert!(rt; block.first <= bodies::BLOCK.len());
    assert_eq!(rt; block.block_key(bodies::BLOCK), Some(key));
    let skinny = ExtentItem::read(item::METADATA_ITEM, bodies::SKINNY)?;
    assert!(rt; skinny.first <= bodies::SKINNY.len());
    assert_eq!(rt; skinny.block_key(bodies::SKINNY), None);
    Ok(())
}

const FIRST: Link = Link::File {
    root: 5,
    objectid: 257,
    offset: 0,
};

const SECOND: Link = Link::File {
    root: 5,
    objectid: 257,
    offset: 8192,
};

const ASCENDING: [(Link, Link); 5] = [
    (Link::Tree(5), Link::Tree(9)),
    (Link::Tree(9), FIRST),
    (FIRST, SECOND),
    (SECOND, Link::SharedTree(1)),
    (Link::SharedTree(1), Link::SharedFile(0)),
];

#[test]
fn order_of_links(rt: HostRuntime) {
    for (less, more) in &ASCENDING {
        assert!(rt; *less < *more && !(*more < *less), "{less:?} {more:?}");
    }
}
