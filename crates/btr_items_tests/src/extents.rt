// Extents and the references to them.
use super::bodies;
use super::reading::{Answer, Reader, read};
use btr_base::Key;
use btr_items::{ExtentFlags, ExtentItem, InlineRef, Link, LooseRef, inline_refs, item};

// The front of a tree block's item, whose level is in its key.
const SKINNY: ExtentItem = ExtentItem {
    refs: 1,
    generation: 7,
    flags: ExtentFlags::TREE_BLOCK.0,
    level: None,
    first: 24,
};

const EXTENTS: [(u8, &[u8], ExtentItem); 4] = [
    (
        item::EXTENT_ITEM,
        bodies::SHARED_DATA,
        ExtentItem {
            refs: 4,
            generation: 10,
            flags: ExtentFlags::DATA.0,
            ..SKINNY
        },
    ),
    (
        item::EXTENT_ITEM,
        bodies::BLOCK,
        ExtentItem {
            generation: 6,
            level: Some(0),
            first: 42,
            ..SKINNY
        },
    ),
    (item::METADATA_ITEM, bodies::SKINNY, SKINNY),
    (
        item::EXTENT_ITEM,
        bodies::SHARED_BLOCK,
        ExtentItem {
            refs: 5,
            flags: ExtentFlags::TREE_BLOCK.0 | ExtentFlags::FULL_BACKREF.0,
            level: Some(1),
            first: 42,
            ..SKINNY
        },
    ),
];

#[test]
fn data_and_tree_blocks(rt: HostRuntime) {
    for (kind, body, wanted) in &EXTENTS {
        let found = read(Reader::Extent(*kind), body);
        assert_eq!(rt; found, Some(Answer::Extent(*wanted)));
    }
}

// A file's link in the tree of an id.
const FILE: Link = Link::File {
    root: 260,
    objectid: 257,
    offset: 0,
};

const LINKS_OF_DATA: [InlineRef; 3] = [
    InlineRef {
        link: FILE,
        count: 2,
        end: 53,
    },
    InlineRef {
        link: Link::File {
            root: 256,
            objectid: 257,
            offset: 0,
        },
        count: 1,
        end: 82,
    },
    InlineRef {
        link: Link::SharedFile(32_882_688),
        count: 1,
        end: 95,
    },
];

const LINKS_OF_BLOCK: [InlineRef; 2] = [
    InlineRef {
        link: Link::Tree(5),
        count: 1,
        end: 51,
    },
    InlineRef {
        link: Link::SharedTree(30_441_472),
        count: 1,
        end: 60,
    },
];

#[test]
fn a_link_of_a_block(rt: HostRuntime) {
    let link = InlineRef {
        link: Link::Tree(3),
        count: 1,
        end: 33,
    };
    let found = read(Reader::Reference(24), bodies::SKINNY);
    assert_eq!(rt; found, Some(Answer::Reference(link)));
}

#[test]
fn links_of_data(rt: HostRuntime) {
    let mut refs = inline_refs(bodies::SHARED_DATA, 24);
    for link in LINKS_OF_DATA {
        assert_eq!(rt; refs.next(), Some(Ok(link)));
    }
    assert_eq!(rt; refs.next(), None);
}

#[test]
fn links_of_a_block(rt: HostRuntime) {
    let mut refs = inline_refs(bodies::SHARED_BLOCK, 42);
    for link in LINKS_OF_BLOCK {
        assert_eq!(rt; refs.next(), Some(Ok(link)));
    }
    assert_eq!(rt; refs.next(), None);
}

// The parts of a key, a body, and what refers how many times.
const LOOSE: [(u64, u8, u64, &[u8], Link, u32); 4] = [
    (30_490_624, item::TREE_BLOCK_REF, 5, b"", Link::Tree(5), 1),
    (
        30_490_624,
        item::SHARED_BLOCK_REF,
        30_441_472,
        b"",
        Link::SharedTree(30_441_472),
        1,
    ),
    (
        13_631_488,
        item::EXTENT_DATA_REF,
        77,
        bodies::FILE_REF,
        Link::File {
            root: 5,
            objectid: 257,
            offset: 8192,
        },
        2,
    ),
    (
        13_631_488,
        item::SHARED_DATA_REF,
        30_457_856,
        bodies::BLOCK_REF,
        Link::SharedFile(30_457_856),
        4,
    ),
];

#[test]
fn loose_references(rt: HostRuntime) {
    for (objectid, kind, offset, body, link, count) in &LOOSE {
        let key = Key {
            objectid: *objectid,
            kind: *kind,
            offset: *offset,
        };
        let wanted = LooseRef {
            link: *link,
            count: *count,
        };
        let found = read(Reader::LooseReference(key), body);
        assert_eq!(rt; found, Some(Answer::LooseReference(wanted)));
    }
}
