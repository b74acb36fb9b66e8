// What stands in trees of files.
use super::bodies;
use super::reading::{Answer, Reader, read};
use btr_base::Key;
use btr_items::{
    Entry, ExtRef, FileExtent, Inode, InodeRef, Shape, entries, ext_refs, inode_refs, item,
};
use std::test::Fail;

// The inode of a file.
const INODE: Inode = Inode {
    size: 200_000,
    nlink: 1,
    mode: 0o100_644,
    flags: 3,
};

// A file extent without compression.
const EXTENT: FileExtent = FileExtent {
    generation: 8,
    ram: 102_400,
    compression: 0,
    encoded: false,
    shape: Shape::Regular {
        addr: 14_565_376,
        disk_len: 102_400,
        skip: 12_288,
        len: 90_112,
    },
};

const ENTRY: Entry = Entry {
    location: Key {
        objectid: 256,
        kind: item::ROOT_ITEM,
        offset: 0,
    },
    transid: 10,
    kind: 2,
    extra_len: 0,
    name_at: 30,
    name_len: 3,
    end: 33,
};

// The first of an inode's names, in one directory and in two.
const NAME: InodeRef = InodeRef {
    index: 2,
    name_at: 10,
    name_len: 5,
    end: 15,
};

const FAR_NAME: ExtRef = ExtRef {
    parent: 257,
    index: 4,
    name_at: 18,
    name_len: 4,
    end: 22,
};

const ITEMS: [(Reader, &[u8], Answer); 12] = [
    (Reader::Name(0), bodies::NAMES, Answer::Name(NAME)),
    (
        Reader::FarName(0),
        bodies::FAR_NAMES,
        Answer::FarName(FAR_NAME),
    ),
    (Reader::Inode, bodies::FILE, Answer::Inode(INODE)),
    (
        Reader::Inode,
        bodies::LINKED,
        Answer::Inode(Inode {
            size: 30_000,
            nlink: 22,
            flags: 0,
            ..INODE
        }),
    ),
    (Reader::Index, bodies::SUBVOLUME, Answer::Entry(ENTRY)),
    (
        Reader::Entry(0),
        bodies::COLOR,
        Answer::Entry(Entry {
            location: Key {
                objectid: 0,
                kind: 0,
                offset: 0,
            },
            transid: 7_712_612_639_037_194_240,
            kind: 8,
            extra_len: 5,
            name_at: 30,
            name_len: 10,
            end: 45,
        }),
    ),
    (
        Reader::FileExtent(0),
        bodies::INLINE,
        Answer::FileExtent(FileExtent {
            generation: 7,
            ram: 22,
            shape: Shape::Inline { len: 22 },
            ..EXTENT
        }),
    ),
    (
        Reader::FileExtent(114_688),
        bodies::PART,
        Answer::FileExtent(EXTENT),
    ),
    (
        Reader::FileExtent(0),
        bodies::PREALLOC,
        Answer::FileExtent(FileExtent {
            ram: 1_048_576,
            shape: Shape::Prealloc {
                addr: 64_901_120,
                disk_len: 1_048_576,
                skip: 0,
                len: 1_048_576,
            },
            ..EXTENT
        }),
    ),
    (
        Reader::FileExtent(4096),
        bodies::HOLE,
        Answer::FileExtent(FileExtent {
            generation: 7,
            ram: 8192,
            shape: Shape::Regular {
                addr: 0,
                disk_len: 0,
                skip: 0,
                len: 8192,
            },
            ..EXTENT
        }),
    ),
    (
        Reader::FileExtent(0),
        bodies::COMPRESSED,
        Answer::FileExtent(FileExtent {
            generation: 9,
            ram: 131_072,
            compression: 3,
            shape: Shape::Regular {
                addr: 16_105_472,
                disk_len: 20_480,
                skip: 0,
                len: 131_072,
            },
            ..EXTENT
        }),
    ),
    (
        Reader::FileExtent(12_288),
        bodies::COMPRESSED_PART,
        Answer::FileExtent(FileExtent {
            generation: 7,
            ram: 131_072,
            compression: 3,
            shape: Shape::Regular {
                addr: 13_631_488,
                disk_len: 8192,
                skip: 65_536,
                len: 61_440,
            },
            ..EXTENT
        }),
    ),
];

#[test]
fn names_inodes_entries_and_extents(rt: HostRuntime) {
    for (reader, body, wanted) in &ITEMS {
        assert_eq!(rt; read(*reader, body), Some(*wanted));
    }
}

#[test]
fn names_of_inodes(rt: HostRuntime) -> Result<(), Fail> {
    let link19 = InodeRef {
        index: 22,
        name_at: 329,
        name_len: 6,
        end: 335,
    };
    let mut names = inode_refs(bodies::NAMES);
    assert_eq!(rt; names.next(), Some(Ok(NAME)));
    assert_eq!(rt; names.nth(19), Some(Ok(link19)));
    assert_eq!(rt; names.next(), None);
    assert_eq!(rt; InodeRef::read(bodies::LONG_NAME, 0)?.name_len, 255);
    Ok(())
}

#[test]
fn names_in_far_directories(rt: HostRuntime) {
    let another = ExtRef {
        parent: 260,
        index: 9,
        name_at: 40,
        name_len: 7,
        end: 47,
    };
    let mut names = ext_refs(bodies::FAR_NAMES);
    assert_eq!(rt; names.next(), Some(Ok(FAR_NAME)));
    assert_eq!(rt; names.next(), Some(Ok(another)));
    assert_eq!(rt; names.next(), None);
}

#[test]
fn entries_of_directories(rt: HostRuntime) {
    let file = Entry {
        location: Key {
            objectid: 309,
            kind: item::INODE_ITEM,
            offset: 0,
        },
        transid: 7,
        kind: 1,
        extra_len: 0,
        name_at: 30,
        name_len: 9,
        end: 39,
    };
    let dir = Entry {
        location: Key {
            objectid: 310,
            kind: item::INODE_ITEM,
            offset: 0,
        },
        transid: 7,
        kind: 2,
        extra_len: 0,
        name_at: 69,
        name_len: 9,
        end: 78,
    };
    let mut found = entries(bodies::COLLISION);
    assert_eq!(rt; found.next(), Some(Ok(file)));
    assert_eq!(rt; found.next(), Some(Ok(dir)));
    assert_eq!(rt; found.next(), None);
}
