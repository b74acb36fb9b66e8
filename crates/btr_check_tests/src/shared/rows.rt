// What is made wrong in a leaf, and what is wrong by that.
use super::damage::{Item, Number, Poke, Row};
use btr_findings::Kind;

// The directory and the file that it names first, at index 2.
const AT_INDEX: &[Number] = &[Number::Tree, Number::Directory, Number::Plain(2)];

// The same under the hash of the name.
const AT_HASH: &[Number] = &[Number::Tree, Number::Directory, Number::Hash];

// The file's reference to the directory, at index 2.
const REFERENCE: &[Number] = &[
    Number::Tree,
    Number::File,
    Number::Directory,
    Number::Plain(2),
];

/// What makes a block of a tree wrong.
pub(super) const BLOCK_ROWS: [Row; 3] = [
    // The checksum isn't that of the block.
    Row {
        pokes: &[Poke {
            item: Item::File,
            at: 40,
            bytes: &[5],
        }],
        is_sealed: false,
        lines: &[(Kind::Lost, &[Number::Leaf])],
    },
    // An entry of no kind.
    Row {
        pokes: &[Poke {
            item: Item::Index(2),
            at: 29,
            bytes: &[0],
        }],
        is_sealed: true,
        lines: &[(Kind::Malformed, &[Number::Leaf])],
    },
    // An extent that ends behind the beginning of the next one, which the next leaf has.
    Row {
        pokes: &[
            Poke {
                item: Item::Extent,
                at: 29,
                bytes: &[0, 0x20],
            },
            Poke {
                item: Item::Extent,
                at: 45,
                bytes: &[0, 0x20],
            },
        ],
        is_sealed: true,
        lines: &[(Kind::Malformed, &[Number::Behind])],
    },
];

/// What makes names or inodes wrong.
pub(super) const NAME_ROWS: [Row; 8] = [
    // An entry of another name by its index alone.
    Row {
        pokes: &[Poke {
            item: Item::Index(2),
            at: 30,
            bytes: b"h",
        }],
        is_sealed: true,
        lines: &[
            (Kind::EntryItem, AT_INDEX),
            (Kind::EntryIndex, AT_HASH),
            (Kind::EntryRef, AT_INDEX),
            (Kind::RefEntry, REFERENCE),
        ],
    },
    // An entry to another inode by its hash alone.
    Row {
        pokes: &[Poke {
            item: Item::Hashed,
            at: 0,
            bytes: &[0xe7, 3],
        }],
        is_sealed: true,
        lines: &[(Kind::EntryItem, AT_INDEX), (Kind::EntryIndex, AT_HASH)],
    },
    // An entry to a file of another leaf, both ways.
    Row {
        pokes: &[
            Poke {
                item: Item::Index(2),
                at: 0,
                bytes: &[1, 1],
            },
            Poke {
                item: Item::Hashed,
                at: 0,
                bytes: &[1, 1],
            },
        ],
        is_sealed: true,
        lines: &[(Kind::EntryRef, AT_INDEX), (Kind::RefEntry, REFERENCE)],
    },
    // A reference of another index.
    Row {
        pokes: &[Poke {
            item: Item::Reference,
            at: 0,
            bytes: &[9],
        }],
        is_sealed: true,
        lines: &[
            (Kind::EntryRef, AT_INDEX),
            (
                Kind::RefEntry,
                &[
                    Number::Tree,
                    Number::File,
                    Number::Directory,
                    Number::Plain(9),
                ],
            ),
        ],
    },
    // A directory that is a file by its mode. Its entry stands in the top directory.
    Row {
        pokes: &[Poke {
            item: Item::Directory,
            at: 52,
            bytes: &[0xed, 0x81],
        }],
        is_sealed: true,
        lines: &[(
            Kind::EntryMode,
            &[Number::Tree, Number::Plain(256), Number::TopIndex],
        )],
    },
    // A file of more links than names.
    Row {
        pokes: &[Poke {
            item: Item::File,
            at: 40,
            bytes: &[5],
        }],
        is_sealed: true,
        lines: &[(
            Kind::LinkCount,
            &[Number::Tree, Number::File, Number::Plain(5), Number::Links],
        )],
    },
    // A directory of another size: its two names have a length of 1 each.
    Row {
        pokes: &[Poke {
            item: Item::Directory,
            at: 16,
            bytes: &[6],
        }],
        is_sealed: true,
        lines: &[(
            Kind::DirSize,
            &[
                Number::Tree,
                Number::Directory,
                Number::Plain(6),
                Number::Plain(4),
            ],
        )],
    },
    // A file without links that is no orphan.
    Row {
        pokes: &[Poke {
            item: Item::File,
            at: 40,
            bytes: &[0],
        }],
        is_sealed: true,
        lines: &[
            (
                Kind::LinkCount,
                &[Number::Tree, Number::File, Number::Plain(0), Number::Links],
            ),
            (Kind::Orphan, &[Number::Tree, Number::File]),
        ],
    },
];

/// What leaves a subvolume without its entry: that leads to another subvolume, both ways.
pub(super) const SUBVOLUME_ROWS: [Row; 1] = [Row {
    pokes: &[
        Poke {
            item: Item::Index(3),
            at: 0,
            bytes: &[0xe7, 3],
        },
        Poke {
            item: Item::HashedSubvolume,
            at: 0,
            bytes: &[0xe7, 3],
        },
    ],
    is_sealed: true,
    lines: &[(Kind::RootRef, &[Number::Tree, Number::Child])],
}];
