// The lines of the items of files and directories: each type in its form, and then with its form broken.
use super::shown::{Item, show_all};
use btr_base::SumKind;
use std::test::Fail;

const ITEMS: [Item; 26] = [
    // An inode.
    Item {
        sums: SumKind::Crc32c,
        key: (257, 1, 0),
        body: b"\0\0\0\0\0\0\0\0\0\0\0\0\0\0\0\0\x10'\0\0\0\0\0\0\0\0\0\0\0\0\0\0\0\0\0\0\0\0\0\0\x02\0\0\0\0\0\0\0\0\0\0\0\xa4\x81\0\0\0\0\0\0\0\0\0\0\x1b\0\0\0\0\0\0\0\0\0\0\0\0\0\0\0\0\0\0\0\0\0\0\0\0\0\0\0\0\0\0\0\0\0\0\0\0\0\0\0\0\0\0\0\0\0\0\0\0\0\0\0\0\0\0\0\0\0\0\0\0\0\0\0\0\0\0\0\0\0\0\0\0\0\0\0\0\0\0\0\0\0\0\0\0\0\0\0\0\0\0\0\0\0\0\0",
        text: b"\t\tsize 10000 nlink 2 mode 100644 flags 000000000000001b\n",
    },
    // An inode broken.
    Item {
        sums: SumKind::Crc32c,
        key: (257, 1, 0),
        body: b"\0\0\0\0\0\0\0\0\0\0\0\0\0\0\0\0\x10'\0\0\0\0\0\0\0\0\0\0\0\0\0\0\0\0\0\0\0\0\0\0\x02\0\0\0\0\0\0\0\0\0\0\0\xa4\x81\0\0\0\0\0\0\0\0\0\0\x1b\0\0\0\0\0\0\0\0\0\0\0\0\0\0\0\0\0\0\0\0\0\0\0\0\0\0\0\0\0\0\0\0\0\0\0\0\0\0\0\0\0\0\0\0\0\0\0\0\0\0\0\0\0\0\0\0\0\0\0\0\0\0\0\0\0\0\0\0\0\0\0\0\0\0\0\0\0\0\0\0\0\0\0\0\0\0\0\0\0\0\0\0\0\0",
        text: b"\t\traw 00000000000000000000000000000000102700000000000000000000000000000000000000000000020000000000000000000000a481000000000000000000001b00000000000000000000000000000000000000000000000000000000000000000000000000000000000000000000000000000000000000000000000000000000000000000000000000000000000000000000000000000000000000000000\n",
    },
    // An inode broken.
    Item {
        sums: SumKind::Crc32c,
        key: (257, 1, 1),
        body: b"\0\0\0\0\0\0\0\0\0\0\0\0\0\0\0\0\x10'\0\0\0\0\0\0\0\0\0\0\0\0\0\0\0\0\0\0\0\0\0\0\x02\0\0\0\0\0\0\0\0\0\0\0\xa4\x81\0\0\0\0\0\0\0\0\0\0\x1b\0\0\0\0\0\0\0\0\0\0\0\0\0\0\0\0\0\0\0\0\0\0\0\0\0\0\0\0\0\0\0\0\0\0\0\0\0\0\0\0\0\0\0\0\0\0\0\0\0\0\0\0\0\0\0\0\0\0\0\0\0\0\0\0\0\0\0\0\0\0\0\0\0\0\0\0\0\0\0\0\0\0\0\0\0\0\0\0\0\0\0\0\0\0\0",
        text: b"\t\traw 00000000000000000000000000000000102700000000000000000000000000000000000000000000020000000000000000000000a481000000000000000000001b0000000000000000000000000000000000000000000000000000000000000000000000000000000000000000000000000000000000000000000000000000000000000000000000000000000000000000000000000000000000000000000000\n",
    },
    // Names of an inode.
    Item {
        sums: SumKind::Crc32c,
        key: (259, 12, 256),
        body: b"\x04\0\0\0\0\0\0\0\x02\0h1\x05\0\0\0\0\0\0\0\x03\0a\\\xff",
        text: b"\t\tindex 4 namelen 2 name h1\n\t\tindex 5 namelen 3 name a\\x5c\\xff\n",
    },
    // Names of an inode broken.
    Item {
        sums: SumKind::Crc32c,
        key: (259, 12, 256),
        body: b"\x04\0\0\0\0\0\0\0\x02\0h1\x05\0\0\0\0\0\0\0\x03\0a\\",
        text: b"\t\traw 04000000000000000200683105000000000000000300615c\n",
    },
    // Names of an inode broken.
    Item {
        sums: SumKind::Crc32c,
        key: (259, 12, 256),
        body: b"",
        text: b"\t\traw\n",
    },
    // Names that had no room.
    Item {
        sums: SumKind::Crc32c,
        key: (259, 13, 99),
        body: b",\x01\0\0\0\0\0\0\x06\0\0\0\0\0\0\0\x03\0far-\x01\0\0\0\0\0\0\x07\0\0\0\0\0\0\0\x01\0n",
        text: b"\t\tparent 300 index 6 namelen 3 name far\n\t\tparent 301 index 7 namelen 1 name n\n",
    },
    // Names that had no room broken.
    Item {
        sums: SumKind::Crc32c,
        key: (259, 13, 99),
        body: b",\x01\0\0\0\0\0\0\x06\0\0\0\0\0\0\0\x03\0far-\x01\0\0\0\0\0\0\x07\0\0\0\0\0\0\0\0\0",
        text: b"\t\traw 2c01000000000000060000000000000003006661722d0100000000000007000000000000000000\n",
    },
    // An extended attribute.
    Item {
        sums: SumKind::Crc32c,
        key: (257, 24, 77),
        body: b"\0\0\0\0\0\0\0\0\0\0\0\0\0\0\0\0\0\x07\0\0\0\0\0\0\0\x05\0\x06\0\x08user.avalue",
        text: b"\t\tlocation (0 UNKNOWN.0 0) kind 8 transid 7 datalen 5 namelen 6 name user.a\n",
    },
    // An extended attribute broken.
    Item {
        sums: SumKind::Crc32c,
        key: (257, 24, 77),
        body: b"\0\0\0\0\0\0\0\0\0\0\0\0\0\0\0\0\0\x07\0\0\0\0\0\0\0\x05\0\x06\0\x08user.avalu",
        text: b"\t\traw 000000000000000000000000000000000007000000000000000500060008757365722e6176616c75\n",
    },
    // An inode without a name.
    Item {
        sums: SumKind::Crc32c,
        key: (18446744073709551611, 48, 300),
        body: b"",
        text: b"",
    },
    // An inode without a name broken.
    Item {
        sums: SumKind::Crc32c,
        key: (18446744073709551611, 48, 300),
        body: b"\0",
        text: b"\t\traw 00\n",
    },
    // An inode without a name broken.
    Item {
        sums: SumKind::Crc32c,
        key: (18446744073709551610, 48, 300),
        body: b"",
        text: b"\t\traw\n",
    },
    // Entries of one hash.
    Item {
        sums: SumKind::Crc32c,
        key: (256, 84, 2378154706),
        body: b"\x01\x01\0\0\0\0\0\0\x01\0\0\0\0\0\0\0\0\x07\0\0\0\0\0\0\0\0\0\x01\0\x01e,\x01\0\0\0\0\0\0\x84\xff\xff\xff\xff\xff\xff\xff\xff\t\0\0\0\0\0\0\0\0\0\x03\0\x02sub",
        text: b"\t\tlocation (257 INODE_ITEM 0) kind 1 transid 7 datalen 0 namelen 1 name e\n\t\tlocation (300 ROOT_ITEM 18446744073709551615) kind 2 transid 9 datalen 0 namelen 3 name sub\n",
    },
    // Entries of one hash broken.
    Item {
        sums: SumKind::Crc32c,
        key: (256, 84, 2378154706),
        body: b"\x01\x01\0\0\0\0\0\0\x01\0\0\0\0\0\0\0\0\x07\0\0\0\0\0\0\0\0\0\x01\0\x01e,\x01\0\0\0\0\0\0\x84\xff\xff\xff\xff\xff\xff\xff\xff\t\0\0\0\0\0\0\0\0\0\x03\0",
        text: b"\t\traw 010100000000000001000000000000000007000000000000000000010001652c0100000000000084ffffffffffffffff090000000000000000000300\n",
    },
    // An entry.
    Item {
        sums: SumKind::Crc32c,
        key: (256, 96, 2),
        body: b"\x01\x01\0\0\0\0\0\0\x01\0\0\0\0\0\0\0\0\x07\0\0\0\0\0\0\0\0\0\x01\0\x01e",
        text: b"\t\tlocation (257 INODE_ITEM 0) kind 1 transid 7 datalen 0 namelen 1 name e\n",
    },
    // An entry broken.
    Item {
        sums: SumKind::Crc32c,
        key: (256, 96, 2),
        body: b"\x01\x01\0\0\0\0\0\0\x01\0\0\0\0\0\0\0\0\x07\0\0\0\0\0\0\0\0\0\x01\0\x01e,\x01\0\0\0\0\0\0\x84\xff\xff\xff\xff\xff\xff\xff\xff\t\0\0\0\0\0\0\0\0\0\x03\0\x02sub",
        text: b"\t\traw 010100000000000001000000000000000007000000000000000000010001652c0100000000000084ffffffffffffffff09000000000000000000030002737562\n",
    },
    // An entry broken.
    Item {
        sums: SumKind::Crc32c,
        key: (256, 96, 2),
        body: b"\x01\x01\0\0\0\0\0\0\x01\0\0\0\0\0\0\0\0\x07\0\0\0\0\0\0\0\0\0\x01\0\x08e",
        text: b"\t\traw 01010000000000000100000000000000000700000000000000000001000865\n",
    },
    // Bytes in the item.
    Item {
        sums: SumKind::Crc32c,
        key: (258, 108, 0),
        body: b"\x07\0\0\0\0\0\0\0\x06\0\0\0\0\0\0\0\x01\0\0\0\0xyz",
        text: b"\t\tgeneration 7 inline bytes 3 ram 6 compression 1\n",
    },
    // Bytes in the item broken.
    Item {
        sums: SumKind::Crc32c,
        key: (258, 108, 0),
        body: b"\x07\0\0\0\0\0\0\0\x06\0\0\0\0\0\0\0\x01\0\0\0",
        text: b"\t\traw 0700000000000000060000000000000001000000\n",
    },
    // Bytes in the item broken.
    Item {
        sums: SumKind::Crc32c,
        key: (258, 108, 1),
        body: b"\x07\0\0\0\0\0\0\0\x06\0\0\0\0\0\0\0\x01\0\0\0\0xyz",
        text: b"\t\traw 07000000000000000600000000000000010000000078797a\n",
    },
    // A range of a file.
    Item {
        sums: SumKind::Crc32c,
        key: (260, 108, 8192),
        body: b"\x07\0\0\0\0\0\0\0\0 \0\0\0\0\0\0\0\0\0\0\x01\0\0\0\x01\0\0\0\0\0 \0\0\0\0\0\0\0\x10\0\0\0\0\0\0\0\x10\0\0\0\0\0\0",
        text: b"\t\tgeneration 7 regular disk 16777216 length 8192 offset 4096 bytes 4096 ram 8192 compression 0\n",
    },
    // A range of a file broken.
    Item {
        sums: SumKind::Crc32c,
        key: (260, 108, 8192),
        body: b"\x07\0\0\0\0\0\0\0\0 \0\0\0\0\0\0\0\0\0\0\x01\0\0\0\x01\0\0\0\0\0 \0\0\0\0\0\0\0 \0\0\0\0\0\0\0\x10\0\0\0\0\0\0",
        text: b"\t\traw 0700000000000000002000000000000000000000010000000100000000002000000000000000200000000000000010000000000000\n",
    },
    // A range of a file broken.
    Item {
        sums: SumKind::Crc32c,
        key: (260, 108, 8192),
        body: b"\x07\0\0\0\0\0\0\0\0 \0\0\0\0\0\0\0\0\0\0\x03\0\0\0\x01\0\0\0\0\0 \0\0\0\0\0\0\0\x10\0\0\0\0\0\0\0\x10\0\0\0\0\0\0",
        text: b"\t\traw 0700000000000000002000000000000000000000030000000100000000002000000000000000100000000000000010000000000000\n",
    },
    // A range that was not written.
    Item {
        sums: SumKind::Crc32c,
        key: (260, 108, 4096),
        body: b"\x08\0\0\0\0\0\0\0\0\x10\0\0\0\0\0\0\0\0\0\0\x02\0\0\0\0\0\0\0\0\0\0\0\0\0\0\0\0\x05\0\0\0\0\0\0\0\00\0\0\0\0\0\0",
        text: b"\t\tgeneration 8 prealloc disk 0 length 0 offset 5 bytes 12288 ram 4096 compression 0\n",
    },
    // A range that was not written broken.
    Item {
        sums: SumKind::Crc32c,
        key: (260, 108, 4096),
        body: b"\x08\0\0\0\0\0\0\0\0\x10\0\0\0\0\0\0\0\0\0\0\x02\0\0\0\0\0\0\0\0\0\0\0\0\0\0\0\0\x05\0\0\0\0\0\0\0\00\0\0\0\0\0",
        text: b"\t\traw 08000000000000000010000000000000000000000200000000000000000000000000000000050000000000000000300000000000\n",
    },
];

#[test]
fn lines_of_files(rt: HostRuntime) -> Result<(), Fail> {
    show_all(&rt, rt.alloc(), &ITEMS)
}
