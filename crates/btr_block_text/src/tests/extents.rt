// The lines of the items of extents and of references to them: each type in its form, and then with its form broken.
use super::shown::{Item, show_all};
use btr_base::SumKind;
use std::test::Fail;

const ITEMS: [Item; 19] = [
    // An extent of data.
    Item {
        sums: SumKind::Crc32c,
        key: (16777216, 168, 4096),
        body: b"\x02\0\0\0\0\0\0\0\x07\0\0\0\0\0\0\0\x01\0\0\0\0\0\0\0\xb2\x05\0\0\0\0\0\0\0\x04\x01\0\0\0\0\0\0\0\0\0\0\0\0\0\0\x01\0\0\0\xb8\0\xc0 \0\0\0\0\0\x03\0\0\0",
        text: b"\t\trefs 2 generation 7 flags 0000000000000001\n\t\tfile ref root 5 objectid 260 offset 0 count 1\n\t\tshared file ref parent 2146304 count 3\n",
    },
    // An extent of data broken.
    Item {
        sums: SumKind::Crc32c,
        key: (16777216, 168, 4096),
        body: b"\x02\0\0\0\0\0\0\0\x07\0\0\0\0\0\0\0\x01\0\0\0\0\0\0\0\xb2\x05\0\0\0\0\0\0\0\x04\x01\0\0\0\0\0\0\0\0\0\0\0\0\0\0\x01\0\0\0\xb8\0\xc0 \0\0\0\0\0\x03\0\0",
        text: b"\t\traw 020000000000000007000000000000000100000000000000b205000000000000000401000000000000000000000000000001000000b800c0200000000000030000\n",
    },
    // An extent of data broken.
    Item {
        sums: SumKind::Crc32c,
        key: (16777216, 168, 4096),
        body: b"\x02\0\0\0\0\0\0\0\x07\0\0\0\0\0\0\0\x03\0\0\0\0\0\0\0\xb2\x05\0\0\0\0\0\0\0\x04\x01\0\0\0\0\0\0\0\0\0\0\0\0\0\0\x01\0\0\0\xb8\0\xc0 \0\0\0\0\0\x03\0\0\0",
        text: b"\t\traw 020000000000000007000000000000000300000000000000b205000000000000000401000000000000000000000000000001000000b800c020000000000003000000\n",
    },
    // An extent of data broken.
    Item {
        sums: SumKind::Crc32c,
        key: (16777217, 168, 4096),
        body: b"\x02\0\0\0\0\0\0\0\x07\0\0\0\0\0\0\0\x01\0\0\0\0\0\0\0\xb2\x05\0\0\0\0\0\0\0\x04\x01\0\0\0\0\0\0\0\0\0\0\0\0\0\0\x01\0\0\0\xb8\0\xc0 \0\0\0\0\0\x03\0\0\0",
        text: b"\t\traw 020000000000000007000000000000000100000000000000b205000000000000000401000000000000000000000000000001000000b800c020000000000003000000\n",
    },
    // An extent of data broken.
    Item {
        sums: SumKind::Crc32c,
        key: (16777216, 168, 4096),
        body: b"\x02\0\0\0\0\0\0\0\x07\0\0\0\0\0\0\0\x01\0\0\0\0\0\0\0\xb2\x05\0\0\0\0\0\0\0\x04\x01\0\0\0\0\0\0\0\0\0\0\0\0\0\0\x01\0\0\0\xb8\0\xc0 \0\0\0\0\0\x03\0\0\0\xb4\x01\0\0\0\0\0\0\0",
        text: b"\t\traw 020000000000000007000000000000000100000000000000b205000000000000000401000000000000000000000000000001000000b800c020000000000003000000b40100000000000000\n",
    },
    // An extent of a tree block.
    Item {
        sums: SumKind::Crc32c,
        key: (2146304, 168, 16384),
        body: b"\x01\0\0\0\0\0\0\0\t\0\0\0\0\0\0\0\x02\0\0\0\0\0\0\0\0\x01\0\0\0\0\0\0\x01\0\0\0\0\0\0\0\0\x01\xb0\x05\0\0\0\0\0\0\0\xb6\0\0!\0\0\0\0\0",
        text: b"\t\trefs 1 generation 9 flags 0000000000000002\n\t\tblock key (256 INODE_ITEM 0) level 1\n\t\ttree ref root 5\n\t\tshared tree ref parent 2162688\n",
    },
    // An extent of a tree block broken.
    Item {
        sums: SumKind::Crc32c,
        key: (2146304, 168, 16384),
        body: b"\x01\0\0\0\0\0\0\0\t\0\0\0\0\0\0\0\x02\0\0\0\0\0\0\0\0\x01\0\0\0\0\0\0\x01\0\0\0\0\0\0\0\0",
        text: b"\t\traw 0100000000000000090000000000000002000000000000000001000000000000010000000000000000\n",
    },
    // A tree block by its level.
    Item {
        sums: SumKind::Crc32c,
        key: (2146304, 169, 1),
        body: b"\x01\0\0\0\0\0\0\0\t\0\0\0\0\0\0\0\x02\x01\0\0\0\0\0\0\xb0\x07\0\0\0\0\0\0\0",
        text: b"\t\trefs 1 generation 9 flags 0000000000000102\n\t\ttree ref root 7\n",
    },
    // A tree block by its level broken.
    Item {
        sums: SumKind::Crc32c,
        key: (2146304, 169, 8),
        body: b"\x01\0\0\0\0\0\0\0\t\0\0\0\0\0\0\0\x02\x01\0\0\0\0\0\0\xb0\x07\0\0\0\0\0\0\0",
        text: b"\t\traw 010000000000000009000000000000000201000000000000b00700000000000000\n",
    },
    // A tree block by its level broken.
    Item {
        sums: SumKind::Crc32c,
        key: (2146304, 169, 1),
        body: b"\x01\0\0\0\0\0\0\0\t\0\0\0\0\0\0\0\x01\0\0\0\0\0\0\0\xb0\x07\0\0\0\0\0\0\0",
        text: b"\t\traw 010000000000000009000000000000000100000000000000b00700000000000000\n",
    },
    // An extent that nothing refers to in its item.
    Item {
        sums: SumKind::Crc32c,
        key: (2146304, 169, 0),
        body: b"\x01\0\0\0\0\0\0\0\t\0\0\0\0\0\0\0\x02\0\0\0\0\0\0\0",
        text: b"\t\trefs 1 generation 9 flags 0000000000000002\n",
    },
    // A reference of a tree.
    Item {
        sums: SumKind::Crc32c,
        key: (2146304, 176, 7),
        body: b"",
        text: b"\t\ttree ref root 7\n",
    },
    // A reference of a tree broken.
    Item {
        sums: SumKind::Crc32c,
        key: (2146304, 176, 7),
        body: b"\0",
        text: b"\t\traw 00\n",
    },
    // A reference of a file.
    Item {
        sums: SumKind::Crc32c,
        key: (16777216, 178, 99),
        body: b"\x05\0\0\0\0\0\0\0\x05\x01\0\0\0\0\0\0\0\xf0\xff\xff\xff\xff\xff\xff\x02\0\0\0",
        text: b"\t\tfile ref root 5 objectid 261 offset 18446744073709547520 count 2\n",
    },
    // A reference of a file broken.
    Item {
        sums: SumKind::Crc32c,
        key: (16777216, 178, 99),
        body: b"\x05\0\0\0\0\0\0\0\x05\x01\0\0\0\0\0\0\0\0\0\0\0\0\0\0\x02\0\0",
        text: b"\t\traw 050000000000000005010000000000000000000000000000020000\n",
    },
    // A reference of a block to a block.
    Item {
        sums: SumKind::Crc32c,
        key: (2146304, 182, 2162688),
        body: b"",
        text: b"\t\tshared tree ref parent 2162688\n",
    },
    // A reference of a block to a block broken.
    Item {
        sums: SumKind::Crc32c,
        key: (2146305, 182, 2162688),
        body: b"",
        text: b"\t\traw\n",
    },
    // A reference of a block to data.
    Item {
        sums: SumKind::Crc32c,
        key: (16777216, 184, 2146304),
        body: b"\x07\0\0\0",
        text: b"\t\tshared file ref parent 2146304 count 7\n",
    },
    // A reference of a block to data broken.
    Item {
        sums: SumKind::Crc32c,
        key: (16777216, 184, 2146304),
        body: b"",
        text: b"\t\traw\n",
    },
];

#[test]
fn lines_of_extents(rt: HostRuntime) -> Result<(), Fail> {
    show_all(&rt, rt.alloc(), &ITEMS)
}
