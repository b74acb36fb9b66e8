use super::bodies;
use btr_base::{Key, SumKind};
use btr_items::{item, item_fits, key_fits};

// The objectids of orphans and of checksums, as dump-tree prints them.
const ORPHANS: u64 = 18_446_744_073_709_551_611;

const CHECKSUMS: u64 = 18_446_744_073_709_551_606;

// The parts of a key, and whether it keeps the rules.
const KEYS: [(u64, u8, u64, bool); 24] = [
    (257, item::INODE_ITEM, 0, true),
    (257, item::INODE_ITEM, 1, false),
    (ORPHANS, item::ORPHAN_ITEM, 258, true),
    (ORPHANS - 1, item::ORPHAN_ITEM, 258, false),
    (257, item::EXTENT_DATA, 4096, true),
    (257, item::EXTENT_DATA, 4095, false),
    (CHECKSUMS, item::EXTENT_CSUM, 4096, true),
    (CHECKSUMS, item::EXTENT_CSUM, 4097, false),
    (CHECKSUMS + 1, item::EXTENT_CSUM, 4096, false),
    (4096, item::EXTENT_ITEM, 4096, true),
    (4096, item::EXTENT_ITEM, 4608, false),
    (512, item::EXTENT_ITEM, 4096, false),
    (4096, item::METADATA_ITEM, 7, true),
    (4096, item::METADATA_ITEM, 8, false),
    (512, item::METADATA_ITEM, 0, false),
    (4096, item::EXTENT_DATA_REF, 77, true),
    (4097, item::EXTENT_DATA_REF, 77, false),
    (4097, item::TREE_BLOCK_REF, 5, false),
    (4097, item::SHARED_BLOCK_REF, 4096, false),
    (4097, item::SHARED_DATA_REF, 4096, false),
    (1, item::DEV_ITEM, 3, true),
    (2, item::DEV_ITEM, 3, false),
    (1, item::CHUNK_ITEM, 3, true),
    (1, 249, 3, true),
];

#[test]
fn rules_on_keys(rt: HostRuntime) {
    for (objectid, kind, offset, fits) in &KEYS {
        let key = Key {
            objectid: *objectid,
            kind: *kind,
            offset: *offset,
        };
        assert_eq!(rt; key_fits(key), *fits, "{key:?}");
    }
}

// Each item of the other tests.
const ITEMS: [(u64, u8, u64, &[u8]); 21] = [
    (634, item::INODE_ITEM, 0, bodies::FILE),
    (319, item::INODE_REF, 318, bodies::NAMES),
    (258, item::INODE_EXTREF, 1111, bodies::FAR_NAMES),
    (288, item::DIR_ITEM, 519_580_124, bodies::COLLISION),
    (11_026_776, item::XATTR_ITEM, 3_204_299_001, bodies::COLOR),
    (256, item::DIR_INDEX, 19, bodies::SUBVOLUME),
    (590, item::EXTENT_DATA, 114_688, bodies::PART),
    (592, item::EXTENT_DATA, 0, bodies::PREALLOC),
    (CHECKSUMS, item::EXTENT_CSUM, 13_631_488, bodies::CRC32C),
    (256, item::ROOT_ITEM, 0, bodies::ROOT),
    (256, item::ROOT_ITEM, 9, bodies::OLD_ROOT),
    (5, item::ROOT_REF, 256, bodies::ROOT_NAME),
    (256, item::ROOT_BACKREF, 5, bodies::ROOT_NAME),
    (16_506_880, item::EXTENT_ITEM, 53_248, bodies::SHARED_DATA),
    (22_036_480, item::EXTENT_ITEM, 16_384, bodies::BLOCK),
    (22_052_864, item::METADATA_ITEM, 0, bodies::SKINNY),
    (13_631_488, item::EXTENT_DATA_REF, 77, bodies::FILE_REF),
    (
        13_631_488,
        item::SHARED_DATA_REF,
        30_457_856,
        bodies::BLOCK_REF,
    ),
    (22_020_096, item::BLOCK_GROUP_ITEM, 8_388_608, bodies::GROUP),
    (1, item::DEV_EXTENT, 22_020_096, bodies::RANGE),
    (1, item::DEV_ITEM, 2, bodies::DEVICE),
];

// An item has its form, and has it no more without its last byte.
#[test]
fn forms_of_items(rt: HostRuntime) {
    for (objectid, kind, offset, body) in &ITEMS {
        let key = Key {
            objectid: *objectid,
            kind: *kind,
            offset: *offset,
        };
        assert!(rt; item_fits(SumKind::Crc32c, key, body), "{key:?}");
        if let [front @ .., _] = *body {
            assert!(rt; !item_fits(SumKind::Crc32c, key, front), "{key:?}");
        }
    }
}

// Bodies of at most one byte, and whether they have the form of their item.
const SHORT: [(u64, u8, u64, &[u8], bool); 6] = [
    (ORPHANS, item::ORPHAN_ITEM, 258, b"", true),
    (ORPHANS, item::ORPHAN_ITEM, 258, b"x", false),
    (30_490_624, item::TREE_BLOCK_REF, 5, b"", true),
    (30_490_624, item::SHARED_BLOCK_REF, 4096, b"", true),
    (319, item::INODE_REF, 318, b"", false),
    (319, item::DIR_ITEM, 318, b"", false),
];

#[test]
fn forms_of_empty_bodies(rt: HostRuntime) {
    for (objectid, kind, offset, body, fits) in &SHORT {
        let key = Key {
            objectid: *objectid,
            kind: *kind,
            offset: *offset,
        };
        assert!(rt; item_fits(SumKind::Crc32c, key, body) == *fits, "{key:?}");
    }
}
