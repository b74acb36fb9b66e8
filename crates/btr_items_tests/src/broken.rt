// Each rule broken by one byte, or by one byte more or less.
use super::bodies;
use super::reading::{Answer, Reader, read};
use btr_base::{Key, SumKind};
use btr_items::{Entry, ItemFault, entries, inline_refs, item, item_fits};

// What a body says, some bytes of which are changed.
fn read_changed(reader: Reader, body: &[u8], changes: &[(usize, u8)]) -> Option<Answer> {
    let mut bytes = [0; 440];
    for (to, from) in bytes.iter_mut().zip(body) {
        *to = *from;
    }
    for (at, byte) in changes {
        if let Some(place) = bytes.get_mut(*at) {
            *place = *byte;
        }
    }
    read(reader, &bytes[..body.len().min(440)])
}

const ZEROS: [u8; 440] = [0; 440];

// Sizes of bodies that are all zeros.
const SIZES: [(Reader, usize); 12] = [
    (Reader::Inode, 159),
    (Reader::Inode, 161),
    (Reader::Root, 238),
    (Reader::Root, 240),
    (Reader::Root, 438),
    (Reader::Root, 440),
    (Reader::Group, 23),
    (Reader::Group, 25),
    (Reader::Range, 47),
    (Reader::Range, 49),
    (Reader::Device, 97),
    (Reader::Device, 99),
];

#[test]
fn sizes(rt: HostRuntime) {
    for (reader, size) in &SIZES {
        let found = read(*reader, &ZEROS[..(*size).min(440)]);
        assert!(rt; found.is_none(), "{size}");
    }
}

#[test]
fn sizes_of_file_extents(rt: HostRuntime) {
    for size in [20, 52, 54] {
        let found = read_changed(Reader::FileExtent(0), &ZEROS[..size], &[(20, 1)]);
        assert!(rt; found.is_none(), "{size}");
    }
}

#[test]
fn sizes_of_chunks(rt: HostRuntime) {
    let chunk = Key {
        objectid: 256,
        kind: item::CHUNK_ITEM,
        offset: 0,
    };
    for (size, fits) in [(47, false), (48, true), (49, false), (80, false)] {
        assert!(rt;
            item_fits(SumKind::Crc32c, chunk, &ZEROS[..size]) == fits,
            "{size}"
        );
    }
}

type Broken = (Reader, &'static [u8], &'static [(usize, u8)]);

// No bytes, and more than the body has.
const NAMES: [Broken; 7] = [
    (Reader::Name(0), bodies::LONG_NAME, &[(8, 0)]),
    (Reader::Name(0), bodies::LONG_NAME, &[(9, 2)]),
    (Reader::FarName(0), bodies::FAR_NAMES, &[(16, 0)]),
    (Reader::FarName(0), bodies::FAR_NAMES, &[(16, 30)]),
    (Reader::RootName, bodies::ROOT_NAME, &[(16, 0)]),
    (Reader::RootName, bodies::ROOT_NAME, &[(16, 2)]),
    (Reader::RootName, bodies::ROOT_NAME, &[(16, 4)]),
];

// The first name is empty, or ends behind the body; so do the first data. Then kinds 0 and 8, a file that is a subvolume, another type of location, data, a
// shorter name; and bodies of several entries, and of an attribute.
const ENTRIES: [Broken; 11] = [
    (Reader::Entry(0), bodies::COLLISION, &[(27, 0)]),
    (Reader::Entry(0), bodies::COLLISION, &[(28, 1)]),
    (Reader::Entry(0), bodies::COLLISION, &[(26, 1)]),
    (Reader::Index, bodies::SUBVOLUME, &[(29, 0)]),
    (Reader::Index, bodies::SUBVOLUME, &[(29, 8)]),
    (Reader::Index, bodies::SUBVOLUME, &[(29, 1)]),
    (Reader::Index, bodies::SUBVOLUME, &[(8, 84)]),
    (Reader::Index, bodies::SUBVOLUME, &[(25, 1)]),
    (Reader::Index, bodies::SUBVOLUME, &[(27, 2)]),
    (Reader::Index, bodies::COLLISION, &[]),
    (Reader::Index, bodies::COLOR, &[]),
];

// The type, the address, the extent's size, what is skipped, the range's size; more skipped or taken than the extent has; an end past 2^64, and a range of
// no bytes. Then what is behind another offset, and a compressed extent that has fewer bytes.
const FILE_EXTENTS: [Broken; 13] = [
    (Reader::FileExtent(114_688), bodies::PART, &[(20, 3)]),
    (Reader::FileExtent(114_688), bodies::PART, &[(21, 1)]),
    (Reader::FileExtent(114_688), bodies::PART, &[(29, 1)]),
    (Reader::FileExtent(114_688), bodies::PART, &[(37, 1)]),
    (Reader::FileExtent(114_688), bodies::PART, &[(38, 0x40)]),
    (Reader::FileExtent(114_688), bodies::PART, &[(45, 1)]),
    (Reader::FileExtent(114_688), bodies::PART, &[(52, 0xff)]),
    (
        Reader::FileExtent(114_688),
        bodies::PART,
        &[(28, 0xff), (36, 0xff)],
    ),
    (
        Reader::FileExtent(114_688),
        bodies::PART,
        &[(46, 0), (47, 0)],
    ),
    (Reader::FileExtent(114_689), bodies::PART, &[]),
    (Reader::FileExtent(0xffff_ffff_ffff_f000), bodies::PART, &[]),
    (Reader::FileExtent(1), bodies::INLINE, &[]),
    (
        Reader::FileExtent(12_288),
        bodies::COMPRESSED_PART,
        &[(16, 0)],
    ),
];

// Neither data nor a tree block, and both; data under the type of tree blocks, another type, and another type of reference.
const EXTENTS: [Broken; 5] = [
    (Reader::Extent(item::EXTENT_ITEM), bodies::BLOCK, &[(16, 0)]),
    (Reader::Extent(item::EXTENT_ITEM), bodies::BLOCK, &[(16, 3)]),
    (
        Reader::Extent(item::METADATA_ITEM),
        bodies::SHARED_DATA,
        &[],
    ),
    (Reader::Extent(item::TREE_BLOCK_REF), bodies::BLOCK, &[]),
    (Reader::Reference(24), bodies::SKINNY, &[(24, 172)]),
];

#[test]
fn broken_bodies(rt: HostRuntime) {
    for (number, table) in [&NAMES[..], &ENTRIES[..], &FILE_EXTENTS[..], &EXTENTS[..]]
        .iter()
        .enumerate()
    {
        for (reader, body, changes) in *table {
            let found = read_changed(*reader, body, changes);
            assert!(rt; found.is_none(), "{number}: {reader:?} {changes:?}");
        }
    }
}

// Bodies that end before the level.
#[test]
fn bodies_without_a_level(rt: HostRuntime) {
    let block = read(Reader::Extent(item::EXTENT_ITEM), &bodies::BLOCK[..41]);
    assert!(rt; block.is_none());
    let skinny = read(Reader::Extent(item::METADATA_ITEM), &bodies::SKINNY[..23]);
    assert!(rt; skinny.is_none());
}

// A hole's skip isn't looked at, and neither is how far a compressed extent goes.
#[test]
fn a_skip_in_a_hole(rt: HostRuntime) {
    let hole = read_changed(Reader::FileExtent(4096), bodies::HOLE, &[(37, 1)]);
    assert!(rt; hole.is_some());
}

const LONG: [u8; 300] = [b'x'; 300];

#[test]
fn long_names(rt: HostRuntime) {
    for (low, high, fits) in [(255, 0, true), (0, 1, false)] {
        let found = read_changed(Reader::Name(0), &LONG, &[(8, low), (9, high)]);
        assert!(rt; found.is_some() == fits, "{low}");
    }
}

// The second name is one byte longer than the body.
#[test]
fn entries_of_directories(rt: HostRuntime) {
    let mut changed = *bodies::COLLISION;
    changed[66] = 10;
    let mut found = entries(&changed);
    assert_eq!(rt; found.next(), Some(Entry::read(bodies::COLLISION, 0)));
    assert_eq!(rt; found.next(), Some(Err(ItemFault)));
    assert_eq!(rt; found.next(), None);
}

// A reference that is cut short.
#[test]
fn references(rt: HostRuntime) {
    let mut refs = inline_refs(&bodies::SHARED_DATA[..94], 82);
    assert_eq!(rt; refs.next(), Some(Err(ItemFault)));
    assert_eq!(rt; refs.next(), None);
}
