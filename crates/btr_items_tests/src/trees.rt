// What stands in the trees of roots, devices and checksums.
use super::bodies;
use super::reading::{Answer, Reader, read};
use btr_base::{Key, SumKind};
use btr_items::{BlockGroup, DevExtent, DevItem, RootItem, RootRef, SumRun, item};
use std::test::Fail;

// The root of a subvolume.
const ROOT: RootItem = RootItem {
    generation: 16,
    dirid: 256,
    bytenr: 31_473_664,
    flags: 0,
    refs: 1,
    level: 1,
};

const KEY: Key = Key {
    objectid: 0xffff_ffff_ffff_fff6,
    kind: item::EXTENT_CSUM,
    offset: 13_631_488,
};

// The range of each item of checksums ends at 13,660,160.
const RUN: SumRun = SumRun {
    start: 13_631_488,
    count: 7,
};

const ITEMS: [(Reader, &[u8], Answer); 9] = [
    (Reader::Root, bodies::ROOT, Answer::Root(ROOT)),
    (
        Reader::Root,
        bodies::OLD_ROOT,
        Answer::Root(RootItem {
            generation: 7,
            bytenr: 30_441_472,
            level: 0,
            ..ROOT
        }),
    ),
    (
        Reader::RootName,
        bodies::ROOT_NAME,
        Answer::RootName(RootRef {
            dirid: 256,
            sequence: 19,
            name_at: 18,
            name_len: 3,
        }),
    ),
    (
        Reader::Group,
        bodies::GROUP,
        Answer::Group(BlockGroup {
            used: 16_384,
            owner: 256,
            flags: 0x12,
        }),
    ),
    (
        Reader::Range,
        bodies::RANGE,
        Answer::Range(DevExtent {
            chunk: 22_020_096,
            length: 8_388_608,
        }),
    ),
    (
        Reader::Device,
        bodies::DEVICE,
        Answer::Device(DevItem {
            devid: 2,
            total: 167_772_160,
            used: 142_606_336,
            uuid: [
                0x18, 0xab, 0xf9, 0x0d, 0x33, 0x94, 0x40, 0x3c, 0xb6, 0xc7, 0x9d, 0x3a, 0x07, 0xbe,
                0x06, 0x42,
            ],
        }),
    ),
    (
        Reader::Sums(SumKind::Crc32c, KEY),
        bodies::CRC32C,
        Answer::Sums(RUN),
    ),
    (
        Reader::Sums(SumKind::Xxh64, KEY),
        bodies::XXHASH,
        Answer::Sums(RUN),
    ),
    (
        Reader::Sums(SumKind::Sha256, KEY),
        bodies::SHA256,
        Answer::Sums(RUN),
    ),
];

#[test]
fn roots_devices_and_checksums(rt: HostRuntime) {
    for (reader, body, wanted) in &ITEMS {
        assert_eq!(rt; read(*reader, body), Some(*wanted));
    }
}

#[test]
fn one_checksum(rt: HostRuntime) -> Result<(), Fail> {
    let run = SumRun::read(SumKind::Crc32c, KEY, bodies::CRC32C)?;
    assert_eq!(rt; run, RUN);
    let sum = run.sum_at(SumKind::Crc32c, bodies::CRC32C, 6);
    assert_eq!(rt;
        (&sum.bytes[..5], sum.size),
        (b" v\x96\xea\0".as_slice(), 4)
    );
    Ok(())
}
