// Where the fields of a superblock stand, by the format's table.
use super::copies::{FIRST, SHORT, found};
use btr_make::seal;
use btr_rack::MemRack;
use btr_super::Super;
use std::alloc::Global;
use std::process::Abort;
use std::test::Fail;

// The first byte of each number, in the order of the table.
const NUMBERS: [u64; 24] = [
    0x38, 0x48, 0x50, 0x58, 0x60, 0x70, 0x78, 0x80, 0x88, 0x90, 0x94, 0x98, 0x9c, 0xa0, 0xa4, 0xac,
    0xb4, 0xbc, 0xc6, 0xc7, 0xc8, 0xc9, 0x22b, 0x233,
];

// The numbers of a superblock, in the same order.
fn numbers(s: &Super) -> [u64; 24] {
    [
        s.flags,
        s.generation,
        s.root,
        s.chunk_root,
        s.log_root,
        s.total_bytes,
        s.bytes_used,
        s.root_dir,
        s.num_devices,
        u64::from(s.sectorsize),
        u64::from(s.nodesize),
        u64::from(s.leafsize),
        u64::from(s.stripesize),
        u64::from(s.sys_chunk_array_size),
        s.chunk_root_generation,
        s.compat,
        s.compat_ro,
        s.incompat,
        u64::from(s.root_level),
        u64::from(s.chunk_root_level),
        u64::from(s.log_root_level),
        s.devid,
        s.cache_generation,
        s.uuid_tree_generation,
    ]
}

// The first and the last byte of the fields that are no numbers: fsid, dev_uuid, label, metadata_uuid, reserved, array and backups.
const ENDS: [u64; 14] = [
    0x20, 0x2f, 0x10b, 0x11a, 0x12b, 0x22a, 0x23b, 0x24a, 0x24b, 0x32a, 0x32b, 0xb2a, 0xb2b, 0xfff,
];

fn ends(s: &Super) -> [u8; 14] {
    [
        s.fsid[0],
        s.fsid[15],
        s.dev_uuid[0],
        s.dev_uuid[15],
        s.label[0],
        s.label[255],
        s.metadata_uuid[0],
        s.metadata_uuid[15],
        s.reserved[0],
        s.reserved[223],
        s.array[0],
        s.array[2047],
        s.backups[0],
        s.backups[1236],
    ]
}

// Writes 1, 2 and so on at these bytes of the first copy.
fn put(rack: &mut MemRack, places: &[u64]) -> Result<(), Fail> {
    let mut n = 0u8;
    for place in places {
        n = n.wrapping_add(1);
        rack.poke("a", FIRST.wrapping_add(*place), &[n])?;
    }
    Ok(())
}

// A copy that has nothing but these numbers, what it is known by and its checksum.
fn numbered(alloc: Global) -> Result<Super, Fail> {
    let mut rack = MemRack::new(alloc);
    rack.add("a", SHORT)?;
    rack.poke("a", FIRST + 0x30, &FIRST.to_le_bytes())?;
    rack.poke("a", FIRST + 0x40, b"_BHRfS_M")?;
    put(&mut rack, &NUMBERS)?;
    put(&mut rack, &ENDS)?;
    seal(&mut rack, "a", FIRST, 4096)?;
    Ok(found(&mut rack)??)
}

#[test]
fn fields_stand_where_the_table_says(rt: HostRuntime) -> Result<(), Fail> {
    let sup = numbered(rt.alloc())?;
    for (i, n) in numbers(&sup).iter().enumerate() {
        assert_eq!(rt; *n, (i as u64).wrapping_add(1));
    }
    assert_eq!(rt; ends(&sup), [1, 2, 3, 4, 5, 6, 7, 8, 9, 10, 11, 12, 13, 14]);
    assert_eq!(rt; (sup.place, sup.csum_type), (FIRST, 0));
    Ok(())
}
