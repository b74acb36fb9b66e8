// Superblocks that are written into images and read back.
use btr_make::put_super;
use btr_rack::{MemRack, Rack};
use btr_super::{SlotFault, Super, read_slot};
use std::alloc::Global;
use std::process::Abort;
use std::test::Fail;

/// Where the first copy stands, and where an image ends that has no other.
pub(super) const FIRST: u64 = 65536;

pub(super) const SHORT: u64 = 69632;

/// The superblock of a small volume.
pub(super) fn sample(csum_type: u16) -> Super {
    let mut label = [0; 256];
    label[..4].copy_from_slice(b"rows");
    Super {
        fsid: [0x11; 16],
        place: 0,
        flags: 1,
        generation: 7,
        root: 2097152,
        chunk_root: 1048576,
        log_root: 3,
        total_bytes: 16777216,
        bytes_used: 106496,
        root_dir: 6,
        num_devices: 2,
        sectorsize: 4096,
        nodesize: 16384,
        leafsize: 16385,
        stripesize: 4097,
        sys_chunk_array_size: 97,
        chunk_root_generation: 5,
        compat: 8,
        compat_ro: 9,
        incompat: 0x361,
        csum_type,
        root_level: 10,
        chunk_root_level: 11,
        log_root_level: 12,
        devid: 13,
        dev_uuid: [0x22; 16],
        label,
        cache_generation: 14,
        uuid_tree_generation: 15,
        metadata_uuid: [0x33; 16],
        reserved: [0x55; 224],
        array: [0x44; 2048],
        backups: [0x66; 1237],
    }
}

/// The superblock of the image `a`, which is opened.
pub(super) fn found(rack: &mut MemRack) -> Result<Result<Super, SlotFault>, Fail> {
    rack.open("a", false)?;
    if rack.count() == 0 {
        return Err("no image")?;
    }
    Ok(read_slot(rack, 0))
}

// What is read of a superblock that is written into an image.
fn read_back(alloc: Global, sup: &Super) -> Result<Result<Super, SlotFault>, Fail> {
    let mut rack = MemRack::new(alloc);
    rack.add("a", SHORT)?;
    put_super(&mut rack, "a", FIRST, sup)?;
    found(&mut rack)
}

#[test]
fn copies_are_read_back(rt: HostRuntime) -> Result<(), Fail> {
    for csum_type in 0..3 {
        let sup = sample(csum_type);
        let copy = Super {
            place: FIRST,
            ..sup
        };
        assert!(rt; read_back(rt.alloc(), &sup)? == Ok(copy), "{csum_type}");
    }
    Ok(())
}
