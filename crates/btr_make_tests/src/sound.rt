// The volumes are sound, as far as one block, one superblock or one row of a stripe shows.
ghost use Rattle.std.specs.Prelude.{◌≤◌};

use super::blocks::{Range, Tally, look_through};
use btr_base::{SumKind, is_summed};
use btr_make::{RowVolume, make, row};
use btr_rack::{MemRack, Rack};
use btr_super::{Super, read_slot};
use std::alloc::Global;
use std::process::Abort;
use std::test::Fail;

// The system chunk and the metadata of a small volume, in its first image.
const SMALL: Range = Range {
    start: 1048576,
    blocks: 320,
};

// Looks at the blocks of a small volume.
fn tally_small(
    rt: &impl Abort,
    alloc: Global,
    which: RowVolume,
    kind: SumKind,
) -> Result<Tally, Fail> {
    let rack = row(alloc, which)?;
    let mut tally = Tally::NONE;
    look_through(rt, alloc, &rack, kind, SMALL, &mut tally)?;
    Ok(tally)
}

// The small volumes, their kinds of checksums and how many blocks there are.
const BLOCKS: [(RowVolume, SumKind, u64); 14] = [
    (RowVolume::V1, SumKind::Crc32c, 6),
    (RowVolume::V1d, SumKind::Crc32c, 6),
    (RowVolume::V2, SumKind::Crc32c, 8),
    (RowVolume::Raid5, SumKind::Crc32c, 6),
    (RowVolume::Raid6, SumKind::Crc32c, 6),
    (RowVolume::S, SumKind::Crc32c, 8),
    (RowVolume::X2, SumKind::Crc32c, 6),
    (RowVolume::X3, SumKind::Crc32c, 6),
    (RowVolume::M1, SumKind::Crc32c, 6),
    (RowVolume::N, SumKind::Crc32c, 6),
    (RowVolume::P, SumKind::Crc32c, 8),
    (RowVolume::Q, SumKind::Crc32c, 7),
    (RowVolume::L, SumKind::Crc32c, 6),
    (RowVolume::M3, SumKind::Xxh64, 6),
];

#[test]
fn blocks_of_small_volumes(rt: HostRuntime) -> Result<(), Fail> {
    for (which, kind, blocks) in &BLOCKS {
        let tally = tally_small(&rt, rt.alloc(), *which, *kind)?;
        assert_eq!(rt; (tally.blocks, tally.level), (*blocks, 0));
    }
    Ok(())
}

/// The superblock of one more image of a volume, which is opened.
pub(super) fn next_super(rack: &mut MemRack, name: &str) -> Result<Super, Fail> {
    let slot = rack.open(name, false)?;
    if slot >= rack.count() {
        return Err("no such slot")?;
    }
    Ok(read_slot(rack, slot)?)
}

fn is_super_of(sup: &Super, devid: u64, devices: u64) -> bool {
    sup.devid == devid
        && sup.num_devices == devices
        && sup.generation == 7
        && sup.total_bytes == devices.wrapping_mul(16777216)
}

// The superblocks of all images are read back, each with its device.
fn supers_are(rt: &impl Abort, rack: &mut MemRack, names: &[&str]) -> Result<(), Fail> {
    let mut devid = 0u64;
    for name in names {
        devid = devid.wrapping_add(1);
        let sup = next_super(rack, name)?;
        assert!(rt; is_super_of(&sup, devid, names.len() as u64));
    }
    Ok(())
}

const IMAGES: [(RowVolume, &[&str]); 8] = [
    (RowVolume::V1, &["a"]),
    (RowVolume::V2, &["a"]),
    (RowVolume::M1, &["a", "b"]),
    (RowVolume::Raid5, &["a", "b", "c"]),
    (RowVolume::M3, &["a", "b", "c"]),
    (RowVolume::Rows5, &["a", "b", "c"]),
    (RowVolume::Raid6, &["a", "b", "c", "d"]),
    (RowVolume::Rows6, &["a", "b", "c", "d", "e"]),
];

#[test]
fn superblocks_of_small_volumes(rt: HostRuntime) -> Result<(), Fail> {
    for (which, names) in &IMAGES {
        supers_are(&rt, &mut row(rt.alloc(), *which)?, names)?;
    }
    Ok(())
}

/// Both superblocks of an image of a made volume have their checksums.
pub(super) fn has_two_supers(rt: &impl Abort, rack: &MemRack, name: &str) -> Result<(), Fail> {
    for index in [16, 16384] {
        let Some(copy) = rack.page(name, index) else {
            return Err("no superblock")?;
        };
        assert!(rt; copy.len() == 4096 && is_summed(SumKind::Crc32c, copy));
    }
    Ok(())
}

// The metadata of a made volume, in its first image: the system chunk, and that of the other trees.
const MADE_SYSTEM: Range = Range {
    start: 1048576,
    blocks: 256,
};

const MADE_METADATA: Range = Range {
    start: 8388608,
    blocks: 2048,
};

// Looks at the blocks of a made volume.
fn tally_through(rt: &impl Abort, alloc: Global, rack: &MemRack) -> Result<Tally, Fail> {
    let mut tally = Tally::NONE;
    look_through(rt, alloc, rack, SumKind::Crc32c, MADE_SYSTEM, &mut tally)?;
    look_through(rt, alloc, rack, SumKind::Crc32c, MADE_METADATA, &mut tally)?;
    Ok(tally)
}

// Makes a volume of so many directories, and looks at its superblocks and its blocks.
fn tally_made(rt: &impl Abort, alloc: Global, number: u64) -> Result<Tally, Fail>
    requires least { 1 ≤ number }
    requires most { number ≤ 1000 }
{
    let rack = make(alloc, number)?;
    for name in ["a", "b", "c"] {
        has_two_supers(rt, &rack, name)?;
    }
    tally_through(rt, alloc, &rack)
}

#[test]
fn made_volumes(rt: HostRuntime) -> Result<(), Fail> {
    let one = tally_made(&rt, rt.alloc(), 1)?;
    assert_eq!(rt; (one.dirs, one.files, one.bytes), (2, 4, 24576));
    let ten = tally_made(&rt, rt.alloc(), 10)?;
    assert_eq!(rt; (ten.dirs, ten.files, ten.bytes), (11, 40, 245940));
    assert!(rt; ten.level >= 1);
    Ok(())
}

#[test]
fn the_largest_made_volume(rt: HostRuntime) -> Result<(), Fail> {
    let all = tally_made(&rt, rt.alloc(), 1000)?;
    assert_eq!(rt; (all.dirs, all.files, all.bytes), (1001, 4000, 26574000));
    assert!(rt; all.level >= 2);
    Ok(())
}
