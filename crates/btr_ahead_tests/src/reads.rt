// Sectors that are read by a rack that reads ahead.
use crate::images::{MIB, image, sector, two_images};
use btr_ahead::AheadRack;
use btr_rack::{MemRack, Rack};
use std::process::Abort;
use std::test::Fail;

// Whether a sector, by its number, is read as it stands in an image of 3 MiB, unless the read fails.
fn read(rt: &impl Abort, rack: &mut AheadRack<MemRack>, slot: usize, k: u64) -> Option<bool> {
    let mut bytes = [255; 4096];
    assert!(rt; k < 128 && slot < rack.count() && rack.len(slot) == 3 * MIB);
    match rack.read_at(slot, MIB + 4096 * k, &mut bytes) {
        Ok(()) => Some(bytes == sector(k)),
        Err(_) => None,
    }
}

fn is_read(rt: &impl Abort, rack: &mut AheadRack<MemRack>, slot: usize, k: u64) -> bool {
    read(rt, rack, slot, k) == Some(true)
}

fn fails(rt: &impl Abort, rack: &mut AheadRack<MemRack>, slot: usize, k: u64) -> bool {
    read(rt, rack, slot, k).is_none()
}

// Whether all 128 sectors of an image are read.
fn all_are_read(rt: &impl Abort, rack: &mut AheadRack<MemRack>) -> bool {
    for k in 0..128u64 {
        if !is_read(rt, rack, 0, k) {
            return false;
        }
    }
    true
}

#[test]
fn a_run_is_read_by_few_reads(rt: HostRuntime) -> Result<(), Fail> {
    // The opening is the first call. Then 1, 2, 4, 8, 16, 32 and 64 sectors are read at once, and one more.
    let below = image(rt.alloc(), 10)?;
    let mut rack = AheadRack::new(below, rt.alloc());
    assert!(rt; all_are_read(&rt, &mut rack));
    assert!(rt; fails(&rt, &mut rack, 0, 0));
    assert!(rt; is_read(&rt, &mut rack, 0, 0));
    Ok(())
}

// Whether four runs of 64 sectors, two in each image, are read in turn.
fn in_turn(rt: &impl Abort, rack: &mut AheadRack<MemRack>) -> bool {
    for k in 0..64u64 {
        for slot in 0..2usize {
            if !is_read(rt, rack, slot, k) || !is_read(rt, rack, slot, 64 + k) {
                return false;
            }
        }
    }
    true
}

#[test]
fn runs_that_alternate_are_each_read_by_few_reads(rt: HostRuntime) -> Result<(), Fail> {
    // Two openings. Then 1, 2, 4, 8, 16, 32 and 64 sectors are read at once in each of four runs, two in each image.
    let below = two_images(rt.alloc(), 31)?;
    let mut rack = AheadRack::new(below, rt.alloc());
    assert!(rt; in_turn(&rt, &mut rack));
    assert!(rt; fails(&rt, &mut rack, 0, 0));
    Ok(())
}

// Whether of so many sectors of an image exactly the 20th and the 90th can't be read.
fn two_fail(rt: &impl Abort, rack: &mut AheadRack<MemRack>, slot: usize, count: u64) -> bool {
    for k in 0..count {
        if fails(rt, rack, slot, k) != (k == 20 || k == 90) {
            return false;
        }
    }
    true
}

#[test]
fn a_bad_sector_fails_alone(rt: HostRuntime) -> Result<(), Fail> {
    // Two openings. Of each image the first 15 sectors are had by 4 reads, and those from 15 to 30 by one that fails and 16 reads; of the first one, those
    // to 62 by one, those to 126 by one that fails and 64 reads, and the last one by one; of the other one those from 31 on by one.
    let mut below = two_images(rt.alloc(), 113)?;
    below.fail_range("disk", MIB + 4096 * 20, 1)?;
    below.fail_range("disk", MIB + 4096 * 90, 1)?;
    below.fail_range("other", MIB + 4096 * 20, 1)?;
    let mut rack = AheadRack::new(below, rt.alloc());
    assert!(rt; two_fail(&rt, &mut rack, 0, 128));
    assert!(rt; two_fail(&rt, &mut rack, 1, 32));
    assert!(rt; fails(&rt, &mut rack, 0, 5));
    assert!(rt; is_read(&rt, &mut rack, 0, 5));
    Ok(())
}

#[test]
fn the_last_sector_is_not_read_twice(rt: HostRuntime) -> Result<(), Fail> {
    let mut below = MemRack::new(rt.alloc());
    below.add("disk", 8192)?;

    // The opening and the read of the first sector are two calls.
    below.fail_call(3)?;
    let mut rack = AheadRack::new(below, rt.alloc());
    rack.open("disk", false)?;
    let mut bytes = [255; 4096];
    assert!(rt; rack.len(0) == 8192);
    rack.read_at(0, 0, &mut bytes)?;
    assert!(rt; rack.count() == 1 && rack.len(0) == 8192);
    assert!(rt; rack.read_at(0, 4096, &mut bytes).is_err());
    Ok(())
}
