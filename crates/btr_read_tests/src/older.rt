// Images that are older than the chosen superblock: they missed writes.
use crate::given::{Given, fetches, store_behind};
use crate::profiles::{damaged_images, fetch_row};
use crate::shape::{RAID1, RAID1C3, RAID5, RAID6, RAID10, Shape, set_of};
use btr_rack::MemRack;
use btr_read::{ReadFault, Want};
use std::alloc::Global;
use std::process::Abort;
use std::test::Fail;

// Whether a sector that isn't tested comes to the bytes that were written last.
fn is_newest(
    rt: &impl Abort,
    rack: &mut MemRack,
    given: &mut Given,
    shape: &Shape,
    row: u64,
    slice: u64,
) -> Result<bool, ReadFault> {
    let want = Want::Plain {
        addr: shape.addr(row, slice),
    };
    fetches(rt, &want, rack, given, &shape.slice(row, slice))
}

// Fetches all slices without a test, where the images of a set of devices are older and have other bytes.
fn fetch_behind(rt: &impl Abort, alloc: Global, shape: &Shape, older: u32) -> Result<(), Fail> {
    let mut rack = damaged_images(alloc, shape, shape.stripes_on(older))?;
    let mut given = store_behind(rt, alloc, &rack, shape, 0, older)?;
    for row in 0..shape.rows.len() as u64 {
        for slice in 0..shape.slices {
            let found = is_newest(rt, &mut rack, &mut given, shape, row, slice);
            assert_eq!(rt;
                found,
                Ok(true),
                "{:x}, slice {slice} of row {row}, older {older:b}",
                shape.kind
            );
        }
    }
    Ok(())
}

#[test]
fn the_newest_bytes_come(rt: HostRuntime) -> Result<(), Fail> {
    for shape in [RAID1, RAID1C3, RAID10, RAID5, RAID6] {
        for device in 0..shape.devices {
            fetch_behind(&rt, rt.alloc(), &shape, set_of(device))?;
        }
    }
    fetch_behind(&rt, rt.alloc(), &RAID1C3, 0b011)?;
    fetch_behind(&rt, rt.alloc(), &RAID6, 0b00011)?;
    fetch_behind(&rt, rt.alloc(), &RAID6, 0b10010)
}

// Whether the first slice of two copies comes to the bytes that were written last, where the elements on some stripes have
// others, and some devices are missing or older.
fn newest_of_two(
    rt: &impl Abort,
    alloc: Global,
    changed: u32,
    missing: u32,
    older: u32,
) -> Result<bool, Fail> {
    let mut rack = damaged_images(alloc, &RAID1, changed)?;
    let mut given = store_behind(rt, alloc, &rack, &RAID1, missing, older)?;
    let newest = is_newest(rt, &mut rack, &mut given, &RAID1, 0, 0);
    Ok(newest.ok().ok_or("it can be had")?)
}

#[test]
fn of_older_images_the_first_comes(rt: HostRuntime) -> Result<(), Fail> {
    assert!(rt; !newest_of_two(&rt, rt.alloc(), 0b01, 0, 0b11)?);
    assert!(rt; newest_of_two(&rt, rt.alloc(), 0b10, 0, 0b11)?);
    Ok(())
}

#[test]
fn an_older_image_serves_alone(rt: HostRuntime) -> Result<(), Fail> {
    assert!(rt; newest_of_two(&rt, rt.alloc(), 0, 0b10, 0b01)?);
    assert!(rt; !newest_of_two(&rt, rt.alloc(), 0b01, 0b10, 0b01)?);
    Ok(())
}

// Fetches all slices by their checksums, where the images that aren't older are damaged.
#[test]
fn an_older_copy_that_passes_serves(rt: HostRuntime) -> Result<(), Fail> {
    let mut rack = damaged_images(rt.alloc(), &RAID1, 0b10)?;
    let mut given = store_behind(&rt, rt.alloc(), &rack, &RAID1, 0, 0b01)?;
    for row in 0..RAID1.rows.len() as u64 {
        fetch_row(&rt, &mut rack, &mut given, &RAID1, row, 0b10);
    }
    Ok(())
}
