// Each profile, with each set of missing devices and of damaged elements.
use crate::given::{Given, fetches, store_without};
use crate::shape::{COPIES, PARITIES, RAID6, Shape};
use crate::volume::{damage, images, open, open_images};
use btr_base::{SumKind, sum};
use btr_rack::MemRack;
use btr_read::{ReadFault, Want};
use std::alloc::Global;
use std::process::Abort;
use std::test::Fail;

/// The want of a slice, by the checksum of its bytes.
pub(crate) fn want_of(shape: &Shape, row: u64, slice: u64, bytes: &[u8; 4096]) -> Want {
    Want::Sector {
        addr: shape.addr(row, slice),
        sum: sum(SumKind::Crc32c, bytes),
    }
}

// What the slice of a want comes to, where the elements on some stripes are lost.
fn answer_of(shape: &Shape, row: u64, slice: u64, lost: u32) -> Result<bool, ReadFault> {
    if shape.survives(row, slice, lost) {
        Ok(true)
    } else {
        Err(ReadFault::Lost(shape.addr(row, slice)))
    }
}

// Whether a slice is fetched, or lost, as it should be.
fn is_fetched(
    rt: &impl Abort,
    rack: &mut MemRack,
    given: &mut Given,
    shape: &Shape,
    row: u64,
    slice: u64,
    lost: u32,
) -> bool {
    let bytes = shape.slice(row, slice);
    let want = want_of(shape, row, slice, &bytes);
    fetches(rt, &want, rack, given, &bytes) == answer_of(shape, row, slice, lost)
}

/// Fetches each slice of a row, where the elements on some stripes are lost.
pub(crate) fn fetch_row(
    rt: &impl Abort,
    rack: &mut MemRack,
    given: &mut Given,
    shape: &Shape,
    row: u64,
    lost: u32,
) {
    for slice in 0..shape.slices {
        assert!(rt;
            is_fetched(rt, rack, given, shape, row, slice, lost),
            "{:x}, slice {slice} of row {row}, lost {lost:b}",
            shape.kind
        );
    }
}

// Fetches all slices, where some elements are damaged besides those of the missing devices.
fn fetch_rows(
    rt: &impl Abort,
    rack: &mut MemRack,
    given: &mut Given,
    shape: &Shape,
    damaged: u32,
    absent: u32,
) -> Result<(), Fail> {
    damage(rack, shape, damaged)?;
    for row in 0..shape.rows.len() as u64 {
        fetch_row(rt, rack, given, shape, row, damaged | absent);
    }
    damage(rack, shape, damaged)
}

// Fetches all slices with each set of damaged elements beside the missing devices.
fn fetch_damaged(
    rt: &impl Abort,
    alloc: Global,
    rack: &mut MemRack,
    shape: &Shape,
    missing: u32,
) -> Result<(), Fail> {
    let mut given = store_without(rt, alloc, rack, shape, missing)?;
    let absent = shape.stripes_on(missing);
    for damaged in 0..1u32.wrapping_shl(u32::from(shape.stripes)) {
        if damaged & absent == 0 {
            fetch_rows(rt, rack, &mut given, shape, damaged, absent)?;
        }
    }
    Ok(())
}

fn fetch_each_set(rt: &impl Abort, alloc: Global, shape: &Shape) -> Result<(), Fail> {
    let mut rack = open_images(alloc, shape)?;
    for missing in 0..1u32.wrapping_shl((shape.devices % 32) as u32) {
        fetch_damaged(rt, alloc, &mut rack, shape, missing)?;
    }
    Ok(())
}

#[test]
fn copies_make_up_for_the_lost(rt: HostRuntime) -> Result<(), Fail> {
    for shape in &COPIES {
        fetch_each_set(&rt, rt.alloc(), shape)?;
    }
    Ok(())
}

#[test]
fn parities_make_up_for_the_lost(rt: HostRuntime) -> Result<(), Fail> {
    for shape in &PARITIES {
        fetch_each_set(&rt, rt.alloc(), shape)?;
    }
    Ok(())
}

/// The open images of a shape, of which some elements are damaged.
pub(crate) fn damaged_images(alloc: Global, shape: &Shape, stripes: u32) -> Result<MemRack, Fail> {
    let mut rack = images(alloc, shape)?;
    damage(&mut rack, shape, stripes)?;
    open(&mut rack, shape)?;
    Ok(rack)
}

// What isn't tested is what the first candidate gives that stands. Here that is what P leaves, though P is damaged and Q
// isn't.
#[test]
fn p_comes_before_q(rt: HostRuntime) -> Result<(), Fail> {
    let mut rack = damaged_images(rt.alloc(), &RAID6, 0b01000)?;
    let mut given = store_without(&rt, rt.alloc(), &rack, &RAID6, 0b00001)?;
    let mut left = RAID6.slice(0, 0);
    left[3] ^= 0x5a;
    let want = Want::Plain {
        addr: RAID6.addr(0, 0),
    };
    let found = fetches(&rt, &want, &mut rack, &mut given, &left);
    assert_eq!(rt; found, Ok(true));
    Ok(())
}
