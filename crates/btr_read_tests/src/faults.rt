// Reads that fail, and images that end too early.
use crate::given::{Given, fetches, store_without, stripes_in};
use crate::profiles::{fetch_row, want_of};
use crate::shape::{
    COPIES, PARITIES, RAID1, RAID5, RAID6_ON_FOUR, Shape, contains, number, place_of, set_of,
};
use crate::volume::{damage, images, name_of, open, open_images};
use btr_base::Memory;
use btr_rack::MemRack;
use btr_read::{ReadFault, Want};
use std::alloc::Global;
use std::process::Abort;
use std::test::Fail;

// The stripes that may be read for a slice: those of its copies or, where there are parities, all of them.
fn stripes_for(letters: &[u8], slice: u64) -> u32 {
    let mut stripes = 0;
    for (stripe, letter) in letters.iter().enumerate() {
        if matches!(*letter, b'P' | b'Q') {
            return u32::MAX;
        }
        if number(*letter) == slice {
            stripes |= set_of(stripe as u64);
        }
    }
    stripes
}

// Makes a read fail that touches the last byte of the data in a row on a stripe.
fn fail_stripe(rack: &mut MemRack, shape: &Shape, row: u64, stripe: u64) -> Result<(), Memory> {
    let name = name_of(shape.device_of(stripe));
    rack.fail_range(name, place_of(row, stripe).wrapping_add(4095), 1)
}

// Makes each read fail that touches the last byte of the data in a row on one of the stripes.
fn fail_stripes(rack: &mut MemRack, shape: &Shape, stripes: u32) -> Result<(), Memory> {
    for row in 0..shape.rows.len() as u64 {
        for stripe in 0..u64::from(shape.stripes) {
            if contains(stripes, stripe) {
                fail_stripe(rack, shape, row, stripe)?;
            }
        }
    }
    Ok(())
}

// Whether a slice is fetched, lost or unread as it should be, where the elements on some stripes are damaged, and reads of others
// fail.
fn is_right(
    shape: &Shape,
    row: u64,
    slice: u64,
    damaged: u32,
    failing: u32,
    found: Result<bool, ReadFault>,
) -> bool {
    let failed = failing & stripes_for(shape.letters(row), slice);
    let stands = shape.survives(row, slice, damaged | failing);
    let wanted = shape.addr(row, slice);
    match found {
        Ok(same) => stands && same,
        Err(ReadFault::Lost(addr)) => !stands && failed == 0 && addr == wanted,
        Err(ReadFault::Unread(addr, slot)) => {
            !stands && failed & stripes_in(shape, slot) != 0 && addr == wanted
        }
        Err(_) => false,
    }
}

// Fetches a slice by its checksum.
fn fetch_slice(
    rt: &impl Abort,
    rack: &mut MemRack,
    given: &mut Given,
    shape: &Shape,
    row: u64,
    slice: u64,
) -> Result<bool, ReadFault> {
    let bytes = shape.slice(row, slice);
    let want = want_of(shape, row, slice, &bytes);
    fetches(rt, &want, rack, given, &bytes)
}

// Fetches each slice of a row, where the elements on some stripes are damaged, and reads of others fail.
fn fetch_failing(
    rt: &impl Abort,
    rack: &mut MemRack,
    given: &mut Given,
    shape: &Shape,
    row: u64,
    damaged: u32,
    failing: u32,
) {
    for slice in 0..shape.slices {
        let found = fetch_slice(rt, rack, given, shape, row, slice);
        assert!(rt;
            is_right(shape, row, slice, damaged, failing, found),
            "{:x}, slice {slice} of row {row}, damaged {damaged:b}, failing {failing:b}",
            shape.kind
        );
    }
}

// Fetches all slices with a set of failing stripes beside the damaged ones.
fn fail_rows(
    rt: &impl Abort,
    rack: &mut MemRack,
    given: &mut Given,
    shape: &Shape,
    damaged: u32,
    failing: u32,
) -> Result<(), Fail> {
    open(rack, shape)?;
    fail_stripes(rack, shape, failing)?;
    for row in 0..shape.rows.len() as u64 {
        fetch_failing(rt, rack, given, shape, row, damaged, failing);
    }
    Ok(())
}

// Fetches all slices with each set of failing stripes beside the damaged ones.
fn fail_beside(
    rt: &impl Abort,
    rack: &mut MemRack,
    given: &mut Given,
    shape: &Shape,
    damaged: u32,
) -> Result<(), Fail> {
    damage(rack, shape, damaged)?;
    for failing in 1..1u32.wrapping_shl(u32::from(shape.stripes)) {
        if failing & damaged == 0 {
            fail_rows(rt, rack, given, shape, damaged, failing)?;
        }
    }
    damage(rack, shape, damaged)
}

fn fail_each_set(rt: &impl Abort, alloc: Global, shape: &Shape) -> Result<(), Fail> {
    let mut rack = open_images(alloc, shape)?;
    let mut given = store_without(rt, alloc, &rack, shape, 0)?;
    for damaged in 0..1u32.wrapping_shl(u32::from(shape.stripes)) {
        fail_beside(rt, &mut rack, &mut given, shape, damaged)?;
    }
    Ok(())
}

#[test]
fn copies_make_up_for_failed_reads(rt: HostRuntime) -> Result<(), Fail> {
    for shape in &COPIES {
        fail_each_set(&rt, rt.alloc(), shape)?;
    }
    Ok(())
}

#[test]
fn parities_make_up_for_failed_reads(rt: HostRuntime) -> Result<(), Fail> {
    for shape in &PARITIES {
        fail_each_set(&rt, rt.alloc(), shape)?;
    }
    Ok(())
}

// Cuts the images of some stripes `short` bytes before the end of the data in row 1.
fn cut(rt: &impl Abort, rack: &mut MemRack, shape: &Shape, stripes: u32, short: u64) {
    rack.close_all();
    for stripe in 0..u64::from(shape.stripes) {
        if contains(stripes, stripe) {
            let end = place_of(1, stripe).wrapping_add(4096);
            assert!(rt; rack.cut(name_of(stripe), end.wrapping_sub(short)));
        }
    }
}

// Fetches all slices where the images of some stripes end `short` bytes before the end of the data in row 1.
fn fetch_cut(
    rt: &impl Abort,
    alloc: Global,
    rack: &mut MemRack,
    shape: &Shape,
    stripes: u32,
    short: u64,
) -> Result<(), Fail> {
    cut(rt, rack, shape, stripes, short);
    open(rack, shape)?;
    let mut given = store_without(rt, alloc, rack, shape, 0)?;
    for row in 0..shape.rows.len() as u64 {
        let is_cut = row.wrapping_add(short) > 1;
        let lost = if is_cut { stripes } else { 0 };
        fetch_row(rt, rack, &mut given, shape, row, lost);
    }
    Ok(())
}

// Fetches all slices where the images of some stripes end with the data in row 1, and a byte before.
fn fetch_short(rt: &impl Abort, alloc: Global, shape: &Shape, stripes: u32) -> Result<(), Fail> {
    let mut rack = images(alloc, shape)?;
    fetch_cut(rt, alloc, &mut rack, shape, stripes, 0)?;
    fetch_cut(rt, alloc, &mut rack, shape, stripes, 1)
}

#[test]
fn images_are_cut_short(rt: HostRuntime) -> Result<(), Fail> {
    for shape in &[RAID1, RAID5, RAID6_ON_FOUR] {
        for stripes in 0..1u32.wrapping_shl(u32::from(shape.stripes)) {
            fetch_short(&rt, rt.alloc(), shape, stripes)?;
        }
    }
    Ok(())
}

#[test]
fn what_lacks_a_device_is_not_read(rt: HostRuntime) -> Result<(), Fail> {
    let mut rack = open_images(rt.alloc(), &RAID5)?;
    fail_stripes(&mut rack, &RAID5, 0b1111)?;
    let mut given = store_without(&rt, rt.alloc(), &rack, &RAID5, 0b0011)?;
    let addr = RAID5.addr(0, 0);
    let found = fetches(&rt, &Want::Plain { addr }, &mut rack, &mut given, &[]);
    assert_eq!(rt; found, Err(ReadFault::Lost(addr)));
    Ok(())
}
