// One read that fails, at each place in turn, and how many reads a slice takes.
use crate::given::{Given, fetches, store_without, stripes_in};
use crate::profiles::{damaged_images, want_of};
use crate::shape::{
    DUP, RAID1C3, RAID5, RAID6, RAID6_OF_TEN, RAID6_ON_THREE, RAID10, Shape, number, set_of,
};
use crate::volume::{damage, open, open_images};
use btr_rack::MemRack;
use btr_read::ReadFault;
use std::alloc::Global;
use std::process::Abort;
use std::test::Fail;

// More than any fetch of these tests makes.
const READS: u64 = 24;

// Whether a slice could be had without any one of the stripes too.
fn has_spare(shape: &Shape, row: u64, slice: u64, lost: u32) -> bool {
    for stripe in 0..u64::from(shape.stripes) {
        if !shape.survives(row, slice, lost | set_of(stripe)) {
            return false;
        }
    }
    true
}

// The stripes on which a slice itself stands.
fn own_stripes(letters: &[u8], slice: u64) -> u32 {
    let mut stripes = 0;
    for (stripe, letter) in letters.iter().enumerate() {
        if number(*letter) == slice {
            stripes |= set_of(stripe as u64);
        }
    }
    stripes
}

// Whether any one failed read can be borne: where a stripe is left without which the slice can be had. In a row with P and
// Q only the slice itself isn't read again after a failed read.
fn bears_one(shape: &Shape, row: u64, slice: u64, damaged: u32) -> bool {
    let letters = shape.letters(row);
    if !letters.contains(&b'Q') {
        return has_spare(shape, row, slice, damaged);
    }
    let own = own_stripes(letters, slice);
    damaged & own != 0 || shape.survives(row, slice, damaged | own)
}

// Opens the images anew, so that the nth read fails.
fn fail_read(rack: &mut MemRack, shape: &Shape, n: u64) -> Result<(), Fail> {
    open(rack, shape)?;
    rack.fail_call(shape.devices.wrapping_add(n))?;
    Ok(())
}

// Whether a slice is unread, and else it is had: the failed read is then of a stripe without which it can't be had.
fn is_unread(
    rt: &impl Abort,
    shape: &Shape,
    row: u64,
    slice: u64,
    damaged: u32,
    found: Result<bool, ReadFault>,
) -> bool {
    match found {
        Ok(same) => {
            assert!(rt; same);
            false
        }
        Err(ReadFault::Unread(addr, slot)) => {
            let lost = damaged | stripes_in(shape, slot);
            assert!(rt; addr == shape.addr(row, slice) && !shape.survives(row, slice, lost));
            true
        }
        Err(fault) => panic!(rt; "{fault:?}"),
    }
}

// Fetches a slice with its nth read failing, for each n, where the elements on some stripes are damaged. It is unread
// for some n exactly where that can't be borne.
fn interrupt_slice(
    rt: &impl Abort,
    rack: &mut MemRack,
    given: &mut Given,
    shape: &Shape,
    row: u64,
    slice: u64,
    damaged: u32,
) -> Result<(), Fail> {
    let bytes = shape.slice(row, slice);
    let want = want_of(shape, row, slice, &bytes);
    let mut unread = 0u64;
    for n in 1..=READS {
        fail_read(rack, shape, n)?;
        let found = fetches(rt, &want, rack, given, &bytes);
        if is_unread(rt, shape, row, slice, damaged, found) {
            unread = unread.wrapping_add(1);
        }
    }
    assert!(rt; unread < READS);
    assert!(rt;
        (unread == 0) == bears_one(shape, row, slice, damaged),
        "{:x}, slice {slice} of row {row}, damaged {damaged:b}",
        shape.kind
    );
    Ok(())
}

fn interrupt_row(
    rt: &impl Abort,
    rack: &mut MemRack,
    given: &mut Given,
    shape: &Shape,
    row: u64,
    damaged: u32,
) -> Result<(), Fail> {
    for slice in 0..shape.slices {
        if shape.survives(row, slice, damaged) {
            interrupt_slice(rt, rack, given, shape, row, slice, damaged)?;
        }
    }
    Ok(())
}

fn interrupt_rows(
    rt: &impl Abort,
    rack: &mut MemRack,
    given: &mut Given,
    shape: &Shape,
    damaged: u32,
) -> Result<(), Fail> {
    damage(rack, shape, damaged)?;
    interrupt_row(rt, rack, given, shape, 0, damaged)?;
    interrupt_row(rt, rack, given, shape, 1, damaged)?;
    damage(rack, shape, damaged)
}

fn interrupt_each(rt: &impl Abort, alloc: Global, shape: &Shape) -> Result<(), Fail> {
    let mut rack = open_images(alloc, shape)?;
    let mut given = store_without(rt, alloc, &rack, shape, 0)?;
    for damaged in 0..1u32.wrapping_shl(u32::from(shape.stripes)) {
        interrupt_rows(rt, &mut rack, &mut given, shape, damaged)?;
    }
    Ok(())
}

#[test]
fn each_read_fails(rt: HostRuntime) -> Result<(), Fail> {
    for shape in &[DUP, RAID1C3, RAID10, RAID5, RAID6_ON_THREE, RAID6] {
        interrupt_each(&rt, rt.alloc(), shape)?;
    }
    Ok(())
}

// Makes each read behind so many fail.
fn fail_behind(rack: &mut MemRack, shape: &Shape, reads: u64) -> Result<(), Fail> {
    open(rack, shape)?;
    for n in 1..=READS {
        rack.fail_call(shape.devices.wrapping_add(reads).wrapping_add(n))?;
    }
    Ok(())
}

// Whether a slice of row 0 is had by so many reads: each read behind them fails.
fn is_had_by(
    rt: &impl Abort,
    rack: &mut MemRack,
    given: &mut Given,
    shape: &Shape,
    slice: u64,
    reads: u64,
) -> Result<bool, Fail> {
    fail_behind(rack, shape, reads)?;
    let bytes = shape.slice(0, slice);
    let want = want_of(shape, 0, slice, &bytes);
    Ok(fetches(rt, &want, rack, given, &bytes) == Ok(true))
}

// Whether a slice of row 0 is had by one read more than so many, and not by these.
fn takes_more(
    rt: &impl Abort,
    rack: &mut MemRack,
    given: &mut Given,
    shape: &Shape,
    slice: u64,
    few: u64,
) -> Result<bool, Fail> {
    let is_early = is_had_by(rt, rack, given, shape, slice, few)?;
    let is_had = is_had_by(rt, rack, given, shape, slice, few.wrapping_add(1))?;
    Ok(is_had && !is_early)
}

// Of a row of 8 slices with P and Q two are damaged. A lost one is read itself, then P, Q and the others, and then the others once
// more up to the other damaged one.
#[test]
fn each_slice_is_read_twice(rt: HostRuntime) -> Result<(), Fail> {
    let shape = RAID6_OF_TEN;
    let mut rack = damaged_images(rt.alloc(), &shape, 0b10000001)?;
    let mut given = store_without(&rt, rt.alloc(), &rack, &shape, 0)?;
    for (slice, few) in [(0u64, 16u64), (7, 10)] {
        assert!(rt; takes_more(&rt, &mut rack, &mut given, &shape, slice, few)?);
    }
    Ok(())
}
