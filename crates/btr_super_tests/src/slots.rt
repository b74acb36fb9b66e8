// Which copy of an image counts, and reads that fail.
use super::copies::{FIRST, SHORT, found, sample};
use btr_make::put_super;
use btr_rack::{MemRack, Rack};
use btr_super::{SlotFault, Super, read_slot};
use std::alloc::Global;
use std::process::Abort;
use std::test::Fail;

const SECOND: u64 = 67108864;

const THIRD: u64 = 274877906944;

const PLACES: [u64; 3] = [FIRST, SECOND, THIRD];

// How many bytes a copy has.
const SIZE: u64 = 4096;

// A copy of a generation, and of a type of checksums; one of generation 0 is not written.
type Copies = [(u64, u16); 3];

const NONE: (u64, u16) = (0, 0);

// Writes copies to their places in the image `a`.
fn put(rack: &mut MemRack, copies: &Copies) -> Result<(), Fail> {
    for (place, (generation, csum_type)) in PLACES.iter().zip(copies) {
        if *generation != 0 {
            let sup = Super {
                generation: *generation,
                ..sample(*csum_type)
            };
            put_super(rack, "a", *place, &sup)?;
        }
    }
    Ok(())
}

// An image of these copies, of this many bytes.
fn image(alloc: Global, copies: &Copies, len: u64) -> Result<MemRack, Fail> {
    let mut rack = MemRack::new(alloc);
    rack.add("a", THIRD + SIZE)?;
    put(&mut rack, copies)?;
    if !rack.cut("a", len) {
        return Err("the image is shorter")?;
    }
    Ok(rack)
}

// The place of the copy that counts.
fn place_in(mut rack: MemRack) -> Result<Result<u64, SlotFault>, Fail> {
    match found(&mut rack)? {
        Ok(sup) => Ok(Ok(sup.place)),
        Err(fault) => Ok(Err(fault)),
    }
}

// Copies, and which counts: the first of the newest.
const COUNTING: [(Copies, Result<u64, SlotFault>); 11] = [
    ([(7, 0), (7, 0), (7, 0)], Ok(FIRST)),
    ([(7, 0), (8, 0), (8, 0)], Ok(SECOND)),
    ([(7, 0), (8, 1), (9, 2)], Ok(THIRD)),
    ([(9, 0), (8, 0), (7, 0)], Ok(FIRST)),
    ([(8, 0), (7, 0), (8, 0)], Ok(FIRST)),
    ([NONE, (7, 0), (6, 0)], Ok(SECOND)),
    ([NONE, NONE, (1, 0)], Ok(THIRD)),
    ([(7, 0), (9, 3), (8, 0)], Ok(THIRD)),
    ([(7, 5), (7, 4), (7, 3)], Err(SlotFault::SumKind(5))),
    ([NONE, (7, 4), (7, 3)], Err(SlotFault::SumKind(4))),
    ([NONE, NONE, NONE], Err(SlotFault::NoSuper)),
];

#[test]
fn the_first_of_the_newest_copies_counts(rt: HostRuntime) -> Result<(), Fail> {
    let counting = COUNTING;
    for (copies, place) in &counting {
        let rack = image(rt.alloc(), copies, THIRD + SIZE)?;
        assert_eq!(rt; place_in(rack)?, *place);
    }
    Ok(())
}

const RISING: Copies = [(7, 0), (8, 0), (9, 0)];

// Lengths of an image with three copies, each newer than the one before it, and which counts.
const LENGTHS: &[(u64, Result<u64, SlotFault>)] = &[
    (0, Err(SlotFault::NoSuper)),
    (SHORT - 1, Err(SlotFault::NoSuper)),
    (SHORT, Ok(FIRST)),
    (SECOND + SIZE - 1, Ok(FIRST)),
    (SECOND + SIZE, Ok(SECOND)),
    (THIRD + SIZE - 1, Ok(SECOND)),
    (THIRD + SIZE, Ok(THIRD)),
];

#[test]
fn copies_that_pass_the_end_do_not_count(rt: HostRuntime) -> Result<(), Fail> {
    for (len, place) in LENGTHS {
        let rack = image(rt.alloc(), &RISING, *len)?;
        assert_eq!(rt; place_in(rack)?, *place);
    }
    Ok(())
}

// A byte at which reads fail, and what is found then: a fault exactly where it is one of a copy.
const FAILING: &[(u64, Result<u64, SlotFault>)] = &[
    (FIRST - 1, Ok(THIRD)),
    (FIRST, Err(SlotFault::Failed)),
    (SHORT - 1, Err(SlotFault::Failed)),
    (SHORT, Ok(THIRD)),
    (SECOND, Err(SlotFault::Failed)),
    (THIRD + SIZE - 1, Err(SlotFault::Failed)),
];

#[test]
fn reads_that_fail(rt: HostRuntime) -> Result<(), Fail> {
    for (at, place) in FAILING {
        let mut rack = image(rt.alloc(), &RISING, THIRD + SIZE)?;
        rack.fail_range("a", *at, 1)?;
        assert_eq!(rt; place_in(rack)?, *place);
    }
    Ok(())
}

// Two images, both open, of which that in the first slot can't be read.
fn two(alloc: Global) -> Result<MemRack, Fail> {
    let mut rack = image(alloc, &RISING, SHORT)?;
    rack.add("b", SHORT)?;
    put_super(&mut rack, "b", FIRST, &sample(0))?;
    rack.fail_range("a", FIRST, SIZE)?;
    rack.open("a", false)?;
    rack.open("b", false)?;
    Ok(rack)
}

#[test]
fn a_slot_that_fails_is_the_one_that_is_read(rt: HostRuntime) -> Result<(), Fail> {
    let mut rack = two(rt.alloc())?;
    if rack.count() < 2 {
        return Err("an image isn't open")?;
    }
    assert_eq!(rt; read_slot(&mut rack, 0).err(), Some(SlotFault::Failed));
    assert_eq!(rt; read_slot(&mut rack, 1).err(), None);
    Ok(())
}
