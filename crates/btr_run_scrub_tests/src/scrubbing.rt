// Scrubs by the words of the command line, over images in memory.
use crate::answers::answers;
use btr_make::{RowVolume, row, seal};
use btr_rack::MemRack;
use btr_test_calls::{CallFault, Failing, call_where};
use std::alloc::Global;
use std::process::Abort;

// A byte of an image.
#[derive(Clone, Copy)]
struct Place {
    image: &'static str,
    off: u64,
}

/// Turns a byte of an image, and answers what it was.
pub(crate) fn turn(rack: &mut MemRack, image: &str, off: u64) -> Result<u8, CallFault> {
    let byte = rack.byte(image, off).unwrap_or(0);
    rack.poke(image, off, &[!byte])?;
    Ok(byte)
}

// Runs a scrub, and asserts its text and what a byte of an image is then. The images are on the shelf again.
fn scrubs(
    rt: &impl Abort,
    alloc: Global,
    rack: &mut MemRack,
    all: &[&str],
    text: &[u8],
    place: Place,
    byte: u8,
) -> Result<(), CallFault> {
    answers(rt, alloc, rack, all, text, 0)?;
    rack.close_all();
    assert_eq!(rt; rack.byte(place.image, place.off), Some(byte));
    Ok(())
}

const FOUND: &[u8] = b"blocks 8 bad 1 repaired 0 lost 0 parity 0 unchecked 0\n";

const REPAIRED: &[u8] = b"blocks 8 bad 1 repaired 1 lost 0 parity 0 unchecked 0\n";

const CLEAN: &[u8] = b"blocks 8 bad 0 repaired 0 lost 0 parity 0 unchecked 0\n";

const COPY: Place = Place {
    image: "a",
    off: 2146404,
};

// Scrubs a volume with a bad copy, in which a byte was another one: only reading, writing, and again.
fn mends_copy(
    rt: &impl Abort,
    alloc: Global,
    rack: &mut MemRack,
    place: Place,
    right: u8,
) -> Result<(), CallFault> {
    let reads = ["scrub", "start", "-r", "a"];
    let writes = ["scrub", "start", "a"];
    scrubs(rt, alloc, rack, &reads, FOUND, place, !right)?;
    scrubs(rt, alloc, rack, &writes, REPAIRED, place, right)?;
    scrubs(rt, alloc, rack, &writes, CLEAN, place, right)
}

#[test]
fn a_bad_copy(rt: HostRuntime) -> Result<(), CallFault> {
    let alloc = rt.alloc();
    let rack = &mut row(alloc, RowVolume::V1d)?;
    let right = turn(rack, COPY.image, COPY.off)?;
    mends_copy(&rt, alloc, rack, COPY, right)
}

// The second copy of the same leaf, and a byte of it that no item holds.
const SECOND: u64 = 6340608;

const UNUSED: Place = Place {
    image: "a",
    off: SECOND + 5000,
};

#[test]
fn a_copy_that_passes_and_differs(rt: HostRuntime) -> Result<(), CallFault> {
    let alloc = rt.alloc();
    let rack = &mut row(alloc, RowVolume::V1d)?;
    let right = turn(rack, UNUSED.image, UNUSED.off)?;
    seal(rack, UNUSED.image, SECOND, 16384)?;
    mends_copy(&rt, alloc, rack, UNUSED, right)
}

const PARITY: Place = Place {
    image: "c",
    off: 10485760,
};

const WRONG: &[u8] = b"blocks 8 bad 0 repaired 0 lost 0 parity 1 unchecked 0\n";

#[test]
fn a_wrong_parity(rt: HostRuntime) -> Result<(), CallFault> {
    let alloc = rt.alloc();
    let rack = &mut row(alloc, RowVolume::Raid5)?;
    let right = turn(rack, PARITY.image, PARITY.off)?;
    let all = ["scrub", "start", "a", "b", "c"];
    scrubs(&rt, alloc, rack, &all, WRONG, PARITY, right)?;
    let text = b"error: device 3 is not given\n";
    answers(&rt, alloc, rack, &["scrub", "start", "a", "b"], text, 3)
}

// The output refuses the line of a scrub, before which the copy was mended.
#[test]
fn a_failing_output(rt: HostRuntime) -> Result<(), CallFault> {
    let alloc = rt.alloc();
    let mut rack = row(alloc, RowVolume::V1d)?;
    let right = turn(&mut rack, COPY.image, COPY.off)?;
    let words = ["scrub", "start", "a"];
    let told = call_where(alloc, &mut rack, &words, Failing::Output(1))?;
    assert_eq!(rt; told.code, 4);
    assert!(rt; REPAIRED.starts_with(&told.text));
    assert!(rt; told.text.len() < REPAIRED.len());
    rack.close_all();
    assert_eq!(rt; rack.byte(COPY.image, COPY.off), Some(right));
    Ok(())
}
