// Checks where calls on an image or on the output fail.
use crate::answers::answers;
use btr_make::{RowVolume, row};
use btr_rack::MemRack;
use btr_run::Answer;
use btr_test_calls::{CallFault, Failing, Told, call, call_where};
use std::alloc::Global;
use std::process::Abort;

// A volume of which a call on the image fails.
fn failing(alloc: Global, number: u64) -> Result<MemRack, CallFault> {
    let mut rack = row(alloc, RowVolume::V1d)?;
    rack.fail_call(number)?;
    Ok(rack)
}

const UNREAD: &[u8] = b"error: unread block 1048576 on image 0\n";

// What is told where a call fails that reads the chunk tree's block, of which there is no other copy.
fn names(rt: &impl Abort, alloc: Global, number: u64) -> Result<(), CallFault> {
    let told = call(alloc, &mut failing(alloc, number)?, &["check", "a"])?;
    assert_eq!(rt; told.answer, Answer::Unread(1048576, 0));
    assert_eq!(rt; told.code, 4);
    assert_eq!(rt; told.text.as_slice(), UNREAD);
    Ok(())
}

// The same of another block, whose second copy is read then.
fn mends(rt: &impl Abort, alloc: Global, number: u64) -> Result<(), CallFault> {
    let told = call(alloc, &mut failing(alloc, number)?, &["check", "a"])?;
    assert_eq!(rt; told.answer, Answer::Done { skipped: 0 });
    assert_eq!(rt; told.code, 0);
    assert_eq!(rt; told.text.as_slice(), b"no findings\n".as_slice());
    Ok(())
}

// The calls that read the chunk tree's block, when the volume is opened and when its trees are walked. Between them the root tree's block is read: both of
// its copies, to see whether images have diverged, and then as its tree's. After them come the blocks of the extents, the devices, the files and the
// checksums.
const CHUNK_TREE: [u64; 2] = [3, 7];

const LAST: u64 = 11;

#[test]
fn calls_that_fail(rt: HostRuntime) -> Result<(), CallFault> {
    let alloc = rt.alloc();
    let text = b"error: image 0 failed\n";
    for number in 1..3 {
        answers(
            &rt,
            alloc,
            &mut failing(alloc, number)?,
            &["check", "a"],
            text,
            4,
        )?;
    }
    for number in 3..=LAST {
        if CHUNK_TREE.contains(&number) {
            names(&rt, alloc, number)?;
        } else {
            mends(&rt, alloc, number)?;
        }
    }
    Ok(())
}

// A call, the one behind it, and what a check tells where both fail: behind the last call there is none, and with it the other copy's is lost.
const PAIRS: &[(u64, &[u8], u8)] = &[
    (LAST, b"error: unread block 2162688 on image 0\n", 4),
    (LAST + 1, b"no findings\n", 0),
];

#[test]
fn no_call_behind_the_last(rt: HostRuntime) -> Result<(), CallFault> {
    let alloc = rt.alloc();
    for (number, text, code) in PAIRS {
        let mut rack = failing(alloc, *number)?;
        rack.fail_call(number.wrapping_add(1))?;
        answers(&rt, alloc, &mut rack, &["check", "a"], text, *code)?;
    }
    Ok(())
}

const FINDINGS: &[u8] = b"sum-missing 5 260 16777216\nsum-missing 5 260 16781312\nfindings 2\n";

// A check that finds something, where the output refuses one of its calls, if there are so many.
fn with_output(alloc: Global, number: u64) -> Result<Told, CallFault> {
    let mut rack = row(alloc, RowVolume::N)?;
    call_where(alloc, &mut rack, &["check", "a"], Failing::Output(number))
}

// Where the output refuses a call, a first part of the lines stands there.
#[test]
fn each_failing_put(rt: HostRuntime) -> Result<(), CallFault> {
    let told = with_output(rt.alloc(), 1)?;
    assert_eq!(rt; told.answer, Answer::OutFault);
    assert_eq!(rt; told.code, 4);
    assert!(rt; FINDINGS.starts_with(&told.text));
    assert!(rt; told.text.len() < FINDINGS.len());
    Ok(())
}

#[test]
fn no_second_put(rt: HostRuntime) -> Result<(), CallFault> {
    let told = with_output(rt.alloc(), 2)?;
    assert!(rt; told.answer != Answer::OutFault);
    assert_eq!(rt; told.code, 1);
    assert_eq!(rt; told.text.as_slice(), FINDINGS);
    Ok(())
}
