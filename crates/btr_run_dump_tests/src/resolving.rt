// Rows of `inspect-internal logical-resolve`, worked out by hand, over small volumes.
use crate::answers::answers;
use btr_make::{RowVolume, row};
use btr_rack::MemRack;
use btr_run::Answer;
use btr_test_calls::{CallFault, Failing, call_where};
use std::alloc::Global;
use std::process::Abort;

// The words before an address.
const INSPECT: &str = "inspect-internal";

const RESOLVE: &str = "logical-resolve";

const SHARED: &[u8] =
    b"tree 5 inode 260 position 0 path /a\ntree 5 inode 261 position 0 path /b\nowners 2\n";

const SECOND: &[u8] = b"tree 5 inode 260 position 8193 path /a\nowners 1\n";

// The words that resolve the address of the second row.
const SECOND_WORDS: [&str; 4] = [INSPECT, RESOLVE, "16781313", "a"];

// A volume, the words, the text and the exit status.
const ROWS: &[(RowVolume, &[&str], &[u8], u8)] = &[
    (
        RowVolume::X2,
        &[INSPECT, RESOLVE, "16777216", "a"],
        SHARED,
        0,
    ),
    (
        RowVolume::V1,
        &[INSPECT, RESOLVE, "16781313", "a"],
        SECOND,
        0,
    ),
    (
        RowVolume::V2,
        &[INSPECT, RESOLVE, "16787000", "a"],
        b"tree 5 inode 261 position 0 path /z\nowners 1\n",
        0,
    ),
    (
        RowVolume::V1,
        &[INSPECT, RESOLVE, "16785408", "a"],
        b"owners 0\n",
        0,
    ),
    (
        RowVolume::V1,
        &[INSPECT, RESOLVE, "0", "a"],
        b"error: unmapped address 0\n",
        1,
    ),
    (
        RowVolume::P,
        &[INSPECT, RESOLVE, "18446744073709551615", "a"],
        b"error: unmapped address 18446744073709551615\n",
        1,
    ),
];

#[test]
fn owners_of_small_volumes(rt: HostRuntime) -> Result<(), CallFault> {
    for (which, all, text, code) in ROWS {
        let rack = &mut row(rt.alloc(), *which)?;
        answers(&rt, rt.alloc(), rack, all, text, *code)?;
    }
    Ok(())
}

// The number of the call on the image that fails, the text and the exit status: the opening and the superblock's reading; then the blocks of the chunk tree,
// of the root tree and of the tree of files, of which there is one copy each. The blocks that were read are kept, so no call comes after these.
const FAILING: &[(u64, &[u8], u8)] = &[
    (1, b"error: image 0 failed\n", 4),
    (2, b"error: image 0 failed\n", 4),
    (3, b"error: unread block 1048576 on image 0\n", 4),
    (4, b"error: unread block 2097152 on image 0\n", 4),
    (5, b"error: unread block 2146304 on image 0\n", 4),
    (6, SECOND, 0),
    (7, SECOND, 0),
];

// A volume of which a call on the image fails.
fn failing(alloc: Global, number: u64) -> Result<MemRack, CallFault> {
    let mut rack = row(alloc, RowVolume::V1)?;
    rack.fail_call(number)?;
    Ok(rack)
}

#[test]
fn calls_that_fail(rt: HostRuntime) -> Result<(), CallFault> {
    for (number, text, code) in FAILING {
        let rack = &mut failing(rt.alloc(), *number)?;
        answers(&rt, rt.alloc(), rack, &SECOND_WORDS, text, *code)?;
    }
    Ok(())
}

// The output refuses a line: the lines before it stand, and perhaps a part of it.
fn refused_line(rt: &impl Abort, alloc: Global, number: u64) -> Result<(), CallFault> {
    let rack = &mut row(alloc, RowVolume::X2)?;
    let words = &[INSPECT, RESOLVE, "16777216", "a"];
    let told = call_where(alloc, rack, words, Failing::Output(number))?;
    assert_eq!(rt; told.answer, Answer::OutFault);
    assert_eq!(rt; told.code, 4);
    assert!(rt; SHARED.starts_with(&told.text));
    assert!(rt; told.text.len() < SHARED.len());
    Ok(())
}

#[test]
fn failing_lines(rt: HostRuntime) -> Result<(), CallFault> {
    for number in 1..4 {
        refused_line(&rt, rt.alloc(), number)?;
    }
    Ok(())
}
