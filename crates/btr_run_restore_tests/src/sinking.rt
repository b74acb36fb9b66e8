// Restores that end before their end: a block is lost or can't be read, or the destination fails.
use crate::restoring::restores;
use btr_make::{RowVolume, row};
use btr_rack::MemRack;
use btr_run::Answer;
use btr_test_calls::{CallFault, Failing, call_where};
use std::alloc::Global;
use std::process::Abort;

const FOUR: &[u8] = b"out\ne \ni x\nh1 hello\nh2 hello\n";

// Asserts that the first four files stand there, and `a` without a byte.
fn ends_at_a(
    rt: &impl Abort,
    alloc: Global,
    rack: &mut MemRack,
    all: &[&str],
    text: &[u8],
    code: u8,
) -> Result<(), CallFault> {
    let told = restores(rt, alloc, rack, all, text, code)?;
    assert_eq!(rt; told.rows.as_slice(), FOUR);
    assert!(rt; told.has_part);
    Ok(())
}

const ALL: [&str; 3] = ["restore", "out", "a"];

const LOST: &[u8] = b"error: lost block 16777216\n";

#[test]
fn the_first_block_that_is_missing(rt: HostRuntime) -> Result<(), CallFault> {
    let alloc = rt.alloc();
    let mut rack = row(alloc, RowVolume::Raid5)?;
    ends_at_a(&rt, alloc, &mut rack, &["restore", "out", "b"], LOST, 1)
}

#[test]
fn an_image_that_is_cut(rt: HostRuntime) -> Result<(), CallFault> {
    let alloc = rt.alloc();
    let mut rack = row(alloc, RowVolume::V1)?;
    assert!(rt; rack.cut("a", 8388608));
    ends_at_a(&rt, alloc, &mut rack, &ALL, LOST, 1)
}

#[test]
fn a_sector_that_cannot_be_read(rt: HostRuntime) -> Result<(), CallFault> {
    let alloc = rt.alloc();
    let mut rack = row(alloc, RowVolume::V1)?;
    rack.fail_range("a", 10485760, 4096)?;
    let text = b"error: unread block 16777216 on image 0\n";
    ends_at_a(&rt, alloc, &mut rack, &ALL, text, 4)
}

// Asserts that the failure of one call of the destination ends the run.
fn fails_at(rt: &impl Abort, alloc: Global, number: u64) -> Result<(), CallFault> {
    let mut rack = row(alloc, RowVolume::V1)?;
    let told = call_where(alloc, &mut rack, &ALL, Failing::Destination(number))?;
    assert_eq!(rt; told.answer, Answer::SinkFault);
    assert_eq!(rt; told.code, 4);
    assert_eq!(rt;
        told.text.as_slice(),
        b"error: the destination failed\n".as_slice()
    );
    Ok(())
}

#[test]
fn a_failing_destination(rt: HostRuntime) -> Result<(), CallFault> {
    for number in 1..18 {
        fails_at(&rt, rt.alloc(), number)?;
    }
    Ok(())
}

// Where the first block of `a` is missing, what waits of it is stored: the fourteenth call.
#[test]
fn a_destination_that_fails_behind_a_missing_block(rt: HostRuntime) -> Result<(), CallFault> {
    let alloc = rt.alloc();
    let mut rack = row(alloc, RowVolume::Raid5)?;
    let words = ["restore", "out", "b"];
    let told = call_where(alloc, &mut rack, &words, Failing::Destination(14))?;
    assert_eq!(rt; told.answer, Answer::SinkFault);
    assert_eq!(rt;
        told.text.as_slice(),
        b"error: the destination failed\n".as_slice()
    );
    assert_eq!(rt; told.rows.as_slice(), FOUR);
    Ok(())
}
