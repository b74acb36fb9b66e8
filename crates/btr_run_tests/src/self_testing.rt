// `self-test`: the volume of `Builder` and volumes that are given, sound and spoiled, and an output
// that fails.
ghost use Rattle.std.specs.Prelude.{IfOk};
ghost use Rattle.btr_make.specs.Shelf.{IsShelved};

use btr_make::{Builder, Given, Maker, make, spoil};
use btr_rack::MemRack;
use btr_run::Answer;
use btr_test_calls::{CallFault, Failing, call_making};
use std::alloc::Global;
use std::process::Abort;

const ONE: &[u8] = b"self-test 1\ndirectories 1 files 4 bytes 24576\n\
check: no findings\nfirst restore: same\nscrub: lost 0\nsecond restore: same\n";

const TEN: &[u8] = b"self-test 10\ndirectories 10 files 40 bytes 245940\n\
check: no findings\nfirst restore: same\nscrub: lost 0\nsecond restore: same\n";

// Of the volume of ten directories, two of whose images are spoiled.
const SPOILED: &[u8] = b"self-test 10\ndirectories 10 files 40 bytes 245940\n\
check: failed\nfirst restore: same\nscrub: lost 0\nsecond restore: same\n";

// Of the volume of one directory, tried as one of ten.
const SMALLER: &[u8] = b"self-test 10\ndirectories 10 files 40 bytes 245940\n\
check: no findings\nfirst restore: differs\nscrub: lost 0\nsecond restore: differs\n";

// The first two lines of one directory.
const LINES: &[u8] = b"self-test 1\ndirectories 1 files 4 bytes 24576\n";

// The volume of so many directories, some of whose images are spoiled.
fn volume_of(alloc: Global, number: u64, spoiled: &[&str]) -> Result<MemRack, CallFault>
    ensures { IfOk result IsShelved }
{
    if number < 1 || number > 1000 {
        return Err(CallFault::Image);
    }
    let mut rack = make(alloc, number)?;
    for name in spoiled {
        spoil(&mut rack, name)?;
    }
    Ok(rack)
}

fn tries<M: Maker + Drop>(
    rt: &impl Abort,
    alloc: Global,
    maker: M,
    number: &str,
    text: &[u8],
    answer: Answer,
) -> Result<(), CallFault> {
    let told = call_making(alloc, maker, &["self-test", number], Failing::Nothing)?;
    assert_eq!(rt; told.text.as_slice(), text);
    assert_eq!(rt; told.answer, answer);
    assert!(rt; told.rows.is_empty());
    Ok(())
}

#[test]
fn made_volumes(rt: HostRuntime) -> Result<(), CallFault> {
    let alloc = rt.alloc();
    tries(&rt, alloc, Builder, "1", ONE, Answer::Done { skipped: 0 })?;
    tries(&rt, alloc, Builder, "10", TEN, Answer::Done { skipped: 0 })
}

// The step that spoils the second image makes it right again.
#[test]
fn given_volumes(rt: HostRuntime) -> Result<(), CallFault> {
    let alloc = rt.alloc();
    let spoiled = Given::new(volume_of(alloc, 10, &["a", "b"])?);
    tries(&rt, alloc, spoiled, "10", SPOILED, Answer::Found(1))?;
    let smaller = Given::new(volume_of(alloc, 1, &[])?);
    tries(&rt, alloc, smaller, "10", SMALLER, Answer::Found(2))?;
    let sound = Given::new(volume_of(alloc, 10, &[])?);
    tries(&rt, alloc, sound, "10", TEN, Answer::Done { skipped: 0 })
}

// What stands in the output where the put of this number fails.
fn fails<M: Maker + Drop>(
    rt: &impl Abort,
    alloc: Global,
    maker: M,
    put: u64,
    text: &[u8],
) -> Result<(), CallFault> {
    let told = call_making(alloc, maker, &["self-test", "1"], Failing::Output(put))?;
    assert_eq!(rt; told.answer, Answer::OutFault);
    assert_eq!(rt; told.code, 4);
    assert_eq!(rt; told.text.as_slice(), text);
    Ok(())
}

// The lines of the volume are one put, and those of the trial another.
#[test]
fn an_output_that_fails(rt: HostRuntime) -> Result<(), CallFault> {
    let alloc = rt.alloc();
    fails(&rt, alloc, Builder, 1, b"")?;
    fails(&rt, alloc, Builder, 2, LINES)?;
    let given = Given::new(volume_of(alloc, 1, &["a"])?);
    fails(&rt, alloc, given, 2, LINES)
}
