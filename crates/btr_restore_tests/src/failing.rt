// Restores in which something of the outside fails: all that was done before stands.
use super::memory::{Failing, Job, NOTHING, Restored, V1, five_files, outcome};
use btr_make::RowVolume;
use btr_volume::Stop;
use btr_walk::TreeFault;
use std::alloc::Global;
use std::process::Abort;
use std::test::Fail;

// How many rows stand there when the nth call of the sink fails: it starts, and then begins, fills and finishes each file.
const ROWS_BEFORE: [usize; 17] = [0, 1, 1, 2, 2, 2, 3, 3, 3, 4, 4, 4, 5, 5, 5, 5, 5];

// How many lines there are.
fn lines_of(text: &[u8]) -> usize {
    text.iter().filter(|byte| **byte == b'\n').count()
}

// What comes of a restore of the first small volume.
fn where_fails(rt: &impl Abort, alloc: Global, failing: Failing) -> Result<Restored, Fail> {
    outcome(rt, alloc, &Job { failing, ..V1 })
}

// Whether the rows of the five files are there.
fn is_whole(alloc: Global, restored: &Restored) -> Result<bool, Fail> {
    Ok(restored.rows.as_slice() == five_files(alloc)?.as_slice())
}

#[test]
fn each_call_of_the_sink(rt: HostRuntime) -> Result<(), Fail> {
    let all = five_files(rt.alloc())?;
    let mut failing = NOTHING;
    for rows in ROWS_BEFORE {
        failing.sink = failing.sink.wrapping_add(1);
        let some = where_fails(&rt, rt.alloc(), failing)?;
        assert!(rt; some.answer == Err(Stop::Sink) && some.text.is_empty());
        assert_eq!(rt; lines_of(&some.rows), rows);
        assert!(rt; all.as_slice().starts_with(some.rows.as_slice()));
    }
    Ok(())
}

// The seventeen calls are all.
#[test]
fn no_further_call_of_the_sink(rt: HostRuntime) -> Result<(), Fail> {
    let failing = Failing {
        sink: 18,
        ..NOTHING
    };
    assert!(rt; where_fails(&rt, rt.alloc(), failing)?.answer.is_ok());
    Ok(())
}

// The call for the zeros behind the first 4096 bytes fails.
#[test]
fn the_gap_of_a_file(rt: HostRuntime) -> Result<(), Fail> {
    let failing = Failing {
        sink: 15,
        ..NOTHING
    };
    let some = where_fails(&rt, rt.alloc(), failing)?;
    let mut part = Vec::new(rt.alloc());
    part.extend_from_slice(b"a ")?;
    part.extend_from_slice(&[0x41; 4096])?;
    part.push(b'\n')?;
    assert!(rt; some.part.as_slice() == part.as_slice());
    Ok(())
}

#[test]
fn the_output(rt: HostRuntime) -> Result<(), Fail> {
    let failing = Failing { out: 1, ..NOTHING };
    let some = where_fails(&rt, rt.alloc(), failing)?;
    assert_eq!(rt; some.answer, Err(Stop::Out));
    assert!(rt; is_whole(rt.alloc(), &some)?);
    Ok(())
}

#[test]
fn reads_of_a_sector(rt: HostRuntime) -> Result<(), Fail> {
    let failing = Failing {
        read: (10485760, 4096),
        ..NOTHING
    };
    let some = where_fails(&rt, rt.alloc(), failing)?;
    let unread = TreeFault::Unread(16777216, 0);
    assert_eq!(rt; some.answer, Err(Stop::Tree(unread)));
    assert_eq!(rt; lines_of(&some.rows), 5);
    assert!(rt; some.part.as_slice() == b"a \n".as_slice());
    Ok(())
}

// The second copy is taken.
#[test]
fn reads_of_the_first_copy_of_metadata(rt: HostRuntime) -> Result<(), Fail> {
    let failing = Failing {
        read: (2097152, 4194304),
        ..NOTHING
    };
    let job = Job {
        which: RowVolume::V1d,
        failing,
        ..V1
    };
    let all = outcome(&rt, rt.alloc(), &job)?;
    assert!(rt; all.answer.is_ok());
    assert!(rt; is_whole(rt.alloc(), &all)?);
    Ok(())
}
