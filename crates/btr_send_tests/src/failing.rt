// Sends in which something of the outside fails: what stands is the first part of the stream, up to the end of a command.
use super::memory::{Failing, NOTHING, Outcome, attempt, sent_from, small};
use btr_make::RowVolume;
use btr_rack::{MemRack, Rack};
use btr_volume::Stop;
use btr_walk::TreeFault;
use std::alloc::Global;
use std::process::Abort;
use std::test::Fail;

// How many calls of the sink there are: it starts, begins the file, takes the header and seventeen commands, and finishes the file.
const SINK_CALLS: u64 = 21;

// The same image, opened anew, where nothing fails.
fn again(rack: &mut MemRack) -> Result<(), Fail> {
    rack.close_all();
    rack.open("a", false)?;
    Ok(())
}

fn sent(rt: &impl Abort, alloc: Global, failing: Failing) -> Result<Outcome, Fail> {
    let mut rack = small(alloc, RowVolume::V1, &["a"])?;
    sent_from(rt, alloc, 5, &mut rack, failing)
}

// How many bytes of the stream stand there where the nth call of the sink fails: none before the header was put, and then some whole commands.
const BYTES_BEFORE: [usize; 21] = [
    0, 0, 0, 17, 64, 79, 106, 121, 153, 180, 196, 233, 261, 277, 314, 342, 357, 4484, 6323, 6350,
    6360,
];

#[test]
fn each_call_of_the_sink(rt: HostRuntime) -> Result<(), Fail> {
    let all = sent(&rt, rt.alloc(), NOTHING)?;
    let mut failing = NOTHING;
    for bytes in BYTES_BEFORE {
        failing.sink = failing.sink.wrapping_add(1);
        let some = sent(&rt, rt.alloc(), failing)?;
        assert_eq!(rt; some.answer, Err(Stop::Sink));
        assert!(rt; some.whole.is_empty() && some.text.is_empty());
        assert_eq!(rt; some.part.len(), bytes);
        assert!(rt; all.whole.starts_with(&some.part));
    }
    Ok(())
}

// The stream is whole before the line of the counts; what waits is stored before the answer, which may fail too.
#[test]
fn each_call_of_the_output(rt: HostRuntime) -> Result<(), Fail> {
    let all = sent(&rt, rt.alloc(), NOTHING)?;
    for (sink, out, answer) in [
        (0, 1, Err(Stop::Out)),
        (SINK_CALLS + 1, 1, Err(Stop::Sink)),
        (0, 2, all.answer),
    ] {
        let some = sent(&rt, rt.alloc(), Failing { sink, out })?;
        assert_eq!(rt; some.answer, answer);
        assert!(rt; some.whole.as_slice() == all.whole.as_slice() && some.part.is_empty());
    }
    Ok(())
}

// Each call of the rack fails in its turn: the run ends as one that could not read a block, or as it does where nothing fails.
#[test]
fn calls_of_the_rack(rt: HostRuntime) -> Result<(), Fail> {
    let mut rack = small(rt.alloc(), RowVolume::V1, &["a"])?;
    let all = sent_from(&rt, rt.alloc(), 5, &mut rack, NOTHING)?;
    let mut unread = false;
    for call in 1..=40 {
        again(&mut rack)?;
        rack.fail_call(call)?;
        let Some(some) = attempt(&rt, rt.alloc(), 5, &mut rack, NOTHING)? else {
            continue;
        };
        match some.answer {
            Err(Stop::Tree(TreeFault::Unread(_, _))) => unread = true,
            answer => assert!(rt; answer == all.answer),
        }
        assert!(rt; all.whole.starts_with(&some.part));
    }
    assert!(rt; unread);
    Ok(())
}
