// Salvages in which something of the outside fails: all that was done before stands, and nothing is told that isn't so.
use super::memory::{Failing, NOTHING, Outcome, attempt, salvaged_from, small};
use btr_make::RowVolume;
use btr_rack::{MemRack, Rack};
use btr_volume::Stop;
use btr_walk::TreeFault;
use std::test::Fail;

// The images of the volume with a lost sector.
const NAMES: &[&str] = &["b"];

// The same images, opened anew, where nothing fails.
fn again(rack: &mut MemRack) -> Result<(), Fail> {
    rack.close_all();
    for name in NAMES {
        rack.open(name, false)?;
    }
    Ok(())
}

// Whether what was done is the first part of what is done where nothing fails.
fn is_part(some: &Outcome, all: &Outcome) -> bool {
    all.rows.as_slice().starts_with(some.rows.as_slice())
        && all.text.as_slice().starts_with(some.text.as_slice())
}

// Each call of the sink and of the output fails in its turn: that is the answer. The thirteenth of the sink and the third of the output don't come.
#[test]
fn calls_of_the_sink_and_the_output(rt: HostRuntime) -> Result<(), Fail> {
    let mut rack = small(rt.alloc(), RowVolume::Raid5, NAMES)?;
    let all = salvaged_from(&rt, rt.alloc(), &mut rack, NOTHING)?;
    for n in 1..=13 {
        let answer = if n == 13 { all.answer } else { Err(Stop::Sink) };
        again(&mut rack)?;
        let some = salvaged_from(&rt, rt.alloc(), &mut rack, Failing { sink: n, out: 0 })?;
        assert!(rt; some.answer == answer && is_part(&some, &all));
    }
    for n in 1..=3 {
        let answer = if n == 3 { all.answer } else { Err(Stop::Out) };
        again(&mut rack)?;
        let some = salvaged_from(&rt, rt.alloc(), &mut rack, Failing { sink: 0, out: n })?;
        assert!(rt; some.answer == answer && is_part(&some, &all));
    }
    Ok(())
}

// Each call of the rack fails in its turn: the run ends as one that could not read a block, or as it does where nothing fails, as behind the last call.
#[test]
fn calls_of_the_rack(rt: HostRuntime) -> Result<(), Fail> {
    let mut rack = small(rt.alloc(), RowVolume::Raid5, NAMES)?;
    let all = salvaged_from(&rt, rt.alloc(), &mut rack, NOTHING)?;
    let mut unread = false;
    for call in 1..=48 {
        again(&mut rack)?;
        rack.fail_call(call)?;
        let Some(some) = attempt(&rt, rt.alloc(), false, &mut rack, NOTHING)? else {
            continue;
        };
        assert!(rt; is_part(&some, &all));
        match some.answer {
            Err(Stop::Tree(TreeFault::Unread(_, _))) => unread = true,
            answer => assert!(rt; answer == all.answer),
        }
    }
    assert!(rt; unread);
    Ok(())
}
