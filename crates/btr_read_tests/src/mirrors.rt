// One mirror of a block by itself.
ghost use Rattle.std.specs.Prelude.{◌≡◌, IsTrue, IsOkAnd};
ghost use Rattle.btr_read.specs.Fate.{sought};
ghost use Rattle.btr_read.specs.declared.setting.Setting.{Setting};
ghost use Rattle.btr_read.specs.Want.{len_of};
ghost use Rattle.btr_read.specs.Mirror.{HasMirror};

use crate::given::{Given, be_idle, had, ready, store_without};
use crate::profiles::want_of;
use crate::shape::{RAID0, RAID1C4, RAID10, Shape, place_of};
use crate::volume::{damage, images, name_of, open};
use btr_chunk::elements;
use btr_rack::MemRack;
use btr_read::{Store, Tried, TryFault, Want, try_mirror};
use std::alloc::Global;
use std::process::Abort;
use std::test::Fail;

// What came of a mirror, whose loan is given back.
#[derive(Clone, Copy, Debug, PartialEq, Eq)]
enum Outcome {
    Passed,
    Differs,
    Absent,
    Failed(usize),
}

// Whether a want has 4096 bytes, whatever a node has.
fn is_data(want: &Want) -> bool
    ensures { IsTrue result → (setting : Setting) → len_of setting want.now ≡ 4096 }
{
    match want {
        Want::Sector { .. } | Want::Plain { .. } => true,
        Want::Tree { .. } | Want::Block { .. } => false,
    }
}

// Whether a want of 4096 bytes has this mirror.
fn has_mirror(want: &Want, mirror: u32, store: &Store) -> bool
    ensures { IsTrue result → IsOkAnd (sought store.now.layout want.now) (HasMirror mirror) }
{
    let addr = want.addr();
    if !is_data(want) {
        return false;
    }
    let Some(chunk) = store.chunks().find(addr) else {
        return false;
    };
    let Ok(_) = elements(chunk, addr, 4096) else {
        return false;
    };
    match chunk.mirrors() {
        Some(mirrors) => mirror < mirrors,
        None => false,
    }
}

// Tries a mirror, where there is one, and asserts that the loan has these bytes where it passes.
fn tried(
    rt: &impl Abort,
    want: &Want,
    mirror: u32,
    rack: &mut MemRack,
    given: &mut Given,
    bytes: &[u8],
) -> Outcome {
    ready(rt, rack, given);
    assert!(rt; has_mirror(want, mirror, &given.store));
    match try_mirror(want, mirror, rack, &mut given.store) {
        Ok(Tried::Passed(loan)) => {
            assert!(rt; had(given, loan, bytes));
            Outcome::Passed
        }
        Ok(Tried::Differs) => Outcome::Differs,
        Ok(Tried::Absent) => Outcome::Absent,
        Err(TryFault::Failed(slot)) => Outcome::Failed(slot),
    }
}

// What comes of a mirror; no loan is live before and behind.
fn outcome_of(
    rt: &impl Abort,
    want: &Want,
    mirror: u32,
    rack: &mut MemRack,
    given: &mut Given,
    bytes: &[u8],
) -> Outcome {
    be_idle(rt, given);
    let outcome = tried(rt, want, mirror, rack, given, bytes);
    be_idle(rt, given);
    outcome
}

// The open images of a shape, where stripe 1 is damaged and reads of stripe 3 fail.
fn harmed_images(alloc: Global, shape: &Shape) -> Result<MemRack, Fail> {
    let mut rack = images(alloc, shape)?;
    damage(&mut rack, shape, 0b0010)?;
    open(&mut rack, shape)?;
    rack.fail_range(name_of(3), place_of(1, 3), 1)?;
    Ok(rack)
}

// Tries a mirror of a slice of row 1, where stripe 1 is damaged, stripe 2 isn't given, and reads of stripe 3 fail.
fn try_harmed(
    rt: &impl Abort,
    alloc: Global,
    shape: &Shape,
    slice: u64,
    mirror: u32,
) -> Result<Outcome, Fail> {
    let mut rack = harmed_images(alloc, shape)?;
    let mut given = store_without(rt, alloc, &rack, shape, 0b0100)?;
    let bytes = shape.slice(1, slice);
    let want = want_of(shape, 1, slice, &bytes);
    Ok(outcome_of(rt, &want, mirror, &mut rack, &mut given, &bytes))
}

// Tries mirrors of slices: what comes of each. The image of stripe 3 is open in slot 0.
fn try_each(
    rt: &impl Abort,
    alloc: Global,
    shape: &Shape,
    rows: &[(u64, u32, Outcome)],
) -> Result<(), Fail> {
    for (slice, mirror, outcome) in rows {
        let found = try_harmed(rt, alloc, shape, *slice, *mirror)?;
        assert_eq!(rt; found, *outcome);
    }
    Ok(())
}

#[test]
fn each_mirror_is_tried(rt: HostRuntime) -> Result<(), Fail> {
    let copies = [
        (0, 0, Outcome::Passed),
        (0, 1, Outcome::Differs),
        (0, 2, Outcome::Absent),
        (0, 3, Outcome::Failed(0)),
    ];
    try_each(&rt, rt.alloc(), &RAID1C4, &copies)?;
    let pairs = [
        (0, 0, Outcome::Passed),
        (0, 1, Outcome::Differs),
        (1, 0, Outcome::Absent),
        (1, 1, Outcome::Failed(0)),
    ];
    try_each(&rt, rt.alloc(), &RAID10, &pairs)?;
    try_each(&rt, rt.alloc(), &RAID0, &[(1, 0, Outcome::Differs)])
}

// The open images of copies, of which the first ends `short` bytes before the end of the data in row 1.
fn cut_images(rt: &impl Abort, alloc: Global, short: u64) -> Result<MemRack, Fail> {
    let mut rack = images(alloc, &RAID1C4)?;
    let end = place_of(1, 0).wrapping_add(4096);
    assert!(rt; rack.cut(name_of(0), end.wrapping_sub(short)));
    open(&mut rack, &RAID1C4)?;
    Ok(rack)
}

// Tries the first mirror of row 1, whose image ends `short` bytes before the end of the data.
fn try_cut(rt: &impl Abort, alloc: Global, short: u64) -> Result<Outcome, Fail> {
    let mut rack = cut_images(rt, alloc, short)?;
    let mut given = store_without(rt, alloc, &rack, &RAID1C4, 0)?;
    let bytes = RAID1C4.slice(1, 0);
    let want = Want::Plain {
        addr: RAID1C4.addr(1, 0),
    };
    Ok(outcome_of(rt, &want, 0, &mut rack, &mut given, &bytes))
}

#[test]
fn a_mirror_is_cut_short(rt: HostRuntime) -> Result<(), Fail> {
    assert_eq!(rt; try_cut(&rt, rt.alloc(), 0)?, Outcome::Passed);
    assert_eq!(rt; try_cut(&rt, rt.alloc(), 1)?, Outcome::Absent);
    Ok(())
}
