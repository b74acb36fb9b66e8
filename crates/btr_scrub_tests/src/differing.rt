// Copies that pass and differ: each has to be the bytes of the first.
use super::damage::{CLEAN, expect_same, expect_tally, turn};
use super::shapes::{Made, build};
use btr_make::{RowVolume, seal};
use btr_rack::MemRack;
use btr_scrub::Tally;
use std::alloc::Global;
use std::process::Abort;
use std::test::Fail;

const NODE: u64 = 16384;

// A byte of a leaf that no item holds.
const UNUSED: u64 = 5000;

// A leaf of files, and its second copy where both stand on one image.
const LEAF: u64 = 2146304;

const SECOND_LEAF: u64 = 6340608;

const DUP: Made = Made::Row(RowVolume::V1d);

const RAID1: Made = Made::Row(RowVolume::M1);

// A volume in which a copy of the leaf is other bytes that pass, how many copies are bad by that, and which are those bytes behind a scrub.
struct Differing {
    volume: Made,
    changed: &'static [(&'static str, u64)],
    bad: u64,
    kept: &'static [(&'static str, u64)],
}

const DIFFERING: [Differing; 4] = [
    Differing {
        volume: DUP,
        changed: &[("a", SECOND_LEAF)],
        bad: 1,
        kept: &[],
    },
    Differing {
        volume: DUP,
        changed: &[("a", LEAF)],
        bad: 1,
        kept: &[("a", LEAF), ("a", SECOND_LEAF)],
    },
    Differing {
        volume: RAID1,
        changed: &[("b", LEAF)],
        bad: 1,
        kept: &[],
    },
    Differing {
        volume: RAID1,
        changed: &[("a", LEAF)],
        bad: 1,
        kept: &[("a", LEAF), ("b", LEAF)],
    },
];

// A volume with other bytes in copies of the leaf, each of which is sealed again.
fn with_other(alloc: Global, volume: Made, leaves: &[(&str, u64)]) -> Result<MemRack, Fail> {
    let mut rack = build(alloc, volume)?;
    for (name, leaf) in leaves {
        turn(&mut rack, &[(*name, leaf.wrapping_add(UNUSED))])?;
        seal(&mut rack, name, *leaf, NODE)?;
    }
    Ok(rack)
}

// Scrubs a volume whose copies differ: only reading, writing, and again.
fn evens(rt: &impl Abort, alloc: Global, case: &Differing) -> Result<(), Fail> {
    let volume = case.volume;
    let mut rack = with_other(alloc, volume, case.changed)?;
    let found = Tally {
        bad: case.bad,
        ..CLEAN
    };
    expect_tally(rt, alloc, false, volume, &mut rack, Some(found))?;
    expect_same(rt, volume, &with_other(alloc, volume, case.changed)?, &rack);
    let mended = Tally {
        repaired: case.bad,
        ..found
    };
    expect_tally(rt, alloc, true, volume, &mut rack, Some(mended))?;
    expect_tally(rt, alloc, true, volume, &mut rack, Some(CLEAN))?;
    expect_same(rt, volume, &with_other(alloc, volume, case.kept)?, &rack);
    Ok(())
}

#[test]
fn copies_that_differ(rt: HostRuntime) -> Result<(), Fail> {
    for case in &DIFFERING {
        evens(&rt, rt.alloc(), case)?;
    }
    Ok(())
}
