// Blocks with copies: one of each profile.
use super::damage::{CLEAN, Damage, mends};
use super::shapes::Made;
use btr_make::RowVolume;
use btr_scrub::Tally;
use std::test::Fail;

// A byte of a leaf of files, and one of a sector of data.
const LEAF: u64 = 2146404;

const SECOND_LEAF: u64 = 6340708;

const DATA: u64 = 10485760;

const NEXT_DATA: u64 = 10489856;

const SINGLE: Made = Made::Row(RowVolume::V1);

const DUP: Made = Made::Row(RowVolume::V1d);

const RAID1: Made = Made::Row(RowVolume::M1);

const RAID1C3: Made = Made::Row(RowVolume::M3);

// A volume, and bytes of copies of blocks.
type Copies = (Made, &'static [(&'static str, u64)]);

const MENDED: [Copies; 7] = [
    (DUP, &[("a", LEAF)]),
    (DUP, &[("a", SECOND_LEAF)]),
    (RAID1, &[("a", LEAF)]),
    (RAID1, &[("b", LEAF)]),
    (RAID1C3, &[("a", LEAF), ("c", LEAF)]),
    (Made::Raid10, &[("a", NEXT_DATA), ("b", DATA)]),
    (Made::Raid1c4, &[("a", DATA), ("b", DATA), ("d", DATA)]),
];

// Each of one block, all of whose copies are bad.
const LOST: [Copies; 8] = [
    (SINGLE, &[("a", LEAF)]),
    (SINGLE, &[("a", DATA)]),
    (DUP, &[("a", LEAF), ("a", SECOND_LEAF)]),
    (RAID1, &[("a", LEAF), ("b", LEAF)]),
    (RAID1C3, &[("a", LEAF), ("b", LEAF), ("c", LEAF)]),
    (Made::Raid0, &[("a", DATA)]),
    (Made::Raid10, &[("a", DATA), ("b", DATA)]),
    (
        Made::Raid1c4,
        &[("a", DATA), ("b", DATA), ("c", DATA), ("d", DATA)],
    ),
];

// A byte of a sector of data that has no checksum, and one of the leaf of the checksum tree.
const PLAIN: u64 = 10493952;

const SUMS_LEAF: u64 = 2162788;

// The counts where fifteen sectors more have no checksum.
const UNSUMMED: Tally = Tally {
    unchecked: 15,
    ..CLEAN
};

// Copies of sectors without a checksum that differ.
const STALE: [Damage; 6] = [
    // They are made right on an image that is older, and on which a block doesn't pass.
    Damage {
        volume: Made::UnsummedRaid10("b"),
        mended: &[("b", SUMS_LEAF), ("b", PLAIN)],
        left: &[],
        tally: Tally {
            bad: 2,
            repaired: 2,
            ..UNSUMMED
        },
    },
    Damage {
        volume: Made::UnsummedRaid10("a"),
        mended: &[("a", SUMS_LEAF), ("a", PLAIN)],
        left: &[],
        tally: Tally {
            bad: 2,
            repaired: 2,
            ..UNSUMMED
        },
    },
    // Not where all blocks pass on it.
    Damage {
        volume: Made::UnsummedRaid10("b"),
        mended: &[],
        left: &[("b", PLAIN)],
        tally: UNSUMMED,
    },
    // Nor where it isn't older.
    Damage {
        volume: Made::UnsummedRaid10(""),
        mended: &[("b", SUMS_LEAF)],
        left: &[("b", PLAIN)],
        tally: Tally {
            bad: 1,
            repaired: 1,
            ..UNSUMMED
        },
    },
    // Nor from an image on which a block doesn't pass.
    Damage {
        volume: Made::UnsummedRaid10("b"),
        mended: &[("b", SUMS_LEAF), ("a", LEAF)],
        left: &[("b", PLAIN)],
        tally: Tally {
            bad: 2,
            repaired: 2,
            ..UNSUMMED
        },
    },
    // Of four copies those on such images alone.
    Damage {
        volume: Made::UnsummedRaid1c4("c"),
        mended: &[("c", DATA), ("c", PLAIN)],
        left: &[("d", PLAIN)],
        tally: Tally {
            bad: 2,
            repaired: 2,
            ..UNSUMMED
        },
    },
];

#[test]
fn copies_that_are_stale(rt: HostRuntime) -> Result<(), Fail> {
    for damage in &STALE {
        mends(&rt, rt.alloc(), damage)?;
    }
    Ok(())
}

#[test]
fn copies_that_are_mended(rt: HostRuntime) -> Result<(), Fail> {
    for (volume, places) in &MENDED {
        let copies = places.len() as u64;
        let damage = Damage {
            volume: *volume,
            mended: *places,
            left: &[],
            tally: Tally {
                bad: copies,
                repaired: copies,
                ..CLEAN
            },
        };
        mends(&rt, rt.alloc(), &damage)?;
    }
    Ok(())
}

#[test]
fn copies_that_are_lost(rt: HostRuntime) -> Result<(), Fail> {
    for (volume, places) in &LOST {
        let damage = Damage {
            volume: *volume,
            mended: &[],
            left: *places,
            tally: Tally {
                bad: places.len() as u64,
                lost: 1,
                ..CLEAN
            },
        };
        mends(&rt, rt.alloc(), &damage)?;
    }
    Ok(())
}
