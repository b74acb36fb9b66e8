// Full stripes in which blocks or sectors of the parities are wrong, and volumes that are spoiled.
use super::damage::{CLEAN, Damage, expect_same, expect_tally, mends};
use super::shapes::{Made, build};
use btr_make::{RowVolume, spoil};
use btr_rack::MemRack;
use btr_scrub::Tally;
use std::alloc::Global;
use std::process::Abort;
use std::test::Fail;

const DAMAGES: [Damage; 10] = [
    // A byte of P.
    Damage {
        volume: Made::Row(RowVolume::Raid5),
        mended: &[("c", 10485760)],
        left: &[],
        tally: Tally { parity: 1, ..CLEAN },
    },
    // A sector of data is lost, and its column's P is left; so is P where nothing is checked.
    Damage {
        volume: Made::Row(RowVolume::Raid5),
        mended: &[("c", 10489856)],
        left: &[("a", 10485760), ("c", 10485760), ("c", 10506240)],
        tally: Tally {
            bad: 1,
            lost: 1,
            parity: 1,
            ..CLEAN
        },
    },
    // The same with Q; the other sector is made right by P, and its column's Q behind it.
    Damage {
        volume: Made::Row(RowVolume::Raid6),
        mended: &[("a", 10489861), ("d", 10489861)],
        left: &[("a", 10485760), ("c", 10485760), ("d", 10485760)],
        tally: Tally {
            bad: 2,
            repaired: 1,
            lost: 1,
            parity: 1,
            ..CLEAN
        },
    },
    // A tree block is lost, and P is left in each column that it meets.
    Damage {
        volume: Made::Row(RowVolume::Rows5),
        mended: &[("c", 2097152)],
        left: &[("a", 2146404), ("c", 2150500), ("c", 2162687)],
        tally: Tally {
            blocks: 222,
            bad: 1,
            lost: 1,
            parity: 1,
            ..CLEAN
        },
    },
    // A tree block in one of many rows, all others of which are sound; and nothing but a parity in one.
    Damage {
        volume: Made::Row(RowVolume::Rows5),
        mended: &[("a", 2146404)],
        left: &[],
        tally: Tally {
            blocks: 222,
            bad: 1,
            repaired: 1,
            ..CLEAN
        },
    },
    Damage {
        volume: Made::Row(RowVolume::Rows5),
        mended: &[("c", 2097152)],
        left: &[],
        tally: Tally {
            blocks: 222,
            parity: 1,
            ..CLEAN
        },
    },
    // A sector beside two parities; and nothing but one of them.
    Damage {
        volume: Made::Row(RowVolume::Raid6),
        mended: &[("a", 10489861)],
        left: &[],
        tally: Tally {
            bad: 1,
            repaired: 1,
            ..CLEAN
        },
    },
    Damage {
        volume: Made::Row(RowVolume::Raid6),
        mended: &[("d", 10489861)],
        left: &[],
        tally: Tally { parity: 1, ..CLEAN },
    },
    // Of two sectors of data one has no checksum, and is left, with its column's P.
    Damage {
        volume: Made::HalfSummed,
        mended: &[("a", 10489856)],
        left: &[("a", 10485760), ("c", 10485760)],
        tally: Tally {
            blocks: 7,
            bad: 1,
            repaired: 1,
            unchecked: 1,
            ..CLEAN
        },
    },
    // A superblock lies in a slice: it is left, with its column's P.
    Damage {
        volume: Made::BesideSuper,
        mended: &[("a", 57353), ("c", 10489856)],
        left: &[("c", 10493952)],
        tally: Tally {
            bad: 1,
            repaired: 1,
            parity: 1,
            ..CLEAN
        },
    },
];

// The counts where fifteen sectors more have no checksum.
const UNSUMMED: Tally = Tally {
    unchecked: 15,
    ..CLEAN
};

// Parity beside sectors without a checksum.
const BESIDE: [Damage; 10] = [
    // P is left there, and made right in the next column, where there is none.
    Damage {
        volume: Made::Unsummed5(""),
        mended: &[("c", 10489856)],
        left: &[("c", 10485760)],
        tally: Tally {
            parity: 1,
            ..UNSUMMED
        },
    },
    // It is made right where an image is older, but not the sector's own.
    Damage {
        volume: Made::Unsummed5("a"),
        mended: &[("c", 10485760), ("c", 10489856)],
        left: &[],
        tally: Tally {
            parity: 2,
            ..UNSUMMED
        },
    },
    Damage {
        volume: Made::Unsummed5("b"),
        mended: &[("c", 10489856)],
        left: &[("c", 10485760)],
        tally: Tally {
            parity: 1,
            ..UNSUMMED
        },
    },
    // The same with Q.
    Damage {
        volume: Made::Unsummed6(""),
        mended: &[("c", 10489856), ("d", 10489856)],
        left: &[("c", 10485760), ("d", 10485760)],
        tally: Tally {
            parity: 2,
            ..UNSUMMED
        },
    },
    Damage {
        volume: Made::Unsummed6("a"),
        mended: &[
            ("c", 10485760),
            ("d", 10485760),
            ("c", 10489856),
            ("d", 10489856),
        ],
        left: &[],
        tally: Tally {
            parity: 4,
            ..UNSUMMED
        },
    },
    Damage {
        volume: Made::Unsummed6("b"),
        mended: &[("c", 10489856), ("d", 10489856)],
        left: &[("c", 10485760), ("d", 10485760)],
        tally: Tally {
            parity: 2,
            ..UNSUMMED
        },
    },
    // P is made right where a copy of the leaf of the checksum tree is damaged on an image, but not on the sector's own.
    Damage {
        volume: Made::Unsummed5(""),
        mended: &[("a", 2162788), ("c", 10485760), ("c", 10489856)],
        left: &[],
        tally: Tally {
            bad: 1,
            repaired: 1,
            parity: 2,
            ..UNSUMMED
        },
    },
    Damage {
        volume: Made::Unsummed5(""),
        mended: &[("b", 2162788), ("c", 10489856)],
        left: &[("c", 10485760)],
        tally: Tally {
            bad: 1,
            repaired: 1,
            parity: 1,
            ..UNSUMMED
        },
    },
    // The same with Q.
    Damage {
        volume: Made::Unsummed6(""),
        mended: &[
            ("a", 2162788),
            ("c", 10485760),
            ("d", 10485760),
            ("c", 10489856),
            ("d", 10489856),
        ],
        left: &[],
        tally: Tally {
            bad: 1,
            repaired: 1,
            parity: 4,
            ..UNSUMMED
        },
    },
    Damage {
        volume: Made::Unsummed6(""),
        mended: &[("b", 2162788), ("c", 10489856), ("d", 10489856)],
        left: &[("c", 10485760), ("d", 10485760)],
        tally: Tally {
            bad: 1,
            repaired: 1,
            parity: 2,
            ..UNSUMMED
        },
    },
];

#[test]
fn parity_beside_sectors_without_a_checksum(rt: HostRuntime) -> Result<(), Fail> {
    for damage in &BESIDE {
        mends(&rt, rt.alloc(), damage)?;
    }
    Ok(())
}

#[test]
fn full_stripes(rt: HostRuntime) -> Result<(), Fail> {
    for damage in &DAMAGES {
        mends(&rt, rt.alloc(), damage)?;
    }
    Ok(())
}

// A copy that lies over the superblock is one like another: it is written, and the filesystem is found no more.
#[test]
fn a_copy_over_the_superblock(rt: HostRuntime) -> Result<(), Fail> {
    let alloc = rt.alloc();
    let over = Made::OverSuper;
    let one = Tally { bad: 1, ..CLEAN };
    let written = Tally { repaired: 1, ..one };
    let mut rack = build(alloc, over)?;
    expect_tally(&rt, alloc, false, over, &mut rack, Some(one))?;
    expect_same(&rt, over, &build(alloc, over)?, &rack);
    expect_tally(&rt, alloc, true, over, &mut rack, Some(written))?;
    assert!(rt; rack.page("a", 16) == rack.page("a", 528));
    expect_tally(&rt, alloc, true, over, &mut rack, None)
}

// Scrubs the volume of ten directories, in which nothing is wrong behind it.
fn scrub_many(
    rt: &impl Abort,
    alloc: Global,
    rack: &mut MemRack,
    tally: Tally,
) -> Result<(), Fail> {
    expect_tally(rt, alloc, true, Made::Directories, rack, Some(tally))?;
    expect_same(
        rt,
        Made::Directories,
        &build(alloc, Made::Directories)?,
        rack,
    );
    Ok(())
}

#[test]
fn many_files_of_a_spoiled_image(rt: HostRuntime) -> Result<(), Fail> {
    let clean = Tally {
        blocks: 96,
        ..CLEAN
    };
    let mended = Tally {
        bad: 32,
        repaired: 32,
        parity: 16,
        ..clean
    };
    let mut rack = build(rt.alloc(), Made::Directories)?;
    scrub_many(&rt, rt.alloc(), &mut rack, clean)?;
    spoil(&mut rack, "a")?;
    scrub_many(&rt, rt.alloc(), &mut rack, mended)
}
