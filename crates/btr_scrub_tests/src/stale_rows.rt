// Full stripes with sectors without a checksum, some of them on images that are older: they are brought up to date where a block doesn't pass on theirs.
use super::damage::{CLEAN, Damage, damaged, mends, scrub_images};
use super::shapes::Made;
use btr_rack::MemRack;
use btr_scrub::Tally;
use std::alloc::Global;
use std::process::Abort;
use std::test::Fail;

// A byte of the leaf of the checksum tree, and one of a leaf of files: copies of both stand on the images of the slices.
const SUMS: u64 = 2162788;

const LEAF: u64 = 2146404;

// Columns of the full stripe: the first sector of the first slice has a checksum, and so has its second; all others have none.
const FIRST: u64 = 10485760;

const SECOND: u64 = 10489856;

const THIRD: u64 = 10493952;

const FOURTH: u64 = 10498048;

// The counts where this many sectors have no checksum.
const UNSUMMED: Tally = Tally {
    unchecked: 15,
    ..CLEAN
};

const FILLED: Tally = Tally {
    unchecked: 30,
    ..CLEAN
};

// Sectors that are stale, in RAID5.
const BY_P: [Damage; 9] = [
    // Beside a checked block, where P follows the new data.
    Damage {
        volume: Made::Unsummed5("b"),
        mended: &[("b", SUMS), ("b", FIRST)],
        left: &[],
        tally: Tally {
            bad: 2,
            repaired: 2,
            ..UNSUMMED
        },
    },
    // Where P follows the old data, the sector is what P says.
    Damage {
        volume: Made::Unsummed5("b"),
        mended: &[("b", SUMS)],
        left: &[("b", FIRST), ("c", FIRST)],
        tally: Tally {
            bad: 1,
            repaired: 1,
            ..UNSUMMED
        },
    },
    // In columns of which no block is checked.
    Damage {
        volume: Made::Unsummed5("a"),
        mended: &[("a", SUMS), ("a", THIRD), ("a", FOURTH)],
        left: &[],
        tally: Tally {
            bad: 3,
            repaired: 3,
            ..UNSUMMED
        },
    },
    // Not where all blocks pass on the image, nor is P written then.
    Damage {
        volume: Made::Unsummed5("b"),
        mended: &[],
        left: &[("b", FIRST)],
        tally: UNSUMMED,
    },
    // Nor where the image isn't older.
    Damage {
        volume: Made::Unsummed5(""),
        mended: &[("b", SUMS)],
        left: &[("b", FIRST)],
        tally: Tally {
            bad: 1,
            repaired: 1,
            ..UNSUMMED
        },
    },
    // Of two in a column the one on such an image.
    Damage {
        volume: Made::Filled5(&["a"]),
        mended: &[("a", SUMS), ("a", THIRD)],
        left: &[],
        tally: Tally {
            bad: 2,
            repaired: 2,
            ..FILLED
        },
    },
    // Not where the other one's image is in doubt too.
    Damage {
        volume: Made::Filled5(&["a"]),
        mended: &[("a", SUMS), ("b", LEAF)],
        left: &[("a", THIRD)],
        tally: Tally {
            bad: 2,
            repaired: 2,
            ..FILLED
        },
    },
    Damage {
        volume: Made::Filled5(&["a", "b"]),
        mended: &[("a", SUMS)],
        left: &[("a", THIRD)],
        tally: Tally {
            bad: 1,
            repaired: 1,
            ..FILLED
        },
    },
    // Nor from a checked block that isn't right: neither is made right then, and P is left.
    Damage {
        volume: Made::Unsummed5("b"),
        mended: &[("b", SUMS)],
        left: &[("a", FIRST), ("b", FIRST)],
        tally: Tally {
            bad: 2,
            repaired: 1,
            lost: 1,
            ..UNSUMMED
        },
    },
];

// The same in RAID6.
const BY_BOTH: [Damage; 8] = [
    // Beside a checked block; Q follows behind it.
    Damage {
        volume: Made::Unsummed6("b"),
        mended: &[("b", SUMS), ("b", FIRST)],
        left: &[],
        tally: Tally {
            bad: 2,
            repaired: 2,
            ..UNSUMMED
        },
    },
    Damage {
        volume: Made::Unsummed6("b"),
        mended: &[("b", SUMS), ("b", FIRST), ("d", FIRST)],
        left: &[],
        tally: Tally {
            bad: 2,
            repaired: 2,
            parity: 1,
            ..UNSUMMED
        },
    },
    // In columns of which no block is checked; Q follows there too, as the image is in doubt.
    Damage {
        volume: Made::Unsummed6("a"),
        mended: &[("a", SUMS), ("a", THIRD), ("a", FOURTH), ("d", FOURTH)],
        left: &[],
        tally: Tally {
            bad: 3,
            repaired: 3,
            parity: 1,
            ..UNSUMMED
        },
    },
    // Where P was right by the sector as it was, it is that.
    Damage {
        volume: Made::Unsummed6("b"),
        mended: &[("b", SUMS)],
        left: &[("b", FIRST), ("c", FIRST), ("d", FIRST)],
        tally: Tally {
            bad: 1,
            repaired: 1,
            ..UNSUMMED
        },
    },
    // Two in a column, by both parities.
    Damage {
        volume: Made::Filled6(&["a", "b"]),
        mended: &[("a", SUMS), ("b", LEAF), ("a", THIRD), ("b", THIRD)],
        left: &[],
        tally: Tally {
            bad: 4,
            repaired: 4,
            ..FILLED
        },
    },
    // One of them, where the other's image is older too and all blocks pass on it.
    Damage {
        volume: Made::Filled6(&["a", "b"]),
        mended: &[("a", SUMS), ("a", THIRD)],
        left: &[],
        tally: Tally {
            bad: 2,
            repaired: 2,
            ..FILLED
        },
    },
    // Beside a checked block that isn't right: both are made right.
    Damage {
        volume: Made::Unsummed6("b"),
        mended: &[("b", SUMS), ("a", FIRST), ("b", FIRST)],
        left: &[],
        tally: Tally {
            bad: 3,
            repaired: 3,
            ..UNSUMMED
        },
    },
    // No parity is written over a sector in doubt that gets nothing.
    Damage {
        volume: Made::Unsummed6("b"),
        mended: &[("d", SECOND)],
        left: &[("b", FIRST)],
        tally: Tally {
            parity: 1,
            ..UNSUMMED
        },
    },
];

#[test]
fn sectors_that_are_stale_by_p(rt: HostRuntime) -> Result<(), Fail> {
    for damage in &BY_P {
        mends(&rt, rt.alloc(), damage)?;
    }
    Ok(())
}

#[test]
fn sectors_that_are_stale_by_both_parities(rt: HostRuntime) -> Result<(), Fail> {
    for damage in &BY_BOTH {
        mends(&rt, rt.alloc(), damage)?;
    }
    Ok(())
}

// The page of the first column.
const PAGE: u64 = 2560;

// A checked block that isn't right and a sector of its column that is stale: both are rebuilt by both parities.
const TORN: Damage = Damage {
    volume: Made::Unsummed6("b"),
    mended: &[("b", SUMS), ("a", FIRST), ("b", FIRST)],
    left: &[],
    tally: Tally {
        bad: 3,
        repaired: 3,
        ..UNSUMMED
    },
};

// A sector that is stale beside a checked block, and Q of their column, which is written behind it.
const BEHIND: Damage = Damage {
    volume: Made::Unsummed6("b"),
    mended: &[("b", SUMS), ("b", FIRST), ("d", FIRST)],
    left: &[],
    tally: Tally {
        bad: 2,
        repaired: 2,
        parity: 1,
        ..UNSUMMED
    },
};

// Whether the sector of an image in the first column is the same in two racks.
fn is_as_in(one: &MemRack, rack: &MemRack, name: &str) -> bool {
    one.page(name, PAGE) == rack.page(name, PAGE)
}

// Scrubs a damaged volume, where a write fails and fills its range with a byte. It is true where the scrub came to its end.
fn torn_at(
    rt: &impl Abort,
    alloc: Global,
    damage: &Damage,
    rack: &mut MemRack,
    n: u64,
) -> Result<bool, Fail> {
    rack.tear(165);
    rack.fail_write(n)?;
    let told = scrub_images(rt, alloc, true, rack, damage.volume.names())?;
    Ok(told.is_some())
}

// How many checked blocks are lost then, if that can be told.
fn lost_then(
    rt: &impl Abort,
    alloc: Global,
    damage: &Damage,
    rack: &mut MemRack,
) -> Result<Option<u64>, Fail> {
    match scrub_images(rt, alloc, true, rack, damage.volume.names())? {
        Some(tally) => Ok(Some(tally.lost)),
        None => Ok(None),
    }
}

// A volume as it is damaged, and as it is right.
#[derive(Drop)]
struct Volumes {
    was: MemRack,
    right: MemRack,
}

// A write of a scrub is torn. No checked block is lost then, and no parity was written before the sector that it follows. It is true where none was
// torn.
fn tears(
    rt: &impl Abort,
    alloc: Global,
    damage: &Damage,
    volumes: &Volumes,
    n: u64,
) -> Result<bool, Fail> {
    let mut rack = damaged(alloc, damage, false)?;
    let is_whole = torn_at(rt, alloc, damage, &mut rack, n)?;
    assert!(rt;
        is_as_in(&volumes.was, &rack, "d") || is_as_in(&volumes.right, &rack, "b"),
        "{n}"
    );
    assert_eq!(rt; lost_then(rt, alloc, damage, &mut rack)?, Some(0), "{n}");
    assert!(rt; is_as_in(&volumes.right, &rack, "a"), "{n}");
    Ok(is_whole)
}

// More writes than a scrub of the volume makes.
const WRITES: u64 = 5;

// Tears each write of a scrub in turn, and counts those that are.
fn torn_writes(rt: &impl Abort, alloc: Global, damage: &Damage) -> Result<u64, Fail> {
    let volumes = Volumes {
        was: damaged(alloc, damage, false)?,
        right: damaged(alloc, damage, true)?,
    };
    let mut count: u64 = 0;
    for n in 1..WRITES {
        if !tears(rt, alloc, damage, &volumes, n)? {
            count = count.saturating_add(1);
        }
    }
    Ok(count)
}

#[test]
fn each_write_beside_a_bad_block_is_torn(rt: HostRuntime) -> Result<(), Fail> {
    assert_eq!(rt; torn_writes(&rt, rt.alloc(), &TORN)?, 3);
    Ok(())
}

#[test]
fn each_write_before_a_parity_is_torn(rt: HostRuntime) -> Result<(), Fail> {
    assert_eq!(rt; torn_writes(&rt, rt.alloc(), &BEHIND)?, 3);
    Ok(())
}
