// Salvages of small volumes of which each block is lost in its turn, and each two of them: the blocks of all trees, and one sector of each extent. What is to
// come is worked out by another program, `tests/losses.py`.
use super::memory::{NOTHING, Outcome, attempt, small};
use btr_base::crc_register;
use btr_make::RowVolume;
use btr_rack::MemRack;
use btr_volume::Stop;
use btr_walk::TreeFault;
use std::alloc::Global;
use std::process::Abort;
use std::test::Fail;

/// A byte that is made wrong: its image, where it stands, and what is changed of it.
type Wrong = (&'static str, u64, u8);

/// A volume, for each of its blocks what makes it lost, and the CRC-32C of all that comes of it.
#[derive(Clone, Copy)]
struct Losses {
    which: RowVolume,
    names: &'static [&'static str],
    blocks: &'static [&'static [Wrong]],
    told: u32,
}

const V1D: Losses = Losses {
    which: RowVolume::V1d,
    names: &["a"],
    blocks: &[
        &[("a", 1048776, 255)],
        &[("a", 2097360, 255), ("a", 6291664, 1)],
        &[("a", 2113752, 255), ("a", 6308056, 1)],
        &[("a", 2130144, 255), ("a", 6324448, 1)],
        &[("a", 2146536, 255), ("a", 6340840, 1)],
        &[("a", 2162928, 255), ("a", 6357232, 1)],
        &[("a", 10486008, 255)],
        &[("a", 10490112, 255)],
    ],
    told: 2319063825,
};

const S: Losses = Losses {
    which: RowVolume::S,
    names: &["a"],
    blocks: &[
        &[("a", 1048776, 255)],
        &[("a", 2097360, 255)],
        &[("a", 2113752, 255)],
        &[("a", 2130144, 255)],
        &[("a", 2146536, 255)],
        &[("a", 2162928, 255)],
        &[("a", 2179320, 255)],
        &[("a", 2195712, 255)],
    ],
    told: 2212408975,
};

const RAID5: Losses = Losses {
    which: RowVolume::Raid5,
    names: &["a", "b", "c"],
    blocks: &[
        &[("a", 1048776, 255), ("b", 1048776, 1)],
        &[("a", 2097360, 255), ("b", 2097360, 1)],
        &[("a", 2113752, 255), ("b", 2113752, 1)],
        &[("a", 2130144, 255), ("b", 2130144, 1)],
        &[("a", 2146536, 255), ("b", 2146536, 1)],
        &[("a", 2162928, 255), ("b", 2162928, 1)],
        &[("a", 10486008, 255), ("c", 10486008, 1)],
        &[("a", 10490112, 255), ("c", 10490112, 1)],
    ],
    told: 2319063825,
};

const ROWS6: Losses = Losses {
    which: RowVolume::Rows6,
    names: &["a", "b", "c", "d", "e"],
    blocks: &[
        &[("a", 1048776, 255), ("d", 1048776, 1), ("e", 1048776, 85)],
        &[("a", 2097360, 255), ("d", 2097360, 1), ("e", 2097360, 85)],
        &[("a", 2113752, 255), ("d", 2113752, 1), ("e", 2113752, 85)],
        &[("a", 2130144, 255), ("d", 2130144, 1), ("e", 2130144, 85)],
        &[("a", 2146536, 255), ("d", 2146536, 1), ("e", 2146536, 85)],
        &[("b", 2097392, 255), ("d", 2097392, 1), ("e", 2097392, 85)],
        &[("b", 2113784, 255), ("d", 2113784, 1), ("e", 2113784, 85)],
        &[
            ("c", 10506496, 255),
            ("d", 10506496, 1),
            ("e", 10506496, 85),
        ],
        &[
            ("d", 10563848, 255),
            ("e", 10563848, 1),
            ("a", 10563848, 85),
        ],
        &[
            ("d", 10719504, 255),
            ("b", 10719504, 1),
            ("c", 10719504, 85),
        ],
    ],
    told: 2158219439,
};

// Makes a block wrong wherever it could come from, or right again.
fn flip(rack: &mut MemRack, block: &[Wrong]) -> Result<(), Fail> {
    for (image, at, change) in block {
        let byte = rack.byte(image, *at).unwrap_or(0) ^ *change;
        if rack.poke(image, *at, &[byte]).is_err() {
            return Err("no such image")?;
        }
    }
    Ok(())
}

// The register after how a salvage ended: its text, or the root that is lost.
fn add_ending(rt: &impl Abort, register: u32, came: &Outcome) -> Result<u32, Fail> {
    match came.answer {
        Ok(_) => Ok(crc_register(register, came.text.as_slice())),
        Err(Stop::Tree(TreeFault::Lost(addr))) => {
            assert!(rt; came.text.is_empty());
            Ok(crc_register(register, &addr.to_le_bytes()))
        }
        Err(_) => Err("another answer")?,
    }
}

// The register after what came of a salvage: how it ended, and its rows; or that the volume doesn't open. No file is unfinished.
fn add(rt: &impl Abort, register: u32, came: &Option<Outcome>) -> Result<u32, Fail> {
    let Some(came) = came else {
        return Ok(crc_register(register, b"closed\n"));
    };
    assert!(rt; came.part.is_empty());
    let rows = !crc_register(u32::MAX, came.rows.as_slice());
    let ended = add_ending(rt, register, came)?;
    Ok(crc_register(ended, &rows.to_le_bytes()))
}

// The register after a salvage without these blocks.
fn lose(
    rt: &impl Abort,
    alloc: Global,
    rack: &mut MemRack,
    blocks: [&[Wrong]; 2],
    register: u32,
) -> Result<u32, Fail> {
    for block in blocks {
        flip(rack, block)?;
    }
    let came = attempt(rt, alloc, false, rack, NOTHING)?;
    for block in blocks {
        flip(rack, block)?;
    }
    add(rt, register, &came)
}

#[test]
fn each_block_and_each_two(rt: HostRuntime) -> Result<(), Fail> {
    for volume in [V1D, S, RAID5, ROWS6] {
        let mut rack = small(rt.alloc(), volume.which, volume.names)?;
        let mut register = u32::MAX;
        for block in volume.blocks {
            register = lose(&rt, rt.alloc(), &mut rack, [block, &[]], register)?;
        }
        for (n, block) in volume.blocks.iter().enumerate() {
            for other in volume.blocks.iter().take(n) {
                register = lose(&rt, rt.alloc(), &mut rack, [other, block], register)?;
            }
        }
        assert_eq!(rt; !register, volume.told);
    }
    Ok(())
}
