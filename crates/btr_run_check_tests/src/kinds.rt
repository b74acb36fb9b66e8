// Volumes with one fault each, and what a check finds in them.
ghost use Rattle.std.specs.Prelude.{◌≤◌};

mod names;
mod space;
mod together;
mod trees;

use crate::answers::answers;
use btr_make::{RowVolume, row, seal};
use btr_rack::MemRack;
use btr_test_calls::{CallFault, call};
use std::alloc::Global;
use std::process::Abort;

const NODE: u64 = 16384;

const SUPER: u64 = 65536;

// The one leaf of each tree of the small volume.
const CHUNKS: u64 = 1048576;

const ROOTS: u64 = 2097152;

const EXTENTS: u64 = 2113536;

const DEVICES: u64 = 2129920;

const FILES: u64 = 2146304;

const SUMS: u64 = 2162688;

// Bytes that are written over, from a byte of a block on.
#[derive(Clone, Copy)]
struct Poke {
    at: u64,
    bytes: &'static [u8],
}

// A block that is written over, and whether its checksum is made right again; and what is found then.
#[derive(Clone, Copy)]
struct Case {
    block: u64,
    is_sealed: bool,
    pokes: &'static [Poke],
    text: &'static [u8],
}

// Cases in one volume, and what is found of them together.
#[derive(Clone, Copy)]
struct Several {
    cases: &'static [Case],
    text: &'static [u8],
}

// How many bytes the checksum of a block covers, and its own.
fn len_of(block: u64) -> u64
    ensures { 36 ≤ result }
{
    if block == SUPER { 4096 } else { NODE }
}

// Edits a small volume.
fn edit(rack: &mut MemRack, case: &Case) -> Result<(), CallFault> {
    for poke in case.pokes {
        rack.poke("a", case.block.saturating_add(poke.at), poke.bytes)?;
    }
    if case.is_sealed {
        seal(rack, "a", case.block, len_of(case.block))?;
    }
    Ok(())
}

// A small volume, edited.
fn edited(alloc: Global, volume: RowVolume, cases: &[Case]) -> Result<MemRack, CallFault> {
    let mut rack = row(alloc, volume)?;
    for case in cases {
        edit(&mut rack, case)?;
    }
    Ok(rack)
}

// Asserts what a check of an edited volume tells.
fn tells(
    rt: &impl Abort,
    alloc: Global,
    volume: RowVolume,
    case: &Case,
    code: u8,
) -> Result<(), CallFault> {
    let mut rack = edited(alloc, volume, &[*case])?;
    answers(rt, alloc, &mut rack, &["check", "a"], case.text, code)
}

fn tells_all(rt: &impl Abort, alloc: Global, cases: &[Case], code: u8) -> Result<(), CallFault> {
    for case in cases {
        tells(rt, alloc, RowVolume::V1, case, code)?;
    }
    Ok(())
}

#[test]
fn one_fault_each(rt: HostRuntime) -> Result<(), CallFault> {
    tells_all(&rt, rt.alloc(), trees::FOUND, 1)?;
    tells_all(&rt, rt.alloc(), names::FOUND, 1)?;
    tells_all(&rt, rt.alloc(), space::FOUND, 1)?;
    tells(&rt, rt.alloc(), RowVolume::S, &trees::OVERLAP, 1)?;
    tells(&rt, rt.alloc(), RowVolume::S, &names::SUBVOLUME, 1)
}

#[test]
fn several_faults(rt: HostRuntime) -> Result<(), CallFault> {
    let alloc = rt.alloc();
    for several in together::FOUND {
        let mut rack = edited(alloc, RowVolume::V1, several.cases)?;
        answers(&rt, alloc, &mut rack, &["check", "a"], several.text, 1)?;
    }
    Ok(())
}

const PENDING: &[(RowVolume, &[u8])] = &[
    (RowVolume::P, b"error: tree 257 is being deleted\n"),
    (RowVolume::Q, b"error: a balance is pending\n"),
];

#[test]
fn filesystems_that_are_refused(rt: HostRuntime) -> Result<(), CallFault> {
    let alloc = rt.alloc();
    tells_all(&rt, alloc, space::REFUSED, 3)?;
    for (volume, text) in PENDING {
        answers(
            &rt,
            alloc,
            &mut row(alloc, *volume)?,
            &["check", "a"],
            text,
            3,
        )?;
    }
    Ok(())
}

const SOUND: &[(RowVolume, &[&str])] = &[
    (RowVolume::V1, &["check", "a"]),
    (RowVolume::V1d, &["check", "--check-data-csum", "a"]),
    (RowVolume::V2, &["check", "--check-data-csum", "a"]),
    (RowVolume::S, &["check", "a"]),
    (RowVolume::X2, &["check", "a"]),
    (RowVolume::L, &["check", "a"]),
    (RowVolume::Raid5, &["check", "--check-data-csum", "a", "c"]),
    (RowVolume::Raid6, &["check", "--check-data-csum", "b", "d"]),
];

#[test]
fn sound_volumes(rt: HostRuntime) -> Result<(), CallFault> {
    for (volume, all) in SOUND {
        answers(
            &rt,
            rt.alloc(),
            &mut row(rt.alloc(), *volume)?,
            all,
            b"no findings\n",
            0,
        )?;
    }
    for case in [names::ORPHAN, names::REMOVED, names::INODE_CACHE] {
        tells(&rt, rt.alloc(), RowVolume::V1, &case, 0)?;
    }
    Ok(())
}

// A directory without links is being removed only where its orphan item stands.
#[test]
fn a_directory_that_is_left_over(rt: HostRuntime) -> Result<(), CallFault> {
    tells(&rt, rt.alloc(), RowVolume::V1, &names::LEFT_OVER, 1)
}

// The length of a compressed extent, of which one bit is wrong: of the sectors behind it only those of its chunk are named.
const FLIPPED: Case = Case {
    block: FILES,
    is_sealed: true,
    pokes: &[Poke {
        at: 14790,
        bytes: &[0, 0x10, 0, 0, 0, 1, 0, 0],
    }],
    text: b"extent-length 16785408 4096 1099511631872\nsum-missing 5 261 16789504\n",
};

#[test]
fn a_length_that_is_far_too_large(rt: HostRuntime) -> Result<(), CallFault> {
    let mut rack = edited(rt.alloc(), RowVolume::V2, &[FLIPPED])?;
    let told = call(rt.alloc(), &mut rack, &["check", "a"])?;
    assert!(rt; told.text.starts_with(FLIPPED.text));
    assert!(rt;
        told.text
            .ends_with(b"sum-missing 5 261 20967424\nfindings 1022\n")
    );
    assert_eq!(rt; told.code, 1);
    Ok(())
}

#[test]
fn a_reference_too_many(rt: HostRuntime) -> Result<(), CallFault> {
    let mut rack = row(rt.alloc(), RowVolume::X3)?;
    let text = b"ref-total 16777216 3 2\nfindings 1\n";
    answers(&rt, rt.alloc(), &mut rack, &["check", "a"], text, 1)
}

// The small volume, of whose data the sector at a place of the device is wrong.
fn without_sector(alloc: Global, place: u64) -> Result<MemRack, CallFault> {
    let mut rack = row(alloc, RowVolume::V1)?;
    rack.poke("a", place, &[1])?;
    Ok(rack)
}

// Where the sectors of data lie on the device, and what is found of each.
const SECTORS: &[(u64, &[u8])] = &[
    (10485760, b"data-lost 16777216\nfindings 1\n"),
    (10489856, b"data-lost 16781312\nfindings 1\n"),
];

#[test]
fn data_that_is_lost(rt: HostRuntime) -> Result<(), CallFault> {
    let alloc = rt.alloc();
    let words = ["check", "--check-data-csum", "a"];
    for (place, text) in SECTORS {
        let rack = &mut without_sector(alloc, *place)?;
        answers(&rt, alloc, rack, &["check", "a"], b"no findings\n", 0)?;
        let rack = &mut without_sector(alloc, *place)?;
        answers(&rt, alloc, rack, &words, text, 1)?;
    }
    Ok(())
}
