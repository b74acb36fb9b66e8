// Chunk trees, system arrays, devices and images that are others than those of the small volumes.
use super::rows::opens;
use super::volume::{first_super, open, put, rack_of, refusal, summary};
use btr_make::{RowVolume, row, seal};
use btr_rack::MemRack;
use btr_volume::OpenFault;
use btr_walk::TreeFault;
use std::alloc::Global;
use std::process::Abort;
use std::test::Fail;

// Where the chunk tree's only leaf stands in a small volume, and the places of two blocks behind it.
const ROOT: u64 = 1048576;

const FIRST: u64 = 1064960;

const LAST: u64 = 1081344;

// A change of bytes of an image.
#[derive(Clone, Copy)]
enum Step {
    // Of so many bytes, from a place to another.
    Copy(u64, u64, u64),
    // A byte at a place, or a number of 4 or of 8.
    Byte(u64, u8),
    Half(u64, u32),
    Number(u64, u64),
}

// Copies bytes of the first image from one place to another.
fn copy(rack: &mut MemRack, from: u64, to: u64, len: u64) -> Result<(), Fail> {
    for i in 0..len {
        let Some(byte) = rack.byte("a", from.wrapping_add(i)) else {
            return Err("no such byte")?;
        };
        rack.poke("a", to.wrapping_add(i), &[byte])?;
    }
    Ok(())
}

fn change(rack: &mut MemRack, step: Step) -> Result<(), Fail> {
    match step {
        Step::Copy(from, to, len) => copy(rack, from, to, len),
        Step::Byte(at, byte) => Ok(rack.poke("a", at, &[byte])?),
        Step::Half(at, number) => Ok(rack.poke("a", at, &number.to_le_bytes())?),
        Step::Number(at, number) => Ok(rack.poke("a", at, &number.to_le_bytes())?),
    }
}

// Makes the leaf a node of level 1 over two copies of it: one with its first three items, and one with its last, a chunk of 80 bytes. The first item's key
// stands where the first pointer's does.
const TWO_LEVELS: [Step; 17] = [
    Step::Copy(ROOT, FIRST, 16384),
    Step::Number(FIRST + 48, FIRST),
    Step::Byte(FIRST + 96, 3),
    Step::Copy(ROOT, LAST, 16384),
    Step::Number(LAST + 48, LAST),
    Step::Byte(LAST + 96, 1),
    Step::Copy(ROOT + 176, LAST + 101, 17),
    Step::Half(LAST + 118, 16203),
    Step::Half(LAST + 122, 80),
    Step::Copy(ROOT + 16046, LAST + 16304, 80),
    Step::Half(ROOT + 96, 2),
    Step::Byte(ROOT + 100, 1),
    Step::Copy(ROOT + 176, ROOT + 134, 17),
    Step::Number(ROOT + 118, FIRST),
    Step::Number(ROOT + 126, 7),
    Step::Number(ROOT + 151, LAST),
    Step::Number(ROOT + 159, 7),
];

// The first small volume, open, with a chunk tree of two levels.
fn two_levels(alloc: Global) -> Result<MemRack, Fail> {
    let mut rack = rack_of(alloc, RowVolume::V1, &["a"])?;
    let mut sup = first_super(&mut rack)?;
    for step in &TWO_LEVELS {
        change(&mut rack, *step)?;
    }
    for block in [FIRST, LAST, ROOT] {
        seal(&mut rack, "a", block, 16384)?;
    }
    sup.chunk_root_level = 1;
    put(&mut rack, "a", &sup)?;
    Ok(rack)
}

#[test]
fn chunk_trees_of_two_levels(rt: HostRuntime) -> Result<(), Fail> {
    opens(&rt, rt.alloc(), &mut two_levels(rt.alloc())?, 3)?;
    for leaf in [FIRST, LAST] {
        let mut rack = two_levels(rt.alloc())?;
        rack.poke("a", leaf.wrapping_add(8000), &[1])?;
        let lost = OpenFault::Tree(TreeFault::Lost(leaf));
        assert_eq!(rt; refusal(rt.alloc(), &mut rack), Some(lost));
    }
    Ok(())
}

// Where the ids of devices stand in the chunk tree's leaf, and those that are written there.
const DEVIDS: [(u64, u64); 9] = [
    (ROOT + 110, 3),
    (ROOT + 16286, 3),
    (ROOT + 135, 7),
    (ROOT + 16188, 7),
    (ROOT + 16124, 7),
    (ROOT + 16156, 3),
    (ROOT + 16012, 7),
    (ROOT + 16044, 3),
    (ROOT + 15932, 7),
];

// Writes these ids into the leaf in an image.
fn put_devids(rack: &mut MemRack, name: &str) -> Result<(), Fail> {
    for (at, devid) in &DEVIDS {
        rack.poke(name, *at, &devid.to_le_bytes())?;
    }
    Ok(seal(rack, name, ROOT, 16384)?)
}

// The volume of two devices whose ids are 7 and 3 in place of 1 and 2: in the items of devices, in the stripes of chunks, in the
// system array and in the superblocks.
fn renumbered(alloc: Global, names: &[&str]) -> Result<MemRack, Fail> {
    let mut rack = rack_of(alloc, RowVolume::M1, names)?;
    let mut sup = first_super(&mut rack)?;
    sup.array[65] = 7;
    sup.array[97] = 3;
    for (name, devid) in [("a", 7), ("b", 3)] {
        put_devids(&mut rack, name)?;
        sup.devid = devid;
        put(&mut rack, name, &sup)?;
    }
    Ok(rack)
}

#[test]
fn ids_of_devices_with_gaps(rt: HostRuntime) -> Result<(), Fail> {
    for names in [&["a", "b"][..], &["b", "a"][..], &["a"][..], &["b"][..]] {
        opens(&rt, rt.alloc(), &mut renumbered(rt.alloc(), names)?, 3)?;
    }
    Ok(())
}

// By an array that has the copies of the chunk in the other order, the chunk tree can be read all the same.
#[test]
fn arrays_that_disagree(rt: HostRuntime) -> Result<(), Fail> {
    let mut rack = rack_of(rt.alloc(), RowVolume::M1, &["a", "b"])?;
    let mut sup = first_super(&mut rack)?;
    sup.array[65] = 2;
    sup.array[97] = 1;
    for (name, devid) in [("a", 1), ("b", 2)] {
        sup.devid = devid;
        put(&mut rack, name, &sup)?;
    }
    let bad = OpenFault::BadChunk(1048576);
    assert_eq!(rt; refusal(rt.alloc(), &mut rack), Some(bad));
    Ok(())
}

// A chunk of the array alone stands in the table with those of the chunk tree.
#[test]
fn arrays_with_another_chunk(rt: HostRuntime) -> Result<(), Fail> {
    let mut rack = rack_of(rt.alloc(), RowVolume::V1, &["a"])?;
    let mut sup = first_super(&mut rack)?;
    for i in 0..97 {
        sup.array[97 + i] = sup.array[i];
    }
    sup.array[97 + 9..97 + 17].copy_from_slice(&33554432u64.to_le_bytes());
    sup.array[97 + 73..97 + 81].copy_from_slice(&15728640u64.to_le_bytes());
    sup.sys_chunk_array_size = 194;
    put(&mut rack, "a", &sup)?;
    opens(&rt, rt.alloc(), &mut rack, 4)
}

// The first small volume, whose image has this many bytes and is open.
fn cut(alloc: Global, len: u64) -> Result<MemRack, Fail> {
    let mut rack = row(alloc, RowVolume::V1)?;
    if !rack.cut("a", len) {
        return Err("the image is shorter")?;
    }
    open(&mut rack, "a")?;
    Ok(rack)
}

#[test]
fn images_that_are_shorter_than_their_devices(rt: HostRuntime) -> Result<(), Fail> {
    for (len, refused) in [
        (65536, OpenFault::NoSuper(0)),
        (69631, OpenFault::NoSuper(0)),
        (69632, OpenFault::Tree(TreeFault::Lost(ROOT))),
        (1064959, OpenFault::Tree(TreeFault::Lost(ROOT))),
    ] {
        let mut rack = cut(rt.alloc(), len)?;
        assert_eq!(rt; refusal(rt.alloc(), &mut rack), Some(refused));
    }
    Ok(())
}

// All that is needed to open it is there, and no tree but that.
#[test]
fn images_without_metadata(rt: HostRuntime) -> Result<(), Fail> {
    let mut rack = cut(rt.alloc(), 1064960)?;
    let summary = summary(rt.alloc(), &mut rack)?;
    assert_eq!(rt; summary.chunks, 3);
    assert_eq!(rt; summary.free, 24);
    assert_eq!(rt; summary.roots[2], Err(TreeFault::Lost(2097152)));
    Ok(())
}
