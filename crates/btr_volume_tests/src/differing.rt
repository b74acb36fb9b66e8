// Copies of the root tree's root block that differ, where the superblocks are those of one commit.
use super::volume::{rack_of, refusal};
use btr_make::{RowVolume, seal};
use btr_rack::MemRack;
use btr_volume::OpenFault;
use std::alloc::Global;
use std::process::Abort;
use std::test::Fail;

// Where the block stands in the small volumes with copies, and its second copy on the one device that has two.
const FIRST: u64 = 2097152;

const SECOND: u64 = 6291456;

// How long a block is, and a place in it at which nothing stands.
const NODE: u64 = 16384;

const UNUSED: u64 = 8000;

// A place in the field of the checksum that the kind of checksums doesn't use.
const BEHIND_SUM: u64 = 20;

// Changes a byte of the block at a place of an image. Its checksum is that of the old bytes.
fn damage(rack: &mut MemRack, name: &str, block: u64, at: u64) -> Result<(), Fail> {
    let Some(byte) = rack.byte(name, block.wrapping_add(at)) else {
        return Err("no such byte")?;
    };
    Ok(rack.poke(name, block.wrapping_add(at), &[byte ^ 1])?)
}

// The same, where it passes still.
fn change(rack: &mut MemRack, name: &str, block: u64, at: u64) -> Result<(), Fail> {
    damage(rack, name, block, at)?;
    Ok(seal(rack, name, block, NODE)?)
}

// What opening comes to, where the second image of the small volume with two holds another root block.
fn mirrored(alloc: Global, names: &[&str]) -> Result<Option<OpenFault>, Fail> {
    let mut rack = rack_of(alloc, RowVolume::M1, names)?;
    change(&mut rack, "b", FIRST, UNUSED)?;
    Ok(refusal(alloc, &mut rack))
}

#[test]
fn mirrors_written_each_alone(rt: HostRuntime) -> Result<(), Fail> {
    let alloc = rt.alloc();
    assert_eq!(rt; mirrored(alloc, &["a", "b"])?, Some(OpenFault::Diverged(1)));
    assert_eq!(rt; mirrored(alloc, &["b", "a"])?, Some(OpenFault::Diverged(0)));
    assert_eq!(rt; mirrored(alloc, &["a"])?, None);
    assert_eq!(rt; mirrored(alloc, &["b"])?, None);
    Ok(())
}

// A copy that doesn't pass, or can't be read, is none that differs; nor is one with other bytes where no checksum stands.
#[test]
fn copies_that_are_none(rt: HostRuntime) -> Result<(), Fail> {
    let alloc = rt.alloc();
    let mut rack = rack_of(alloc, RowVolume::V1d, &["a"])?;
    damage(&mut rack, "a", SECOND, BEHIND_SUM)?;
    assert_eq!(rt; refusal(alloc, &mut rack), None);
    damage(&mut rack, "a", SECOND, UNUSED)?;
    assert_eq!(rt; refusal(alloc, &mut rack), None);
    seal(&mut rack, "a", SECOND, NODE)?;
    assert_eq!(rt; refusal(alloc, &mut rack), Some(OpenFault::Diverged(0)));
    rack.fail_range("a", FIRST, NODE)?;
    assert_eq!(rt; refusal(alloc, &mut rack), None);
    Ok(())
}

// In a row the slice itself differs from what the parity leaves of it, which is read from the two other images.
#[test]
fn a_slice_that_differs_from_its_row(rt: HostRuntime) -> Result<(), Fail> {
    let mut rack = rack_of(rt.alloc(), RowVolume::Rows5, &["c", "b", "a"])?;
    change(&mut rack, "a", FIRST, UNUSED)?;
    assert_eq!(rt;
        refusal(rt.alloc(), &mut rack),
        Some(OpenFault::Diverged(0))
    );
    Ok(())
}
