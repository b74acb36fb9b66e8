// Filesystems that aren't opened, by the first reason.
use crate::answers::answers;
use btr_make::{RowVolume, put_super, row};
use btr_rack::MemRack;
use btr_super::Super;
use btr_test_calls::{CallFault, call, super_of};
use std::alloc::Global;
use std::process::Abort;

// What is changed in a superblock.
#[derive(Clone, Copy)]
enum Edit {
    Kind,
    Feature,
    Sector,
    LogRoot,
    ShortArray,
    OtherChunk,
    UnmappedRoot,
    LostRoot,
}

impl Edit {
    fn apply(self, s: &mut Super) {
        match self {
            Edit::Kind => s.csum_type = 3,
            Edit::Feature => s.incompat = 0x1361,
            Edit::Sector => s.sectorsize = 8192,
            Edit::LogRoot => s.log_root = 2097152,
            Edit::ShortArray => s.sys_chunk_array_size = 1,
            // The length of the array's chunk isn't that of the tree's.
            Edit::OtherChunk => s.array[18] = 0x20,
            Edit::UnmappedRoot => s.chunk_root = 16777216,
            Edit::LostRoot => s.chunk_root_generation = 6,
        }
    }
}

const BLOCK: [&str; 5] = ["inspect-internal", "dump-tree", "-b", "2162688", "a"];

// The small volume with two copies of the metadata, with an edited superblock.
fn edited(alloc: Global, edit: Edit) -> Result<MemRack, CallFault> {
    let mut sup = super_of(alloc, RowVolume::V1d, "a")?;
    edit.apply(&mut sup);
    let mut rack = row(alloc, RowVolume::V1d)?;
    put_super(&mut rack, "a", 65536, &sup)?;
    Ok(rack)
}

const REFUSALS: &[(Edit, &[u8], u8)] = &[
    (Edit::Kind, b"error: checksum type 3 is not supported\n", 3),
    (
        Edit::Feature,
        b"error: unsupported features 0000000000001000\n",
        3,
    ),
    (Edit::Sector, b"error: unsupported geometry\n", 3),
    (Edit::LogRoot, b"error: a log tree is pending\n", 3),
    (
        Edit::ShortArray,
        b"error: the system chunk array is damaged\n",
        3,
    ),
    (Edit::OtherChunk, b"error: bad chunk 1048576\n", 3),
    (Edit::UnmappedRoot, b"error: unmapped address 16777216\n", 1),
    (Edit::LostRoot, b"error: lost block 1048576\n", 1),
];

#[test]
fn refusals(rt: HostRuntime) -> Result<(), CallFault> {
    for (edit, text, code) in REFUSALS {
        answers(
            &rt,
            rt.alloc(),
            &mut edited(rt.alloc(), *edit)?,
            &BLOCK,
            text,
            *code,
        )?;
    }
    Ok(())
}

// A volume of two images, of which b has another superblock.
fn with_other(alloc: Global, other: &Super) -> Result<MemRack, CallFault> {
    let mut rack = row(alloc, RowVolume::M1)?;
    put_super(&mut rack, "b", 65536, other)?;
    Ok(rack)
}

// Asserts that a command over such a volume is refused.
fn refuses_other(
    rt: &impl Abort,
    alloc: Global,
    other: &Super,
    all: &[&str],
    text: &[u8],
) -> Result<(), CallFault> {
    answers(rt, alloc, &mut with_other(alloc, other)?, all, text, 3)
}

const LISTED: [&str; 4] = ["restore", "-l", "a", "b"];

#[test]
fn images_that_do_not_belong_together(rt: HostRuntime) -> Result<(), CallFault> {
    let mut other = super_of(rt.alloc(), RowVolume::M1, "b")?;
    other.fsid = [7; 16];
    other.generation = 6;
    let text = b"error: image 1 belongs to another filesystem\n";
    refuses_other(&rt, rt.alloc(), &other, &LISTED, text)
}

#[test]
fn one_device_twice(rt: HostRuntime) -> Result<(), CallFault> {
    let first = super_of(rt.alloc(), RowVolume::M1, "a")?;
    let text = b"error: image 1 repeats a device\n";
    refuses_other(&rt, rt.alloc(), &first, &LISTED, text)?;
    refuses_other(&rt, rt.alloc(), &first, &["check", "a", "b"], text)
}

#[test]
fn images_written_each_alone(rt: HostRuntime) -> Result<(), CallFault> {
    let mut other = super_of(rt.alloc(), RowVolume::M1, "b")?;
    other.bytes_used = 1;
    let text = b"error: image 1 has diverged\n";
    for all in [
        &LISTED[..],
        &["check", "a", "b"],
        &["scrub", "start", "a", "b"],
        &["inspect-internal", "dump-tree", "a", "b"],
    ] {
        refuses_other(&rt, rt.alloc(), &other, all, text)?;
    }
    let told = call(
        rt.alloc(),
        &mut with_other(rt.alloc(), &other)?,
        &["super", "a", "b"],
    )?;
    assert_eq!(rt; told.code, 0);
    assert!(rt; told.text.starts_with(b"slot 0 place 65536\n"));
    Ok(())
}
