// The small volumes.
use super::volume::{first_super, older, open, put, rack_of, refusal, summary};
use btr_make::RowVolume;
use btr_rack::MemRack;
use btr_super::Super;
use btr_volume::OpenFault;
use btr_walk::TreeFault;
use std::alloc::Global;
use std::process::Abort;
use std::test::Fail;

/// Opens a small volume by some of its images, and looks at its chunks and at the roots of trees.
pub(super) fn opens(
    rt: &impl Abort,
    alloc: Global,
    rack: &mut MemRack,
    chunks: usize,
) -> Result<(), Fail> {
    let summary = summary(alloc, rack)?;
    assert_eq!(rt; summary.chunks, chunks);
    assert_eq!(rt; summary.free, 24);
    let addrs = [Some(2097152), Some(1048576), Some(2146304), None];
    for (root, addr) in summary.roots.iter().zip(addrs) {
        assert_eq!(rt; *root, Ok(addr));
    }
    Ok(())
}

#[test]
fn small_volumes_open(rt: HostRuntime) -> Result<(), Fail> {
    for (which, names) in [
        (RowVolume::V1, &["a"][..]),
        (RowVolume::V2, &["a"][..]),
        (RowVolume::S, &["a"][..]),
        (RowVolume::M1, &["a", "b"][..]),
        (RowVolume::M1, &["b", "a"][..]),
        (RowVolume::M1, &["b"][..]),
        (RowVolume::Raid5, &["c", "b", "a"][..]),
        (RowVolume::Raid6, &["b", "d"][..]),
        (RowVolume::M3, &["c"][..]),
    ] {
        opens(&rt, rt.alloc(), &mut rack_of(rt.alloc(), which, names)?, 3)?;
    }
    Ok(())
}

// What opening the small volume with two copies comes to, of whose calls one fails.
fn failing(alloc: Global, n: u64) -> Result<Result<usize, OpenFault>, Fail> {
    let mut rack = rack_of(alloc, RowVolume::V1d, &["a"])?;
    rack.fail_call(n)?;
    match summary(alloc, &mut rack) {
        Ok(summary) => Ok(Ok(summary.free)),
        Err(refusal) => Ok(Err(refusal)),
    }
}

#[test]
fn each_failing_read_is_told_or_made_good(rt: HostRuntime) -> Result<(), Fail> {
    let unread = OpenFault::Tree(TreeFault::Unread(1048576, 0));
    let mut good = 0u64;
    for n in 1..30 {
        match failing(rt.alloc(), n)? {
            Ok(free) => {
                assert_eq!(rt; free, 24);
                good = n;
            }
            Err(refusal) => {
                assert!(rt; refusal == OpenFault::ImageFault(0) || refusal == unread);
            }
        }
    }
    assert_eq!(rt; good, 29);
    Ok(())
}

#[test]
fn images_that_missed_writes_are_older(rt: HostRuntime) -> Result<(), Fail> {
    let mut rack = rack_of(rt.alloc(), RowVolume::M1, &["b", "a"])?;
    assert_eq!(rt; older(rt.alloc(), &mut rack)?, [false, false]);
    let mut sup = first_super(&mut rack)?;
    sup.generation = sup.generation.wrapping_sub(1);
    put(&mut rack, "b", &sup)?;
    assert_eq!(rt; older(rt.alloc(), &mut rack)?, [false, true]);
    Ok(())
}

// What opening a rack's images comes to, once a superblock is written into the second.
fn refused(alloc: Global, rack: &mut MemRack, sup: &Super) -> Result<Option<OpenFault>, Fail> {
    put(rack, "b", sup)?;
    Ok(refusal(alloc, rack))
}

#[test]
fn images_of_other_devices_and_filesystems(rt: HostRuntime) -> Result<(), Fail> {
    let alloc = rt.alloc();
    let mut rack = rack_of(alloc, RowVolume::M1, &["a"])?;
    let mut sup = first_super(&mut rack)?;
    put(&mut rack, "b", &sup)?;
    open(&mut rack, "b")?;
    assert_eq!(rt; refusal(alloc, &mut rack), Some(OpenFault::Twin(1)));
    sup.fsid = [7; 16];
    assert_eq!(rt;
        refused(alloc, &mut rack, &sup)?,
        Some(OpenFault::Foreign(1))
    );
    sup.generation = sup.generation.wrapping_add(1);
    assert_eq!(rt;
        refused(alloc, &mut rack, &sup)?,
        Some(OpenFault::Foreign(0))
    );
    rack.poke("b", 65600, &[0; 8])?;
    assert_eq!(rt; refusal(alloc, &mut rack), Some(OpenFault::NoSuper(1)));
    Ok(())
}

// The superblock of an image of the small volume with two.
fn super_in(alloc: Global, name: &str) -> Result<Super, Fail> {
    first_super(&mut rack_of(alloc, RowVolume::M1, &[name])?)
}

// What opening its images in this order comes to, of which `b` has another superblock.
fn with_other(alloc: Global, names: &[&str], sup: &Super) -> Result<Option<OpenFault>, Fail> {
    let mut rack = rack_of(alloc, RowVolume::M1, names)?;
    refused(alloc, &mut rack, sup)
}

#[test]
fn images_written_each_alone(rt: HostRuntime) -> Result<(), Fail> {
    let alloc = rt.alloc();
    let mut sup = super_in(alloc, "b")?;
    sup.backups[1236] = 1;
    let second = Some(OpenFault::Diverged(1));
    assert_eq!(rt; with_other(alloc, &["a", "b"], &sup)?, second);
    assert_eq!(rt; with_other(alloc, &["b", "a"], &sup)?, second);
    assert_eq!(rt; with_other(alloc, &["b"], &sup)?, None);
    sup.incompat = 0x1361;
    assert_eq!(rt; with_other(alloc, &["b", "a"], &sup)?, second);
    sup.devid = 1;
    let twin = Some(OpenFault::Twin(1));
    assert_eq!(rt; with_other(alloc, &["a", "b"], &sup)?, twin);
    Ok(())
}

#[test]
fn images_of_one_commit(rt: HostRuntime) -> Result<(), Fail> {
    let alloc = rt.alloc();
    let mut sup = super_in(alloc, "b")?;
    sup.dev_uuid = [9; 16];
    sup.log_root = 2097152;
    sup.log_root_level = 1;
    assert_eq!(rt; with_other(alloc, &["a", "b"], &sup)?, None);
    sup.generation = 6;
    sup.bytes_used = 0;
    assert_eq!(rt; with_other(alloc, &["a", "b"], &sup)?, None);
    Ok(())
}
