// Owners of addresses in the small volumes.
use btr_make::{RowVolume, row};
use btr_rack::{MemOut, MemRack, Rack};
use btr_resolve::resolve;
use btr_volume::{Stop, Volume};
use btr_walk::TreeFault;
use std::alloc::Global;
use std::process::Abort;
use std::test::Fail;

const SHARED: &[u8] =
    b"tree 5 inode 260 position 0 path /a\ntree 5 inode 261 position 0 path /b\nowners 2\n";

// What is answered over a volume with one image; `None` where the volume doesn't open.
fn answer(
    rt: &impl Abort,
    alloc: Global,
    rack: &mut MemRack,
    addr: u64,
    out: &mut MemOut,
) -> Option<Result<u64, Stop>> {
    if rack.count() == 0 {
        return None;
    }
    let Ok(mut volume) = Volume::open(alloc, rack) else {
        return None;
    };
    let answer = resolve(alloc, addr, rack, &mut volume, out);
    assert_eq!(rt; volume.store.free(), 24);
    Some(answer)
}

fn opened(alloc: Global, which: RowVolume) -> Result<MemRack, Fail> {
    let mut rack = row(alloc, which)?;
    rack.open("a", false)?;
    Ok(rack)
}

fn shows(
    rt: &impl Abort,
    alloc: Global,
    which: RowVolume,
    addr: u64,
    expected: Result<u64, Stop>,
    text: &[u8],
) -> Result<(), Fail> {
    let mut rack = opened(alloc, which)?;
    let mut out = MemOut::new(alloc);
    let found = answer(rt, alloc, &mut rack, addr, &mut out);
    assert_eq!(rt; found, Some(expected));
    assert_eq!(rt; out.text(), text);
    Ok(())
}

#[test]
fn two_files_share_an_extent(rt: HostRuntime) -> Result<(), Fail> {
    shows(&rt, rt.alloc(), RowVolume::X2, 16777216, Ok(2), SHARED)
}

#[test]
fn a_byte_within_a_second_extent(rt: HostRuntime) -> Result<(), Fail> {
    let text = b"tree 5 inode 260 position 8193 path /a\nowners 1\n";
    shows(&rt, rt.alloc(), RowVolume::V1, 16781313, Ok(1), text)
}

#[test]
fn a_byte_of_a_compressed_extent(rt: HostRuntime) -> Result<(), Fail> {
    let text = b"tree 5 inode 261 position 0 path /z\nowners 1\n";
    shows(&rt, rt.alloc(), RowVolume::V2, 16787000, Ok(1), text)
}

#[test]
fn a_byte_of_no_file(rt: HostRuntime) -> Result<(), Fail> {
    shows(
        &rt,
        rt.alloc(),
        RowVolume::V1,
        16785408,
        Ok(0),
        b"owners 0\n",
    )
}

#[test]
fn an_address_that_no_chunk_holds(rt: HostRuntime) -> Result<(), Fail> {
    let unmapped = Err(Stop::Tree(TreeFault::Unmapped(0)));
    shows(&rt, rt.alloc(), RowVolume::V1, 0, unmapped, b"")
}

// Call n on the rack fails: the other copy makes it good, or it is told behind a first part of the text.
fn failing_call(rt: &impl Abort, alloc: Global, n: u64) -> Result<(), Fail> {
    let mut rack = opened(alloc, RowVolume::X2)?;
    rack.fail_call(n)?;
    let mut out = MemOut::new(alloc);
    match answer(rt, alloc, &mut rack, 16777216, &mut out) {
        None => {}
        Some(Ok(count)) => {
            assert_eq!(rt; count, 2);
            assert_eq!(rt; out.text(), SHARED);
        }
        Some(Err(stop)) => {
            assert!(rt; matches!(stop, Stop::Tree(TreeFault::Unread(_, 0))));
            assert!(rt; SHARED.starts_with(out.text()));
        }
    }
    Ok(())
}

#[test]
fn reads_that_fail(rt: HostRuntime) -> Result<(), Fail> {
    for n in 1..16 {
        failing_call(&rt, rt.alloc(), n)?;
    }
    Ok(())
}

// Each line is put by a call of its own, and what was put before stands.
#[test]
fn lines_that_cannot_be_put(rt: HostRuntime) -> Result<(), Fail> {
    let alloc = rt.alloc();
    for (n, before) in [(1, 0), (2, 36), (3, 72)] {
        let mut rack = opened(alloc, RowVolume::X2)?;
        let mut out = MemOut::new(alloc);
        out.fail_call(n)?;
        let found = answer(&rt, alloc, &mut rack, 16777216, &mut out);
        assert_eq!(rt; found, Some(Err(Stop::Out)));
        assert_eq!(rt; out.text().len(), before);
        assert!(rt; SHARED.starts_with(out.text()));
    }
    Ok(())
}
