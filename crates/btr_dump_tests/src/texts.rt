// Texts of volumes in memory.
use btr_dump::{dump_all, dump_block, dump_tree, list_roots};
use btr_make::{RowVolume, row};
use btr_rack::{MemOut, MemRack, Rack};
use btr_volume::{Stop, Volume};
use btr_walk::TreeFault;
use std::alloc::Global;
use std::process::Abort;
use std::test::Fail;

const SUMS: &[u8] =
    b"leaf 2162688 items 1 generation 7 owner 7\n\titem 0 key (18446744073709551606 EXTENT_CSUM 16777216) itemoff 16275 itemsize 8\n\t\trange start 16777216 end 16785408 length 8192\n";

const SUMS_TREE: &[u8] =
    b"tree 7 offset 0\nleaf 2162688 items 1 generation 7 owner 7\n\titem 0 key (18446744073709551606 EXTENT_CSUM 16777216) itemoff 16275 itemsize 8\n\t\trange start 16777216 end 16785408 length 8192\n";

const ROOTS: &[u8] =
    b"tree 1 offset 0 bytenr 2097152 level 0 generation 7\ntree 3 offset 0 bytenr 1048576 level 0 generation 7\ntree 2 offset 0 bytenr 2113536 level 0 generation 7\ntree 4 offset 0 bytenr 2129920 level 0 generation 7\ntree 5 offset 0 bytenr 2146304 level 0 generation 7\ntree 7 offset 0 bytenr 2162688 level 0 generation 7\n";

#[derive(Clone, Copy)]
enum Asked {
    Block(u64),
    Tree(u64),
    Roots,
    All,
}

// What a call answers over a volume with one image; `None` where the volume doesn't open.
fn answer(
    rt: &impl Abort,
    alloc: Global,
    rack: &mut MemRack,
    asked: Asked,
    out: &mut MemOut,
) -> Option<Result<(), Stop>> {
    if rack.count() == 0 {
        return None;
    }
    let Ok(mut volume) = Volume::open(alloc, rack) else {
        return None;
    };
    let answer = match asked {
        Asked::Block(addr) => dump_block(addr, rack, &mut volume, out),
        Asked::Tree(id) => dump_tree(id, rack, &mut volume, out),
        Asked::Roots => list_roots(rack, &mut volume, out),
        Asked::All => dump_all(rack, &mut volume, out),
    };
    assert_eq!(rt; volume.store.free(), 24);
    Some(answer)
}

fn opened(alloc: Global, which: RowVolume) -> Result<MemRack, Fail> {
    let mut rack = row(alloc, which)?;
    rack.open("a", false)?;
    Ok(rack)
}

fn shows(
    rt: &impl Abort,
    alloc: Global,
    asked: Asked,
    expected: Result<(), Stop>,
    text: &[u8],
) -> Result<(), Fail> {
    let mut rack = opened(alloc, RowVolume::V1)?;
    let mut out = MemOut::new(alloc);
    let found = answer(rt, alloc, &mut rack, asked, &mut out);
    assert_eq!(rt; found, Some(expected));
    assert_eq!(rt; out.text(), text);
    Ok(())
}

#[test]
fn texts_of_a_volume(rt: HostRuntime) -> Result<(), Fail> {
    let alloc = rt.alloc();
    shows(&rt, alloc, Asked::Block(2162688), Ok(()), SUMS)?;
    shows(&rt, alloc, Asked::Tree(7), Ok(()), SUMS_TREE)?;
    shows(&rt, alloc, Asked::Roots, Ok(()), ROOTS)?;
    shows(&rt, alloc, Asked::Tree(300), Err(Stop::NoTree(300)), b"")
}

#[test]
fn blocks_that_cannot_be_had(rt: HostRuntime) -> Result<(), Fail> {
    let alloc = rt.alloc();
    for (addr, fault) in [
        (16777216, TreeFault::Lost(16777216)),
        (20967424, TreeFault::Crosses(20967424)),
        (u64::MAX, TreeFault::Unmapped(u64::MAX)),
    ] {
        shows(&rt, alloc, Asked::Block(addr), Err(Stop::Tree(fault)), b"")?;
    }
    Ok(())
}

// A damaged copy is passed over.
#[test]
fn second_copies(rt: HostRuntime) -> Result<(), Fail> {
    let alloc = rt.alloc();
    let mut rack = opened(alloc, RowVolume::V1d)?;
    let mut whole = MemOut::new(alloc);
    let first = answer(&rt, alloc, &mut rack, Asked::Tree(5), &mut whole);
    assert_eq!(rt; first, Some(Ok(())));
    rack.poke("a", 2146404, &[1])?;
    let mut out = MemOut::new(alloc);
    let second = answer(&rt, alloc, &mut rack, Asked::Tree(5), &mut out);
    assert_eq!(rt; second, Some(Ok(())));
    assert_eq!(rt; out.text(), whole.text());
    Ok(())
}

// Call n on the rack fails: the other copy makes it good, or it is told behind a first part of the text.
fn failing_call(rt: &impl Abort, alloc: Global, n: u64, whole: &[u8]) -> Result<(), Fail> {
    let mut rack = opened(alloc, RowVolume::V1d)?;
    rack.fail_call(n)?;
    let mut out = MemOut::new(alloc);
    match answer(rt, alloc, &mut rack, Asked::Tree(7), &mut out) {
        None => {}
        Some(Ok(())) => {
            assert_eq!(rt; out.text(), whole);
        }
        Some(Err(_)) => {
            assert!(rt; whole.starts_with(out.text()));
        }
    }
    Ok(())
}

#[test]
fn calls_that_fail(rt: HostRuntime) -> Result<(), Fail> {
    for n in 1..12 {
        failing_call(&rt, rt.alloc(), n, SUMS_TREE)?;
    }
    Ok(())
}

// The output's refusal is answered; where the text waited, nothing stands there.
#[test]
fn outputs_that_fail(rt: HostRuntime) -> Result<(), Fail> {
    let alloc = rt.alloc();
    for asked in [
        Asked::Block(2162688),
        Asked::Tree(7),
        Asked::Roots,
        Asked::All,
    ] {
        let mut rack = opened(alloc, RowVolume::V1)?;
        let mut out = MemOut::new(alloc);
        out.fail_call(1)?;
        let found = answer(&rt, alloc, &mut rack, asked, &mut out);
        assert_eq!(rt; found, Some(Err(Stop::Out)));
        assert!(rt; out.text().is_empty());
    }
    Ok(())
}

// All trees one after another: those of the superblock, and then those of the ROOT_ITEMs, in the order of their keys.
#[test]
fn all_trees(rt: HostRuntime) -> Result<(), Fail> {
    let alloc = rt.alloc();
    let mut rack = opened(alloc, RowVolume::V1)?;
    let mut one_by_one = MemOut::new(alloc);
    for id in [1, 3, 2, 4, 5, 7] {
        let found = answer(&rt, alloc, &mut rack, Asked::Tree(id), &mut one_by_one);
        assert_eq!(rt; found, Some(Ok(())));
    }
    let mut all = MemOut::new(alloc);
    let found = answer(&rt, alloc, &mut rack, Asked::All, &mut all);
    assert_eq!(rt; found, Some(Ok(())));
    assert_eq!(rt; all.text(), one_by_one.text());
    assert!(rt; all.text().ends_with(SUMS_TREE));
    Ok(())
}
