// What visits meet.
use btr_base::{Key, Memory, SumKind};
use btr_check_sums::{Runs, UsedRange, Uses, keeps_law};
use btr_items::{SumRun, item};
use btr_make_blocks::Body;
use btr_tour::{Met, Visitor};
use btr_walk::{Found, TreeFault};
use std::alloc::{AllocError, Global};
use std::test::Fail;

fn meet<V: Visitor<Memory>>(
    visitor: &mut V,
    objectid: u64,
    kind: u8,
    offset: u64,
    body: &[u8],
) -> Result<(), Memory> {
    let key = Key {
        objectid,
        kind,
        offset,
    };
    let block = 4096;
    visitor.meet(&Met::Item(Found { key, block, body }))?;
    visitor.meet(&Met::Fault(TreeFault::Malformed(block)))
}

// A regular extent of 8 sectors at 1 MiB, of which a file uses the second and third.
fn extent(alloc: Global, compression: u8) -> Result<Body, AllocError> {
    Body::new(alloc)
        .u64(7)?
        .u64(32768)?
        .u8(compression)?
        .zeros(3)?
        .u8(1)?
        .u64(1 << 20)?
        .u64(32768)?
        .u64(4096)?
        .u64(8192)
}

fn used(inode: u64, skip: u64, len: u64) -> UsedRange {
    UsedRange {
        inode,
        addr: 1 << 20,
        skip,
        len,
    }
}

fn met_runs(alloc: Global) -> Result<Runs, Fail> {
    let mut runs = Runs::new(alloc, SumKind::Crc32c);
    let body = Body::new(alloc).zeros(12)?;
    let sums = 0u64.wrapping_sub(10);
    meet(&mut runs, sums, item::EXTENT_CSUM, 8192, body.as_slice())?;
    meet(&mut runs, 5, item::EXTENT_DATA, 8192, body.as_slice())?;
    Ok(runs)
}

fn met_uses(alloc: Global) -> Result<Uses, Fail> {
    let mut uses = Uses::new(alloc);
    let plain = Body::new(alloc).zeros(160)?;
    let loose = Body::new(alloc).zeros(64)?.u64(3)?.zeros(88)?;
    meet(&mut uses, 257, item::INODE_ITEM, 0, plain.as_slice())?;
    meet(&mut uses, 258, item::INODE_ITEM, 0, loose.as_slice())?;
    meet(
        &mut uses,
        257,
        item::EXTENT_DATA,
        0,
        extent(alloc, 0)?.as_slice(),
    )?;
    meet(
        &mut uses,
        258,
        item::EXTENT_DATA,
        0,
        extent(alloc, 1)?.as_slice(),
    )?;
    Ok(uses)
}

#[test]
fn runs_and_uses_are_kept(rt: HostRuntime) -> Result<(), Fail> {
    keeps_law();
    let alloc = rt.alloc();
    let runs = met_runs(alloc)?;
    let run = SumRun {
        start: 8192,
        count: 3,
    };
    assert_eq!(rt; runs.as_slice(), [run].as_slice());
    let uses = met_uses(alloc)?;
    assert_eq!(rt; uses.loose(), [258].as_slice());
    let wanted = [used(257, 4096, 8192), used(258, 0, 32768)];
    assert_eq!(rt; uses.used(), wanted.as_slice());
    Ok(())
}
