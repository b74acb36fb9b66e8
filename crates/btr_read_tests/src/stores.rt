// The calls of a store, and addresses that have no position.
ghost use Rattle.btr_read.specs.Store.{IsLentBy, IsLiveIn};

use crate::given::{
    Given, HEADER_ID, NODE, empty_store, fetches, ready, store_without, with_device,
};
use crate::shape::{ELEMENT, RAID0, RAID5, SINGLE, START, Shape};
use crate::volume::{devid_of, open_images, table};
use btr_base::{SumKind, sum};
use btr_chunk::ChunkTable;
use btr_rack::MemRack;
use btr_read::{Device, Loan, ReadFault, Store, Want, fetch, passes};
use std::alloc::Global;
use std::process::Abort;
use std::test::Fail;

fn plain(addr: u64) -> Want {
    Want::Plain { addr }
}

// The device of a number, if it is given.
fn device(given: &Given, number: u64) -> Option<Device> {
    given.store.device(devid_of(number))
}

#[test]
fn a_store_is_filled(rt: HostRuntime) -> Result<(), Fail> {
    let rack = open_images(rt.alloc(), &SINGLE)?;
    let given = empty_store(rt.alloc(), &SINGLE, SumKind::Crc32c)?;
    assert_eq!(rt; device(&given, 0), None);
    let given = with_device(&rt, given, &rack, devid_of(0), 0, false)?;
    let first = Device {
        slot: 0,
        len: 12582912,
        older: false,
    };
    assert_eq!(rt; device(&given, 0), Some(first));
    assert_eq!(rt; device(&given, 1), None);
    Ok(())
}

fn has_chunk(given: &Given, addr: u64) -> bool {
    given.store.chunks().find(addr).is_some()
}

#[test]
fn chunks_are_replaced(rt: HostRuntime) -> Result<(), Fail> {
    let mut rack = open_images(rt.alloc(), &SINGLE)?;
    let mut given = store_without(&rt, rt.alloc(), &rack, &SINGLE, 0)?;
    assert!(rt; has_chunk(&given, START));
    given.store.replace_chunks(ChunkTable::new(rt.alloc()));
    assert_eq!(rt; given.store.chunks().count(), 0);
    let found = fetches(&rt, &plain(START), &mut rack, &mut given, &[]);
    assert_eq!(rt; found, Err(ReadFault::Unmapped(START)));
    Ok(())
}

// Lends a block that can be had.
fn lent(rt: &impl Abort, want: &Want, rack: &mut MemRack, given: &mut Given) -> Loan
    ensures { IsLentBy given.old.store given.new.store want.now result }
{
    ready(rt, rack, given);
    match fetch(want, rack, &mut given.store) {
        Ok(loan) => loan,
        Err(_) => panic!(rt; "it can be had"),
    }
}

fn is_slice(given: &Given, loan: &Loan, slice: u64) -> bool
    requires { IsLiveIn given.now.store loan.now }
{
    given.store.bytes(loan) == RAID5.slice(0, slice).as_slice()
}

// Lends slice 1 beside slice 0, and gives both back.
fn lend_second(rt: &impl Abort, rack: &mut MemRack, given: &mut Given, first: Loan)
    requires { IsLiveIn given.old.store first }
{
    let second = lent(rt, &plain(RAID5.addr(0, 1)), rack, given);
    assert!(rt; given.store.free() == 22);
    assert!(rt; is_slice(given, &first, 0));
    assert!(rt; is_slice(given, &second, 1));
    given.store.give(first);
    assert!(rt; given.store.free() == 23);
    assert!(rt; is_slice(given, &second, 1));
    given.store.give(second);
}

#[test]
fn loans_are_apart(rt: HostRuntime) -> Result<(), Fail> {
    let mut rack = open_images(rt.alloc(), &RAID5)?;
    let mut given = store_without(&rt, rt.alloc(), &rack, &RAID5, 0b0010)?;
    let first = lent(&rt, &plain(RAID5.addr(0, 0)), &mut rack, &mut given);
    lend_second(&rt, &mut rack, &mut given, first);
    assert!(rt; given.store.free() == 24);
    Ok(())
}

#[test]
fn bytes_pass(rt: HostRuntime) -> Result<(), Fail> {
    let table = table(rt.alloc(), &SINGLE)?;
    let store = Store::new(rt.alloc(), SumKind::Sha256, HEADER_ID, NODE, table)?;
    let bytes = SINGLE.slice(0, 0);
    let sum = sum(SumKind::Sha256, &bytes);
    let sector = Want::Sector { addr: START, sum };
    assert!(rt; passes(&sector, &store, &bytes));
    assert!(rt; !passes(&sector, &store, &[0; 4096]));
    assert!(rt; passes(&Want::Plain { addr: START }, &store, &[0; 4096]));
    assert!(rt; !passes(&Want::Block { addr: 0 }, &store, &[0; 16384]));
    Ok(())
}

// What a want comes to that crosses an element's end, where the chunk is striped.
fn over(addr: u64, is_striped: bool, else_is: Result<bool, ReadFault>) -> Result<bool, ReadFault> {
    if is_striped {
        Err(ReadFault::Crosses(addr))
    } else {
        else_is
    }
}

// Fetches what isn't tested from a chunk, which ends at `end` and holds zeros there.
fn ask_plain(rt: &impl Abort, rack: &mut MemRack, given: &mut Given, end: u64, is_striped: bool) {
    let sector = end.wrapping_sub(4096);
    let crossing = sector.wrapping_add(1);
    let within = START + ELEMENT - 1;
    for (addr, answer) in [
        (START - 1, Err(ReadFault::Unmapped(START - 1))),
        (end, Err(ReadFault::Unmapped(end))),
        (u64::MAX, Err(ReadFault::Unmapped(u64::MAX))),
        (sector, Ok(true)),
        (crossing, Err(ReadFault::Crosses(crossing))),
        (within, over(within, is_striped, Ok(true))),
    ] {
        let found = fetches(rt, &plain(addr), rack, given, &[0; 4096]);
        assert_eq!(rt; found, answer, "{addr}");
    }
}

// Fetches tree blocks from the chunk, which has none.
fn ask_blocks(rt: &impl Abort, rack: &mut MemRack, given: &mut Given, end: u64, is_striped: bool) {
    let block = end.wrapping_sub(16384);
    let crossing = block.wrapping_add(4096);
    let within = START + ELEMENT - 4096;
    for (addr, answer) in [
        (block, Err(ReadFault::Lost(block))),
        (crossing, Err(ReadFault::Crosses(crossing))),
        (
            within,
            over(within, is_striped, Err(ReadFault::Lost(within))),
        ),
    ] {
        let found = fetches(rt, &Want::Block { addr }, rack, given, &[0; 4096]);
        assert_eq!(rt; found, answer, "{addr}");
    }
}

fn ask(
    rt: &impl Abort,
    alloc: Global,
    shape: &Shape,
    elements: u64,
    is_striped: bool,
) -> Result<(), Fail> {
    let mut rack = open_images(alloc, shape)?;
    let mut given = store_without(rt, alloc, &rack, shape, 0)?;
    let end = START.wrapping_add(elements.wrapping_mul(ELEMENT));
    ask_plain(rt, &mut rack, &mut given, end, is_striped);
    ask_blocks(rt, &mut rack, &mut given, end, is_striped);
    Ok(())
}

#[test]
fn wants_have_positions(rt: HostRuntime) -> Result<(), Fail> {
    ask(&rt, rt.alloc(), &SINGLE, 2, false)?;
    ask(&rt, rt.alloc(), &RAID0, 6, true)
}
