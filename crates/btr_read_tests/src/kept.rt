// A tree block that a store keeps.
ghost use Rattle.std.specs.Prelude.{◌≤◌};
ghost use Rattle.btr_rack.specs.Memory.{seen_of};
ghost use Rattle.btr_read.specs.Serves.{Serves};
ghost use Rattle.btr_read.specs.Store.{free_count};

use crate::blocks::{BLOCK, Form, GOOD, block, put, seal, summed, tree};
use crate::given::{Given, fetches, had, ready, store_without};
use crate::shape::SINGLE;
use crate::volume::{images, open};
use btr_base::{Memory, SumKind, sum};
use btr_rack::MemRack;
use btr_read::{ReadFault, Want, fetch};
use std::alloc::Global;
use std::process::Abort;
use std::test::Fail;

// Makes two calls fail.
fn fail_two(rack: &mut MemRack, first: u64) -> Result<(), Memory> {
    rack.fail_call(first)?;
    rack.fail_call(first.wrapping_add(1))
}

// Whether a block is fetched with these bytes, without forgetting before what the store keeps.
fn is_fetched(want: &Want, rack: &mut MemRack, given: &mut Given, bytes: &[u8]) -> bool
    requires serves { Serves (seen_of rack.old) given.old.store }
    requires room { 4 ≤ free_count given.old.store }
{
    match fetch(want, rack, &mut given.store) {
        Ok(loan) => had(given, loan, bytes),
        Err(_) => false,
    }
}

// Whether a block is fetched twice with these bytes.
fn is_fetched_twice(
    rt: &impl Abort,
    want: &Want,
    rack: &mut MemRack,
    given: &mut Given,
    bytes: &[u8],
) -> bool {
    ready(rt, rack, given);
    match fetch(want, rack, &mut given.store) {
        Ok(loan) => {
            given.store.give(loan);
            is_fetched(want, rack, given, bytes)
        }
        Err(_) => false,
    }
}

// The first call opens the image, the second one reads the block, and all behind it fail.
#[test]
fn a_kept_block_is_read_once(rt: HostRuntime) -> Result<(), Fail> {
    let block = summed(&GOOD, 1);
    let mut rack = images(rt.alloc(), &SINGLE)?;
    put(&mut rack, 0, &block)?;
    open(&mut rack, &SINGLE)?;
    fail_two(&mut rack, 3)?;
    let mut given = store_without(&rt, rt.alloc(), &rack, &SINGLE, 0)?;
    let want = tree(9, 1);
    assert!(rt; is_fetched_twice(&rt, &want, &mut rack, &mut given, &block));
    let again = fetches(&rt, &want, &mut rack, &mut given, &block);
    assert_eq!(rt; again, Err(ReadFault::Unread(BLOCK, 0)));
    Ok(())
}

// Whether the block that is fetched is a good node, if both times that it is asked agree. Its loan is given back.
fn is_node(rt: &impl Abort, want: &Want, rack: &mut MemRack, given: &mut Given) -> Option<bool> {
    ready(rt, rack, given);
    let loan = fetch(want, rack, &mut given.store).ok()?;
    let first = given.store.has_node(&loan);
    let again = given.store.has_node(&loan);
    given.store.give(loan);
    if first != again {
        return None;
    }
    Some(first)
}

// The same of a tree block, by its level.
fn tells(
    rt: &impl Abort,
    alloc: Global,
    block: &[u8; 16384],
    level: u8,
) -> Result<Option<bool>, Fail> {
    let mut rack = images(alloc, &SINGLE)?;
    put(&mut rack, 0, block)?;
    open(&mut rack, &SINGLE)?;
    let mut given = store_without(rt, alloc, &rack, &SINGLE, 0)?;
    Ok(is_node(rt, &tree(9, level), &mut rack, &mut given))
}

// A leaf without items.
fn empty_leaf() -> [u8; 16384] {
    let form = Form { level: 0, ..GOOD };
    let mut bytes = block(&form, 1);
    for i in 0x60..0x64usize {
        bytes[i] = 0;
    }
    let right = sum(SumKind::Crc32c, &bytes[32..]);
    seal(&mut bytes, &right);
    bytes
}

#[test]
fn good_nodes_are_told(rt: HostRuntime) -> Result<(), Fail> {
    let leaf = empty_leaf();
    assert_eq!(rt; tells(&rt, rt.alloc(), &leaf, 0)?, Some(true));
    let noise = summed(&GOOD, 1);
    assert_eq!(rt; tells(&rt, rt.alloc(), &noise, 1)?, Some(false));
    Ok(())
}
