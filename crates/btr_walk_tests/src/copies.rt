// Trees in two copies on one device, of which the first is that of another transaction.
ghost use Rattle.std.specs.Prelude.{◌<◌, IfOk, length};
ghost use Rattle.btr_rack.specs.Memory.{slots_of};

use crate::scans::is_even_run;
use crate::volume::{CHUNK, FORM, Reading, START, read, root, stripe, tree, tree_of};
use btr_make_blocks::{Body, Form, Tree, bodies};
use btr_rack::{MemRack, Rack};
use std::alloc::{AllocError, Global};
use std::test::Fail;

// Blocks that were written before.
const STALE: Form = Form {
    generation: FORM.generation - 1,
    ..FORM
};

// Where the second copy begins.
const SECOND: u64 = START + CHUNK;

// The item of a chunk with two copies.
fn item(alloc: Global) -> Result<Body, AllocError> {
    bodies::chunk_item(alloc, CHUNK, 0x22, &[stripe(START), stripe(SECOND)])
}

// Writes both copies of a tree, of which the first has the stale blocks at one level.
fn put(rack: &mut MemRack, tree: &Tree, stale: &Tree, level: u8) -> Result<(), Fail> {
    for (block, old) in tree.blocks.iter().zip(&stale.blocks) {
        let first = if block.level == level { old } else { block };
        rack.poke("a", block.addr, first.bytes.as_slice())?;
        rack.poke("a", block.addr.wrapping_add(CHUNK), block.bytes.as_slice())?;
    }
    Ok(())
}

fn rack_with(alloc: Global, tree: &Tree, stale: &Tree, level: u8) -> Result<MemRack, Fail>
    ensures { IfOk result (λ rack. 0 < length (slots_of rack)) }
{
    let mut rack = MemRack::new(alloc);
    rack.add("a", 16777216)?;
    put(&mut rack, tree, stale, level)?;
    rack.open("a", false)?;
    Ok(rack)
}

// The tree of so many items, with stale first copies at a level.
fn read_stale(alloc: Global, count: u64, level: u8) -> Result<Reading, Fail> {
    let tree = tree(alloc, count)?;
    let stale = tree_of(alloc, count, &STALE)?;
    let item = item(alloc)?;
    let mut rack = rack_with(alloc, &tree, &stale, level)?;
    read(
        alloc,
        &mut rack,
        item.as_slice(),
        &root(&tree),
        (0, 99),
        false,
    )
}

#[test]
fn stale_first_copies(rt: HostRuntime) -> Result<(), Fail> {
    for (count, level) in [
        (3, 0),
        (9, 0),
        (9, 1),
        (27, 0),
        (27, 1),
        (27, 2),
        (28, 0),
        (28, 1),
        (28, 2),
        (28, 3),
    ] {
        let found = read_stale(rt.alloc(), count, level)?;
        assert_eq!(rt; found.first.fault, None);
        assert_eq!(rt; found.last, Ok(Some(count.wrapping_mul(2).wrapping_sub(2))));
        assert!(rt; is_even_run(found.first.numbers.as_slice(), count, 0, 99));
    }
    Ok(())
}
