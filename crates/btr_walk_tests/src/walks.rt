// Walks over the blocks of trees.
ghost use Rattle.std.specs.Prelude.{◌≡◌};
ghost use Rattle.btr_rack.specs.Memory.{seen_of};
ghost use Rattle.btr_read.specs.Serves.{Serves};
ghost use Rattle.btr_read.specs.Store.{free_count};
ghost use Rattle.btr_walk.specs.Preorder.{IsReadyFor, without_block};

use crate::volume::{Harm, START, rack_of, root, store_over, tree};
use btr_make_blocks::Tree;
use btr_rack::MemRack;
use btr_read::Store;
use btr_walk::{BlockScan, FoundBlock, RootPlace, TreeFault, next_block};
use std::alloc::{AllocError, Global};
use std::test::Fail;

// Whether a block's bytes have its level.
fn has_level(found: &FoundBlock<'_>) -> bool {
    found.bytes.get(100) == Some(&found.level)
}

// The address of the next block, and whether its bytes are a block of that level.
fn step(
    store: &mut Store,
    scan: &mut BlockScan,
    rack: &mut MemRack,
) -> Result<Option<(u64, bool)>, TreeFault>
    requires ready { IsReadyFor (seen_of rack.old) store.old scan.old }
    requires free { free_count (without_block store.old scan.old) ≡ 24 }
    ensures ready { IsReadyFor (seen_of rack.new) store.new scan.new }
    ensures free { free_count (without_block store.new scan.new) ≡ 24 }
{
    match next_block(store, scan, rack) {
        Ok(Some(found)) => Ok(Some((found.addr, has_level(&found)))),
        Ok(None) => Ok(None),
        Err(fault) => Err(fault),
    }
}

// The addresses of the next blocks, to the end or to a fault.
fn collect(
    store: &mut Store,
    scan: &mut BlockScan,
    rack: &mut MemRack,
    addrs: &mut Vec<u64>,
) -> Result<Option<TreeFault>, AllocError>
    requires ready { IsReadyFor (seen_of rack.old) store.old scan.old }
    requires free { free_count (without_block store.old scan.old) ≡ 24 }
    ensures ready { IsReadyFor (seen_of rack.new) store.new scan.new }
    ensures free { free_count (without_block store.new scan.new) ≡ 24 }
{
    for _ in 0..1000 {
        match step(store, scan, rack) {
            Ok(Some((addr, true))) => addrs.push(addr)?,
            Ok(Some((_, false))) => return Ok(None),
            Ok(None) => return Ok(None),
            Err(fault) => return Ok(Some(fault)),
        }
    }
    Ok(None)
}

// What a walk met: the addresses of the blocks in preorder, and the fault that ended it, if one did.
#[derive(Drop)]
struct Walk {
    addrs: Vec<u64>,
    fault: Option<TreeFault>,
}

// A walk over the blocks of a tree.
fn walked(
    alloc: Global,
    store: &mut Store,
    rack: &mut MemRack,
    root: &RootPlace,
) -> Result<Walk, AllocError>
    requires serves { Serves (seen_of rack.old) store.old }
    requires free { free_count store.old ≡ 24 }
    ensures serves { Serves (seen_of rack.new) store.new }
    ensures free { free_count store.new ≡ 24 }
{
    let mut addrs = Vec::new(alloc);
    let mut scan = BlockScan::new(root);
    let ended = collect(store, &mut scan, rack, &mut addrs);
    scan.finish(store);
    let fault = ended?;
    Ok(Walk { addrs, fault })
}

// Two walks over a tree one after another, the first of which may fail.
#[derive(Drop)]
struct Walks {
    first: Walk,
    again: Walk,
}

// Two walks over a tree by a store.
fn walk_by(
    alloc: Global,
    store: &mut Store,
    rack: &mut MemRack,
    root: &RootPlace,
) -> Result<Walks, AllocError>
    requires serves { Serves (seen_of rack.old) store.old }
    requires free { free_count store.old ≡ 24 }
{
    let first = walked(alloc, store, rack, root)?;
    let again = walked(alloc, store, rack, root)?;
    Ok(Walks { first, again })
}

// Two walks over a tree, where one call fails.
fn walk_twice(alloc: Global, tree: &Tree, call: u64) -> Result<Walks, Fail> {
    let mut rack = rack_of(alloc, tree, Harm::of_call(call))?;
    let mut store = store_over(alloc, &rack)?;
    Ok(walk_by(alloc, &mut store, &mut rack, &root(tree))?)
}

// Whether some blocks of a tree are those of these numbers.
fn are_blocks(addrs: &[u64], tree: &Tree, numbers: &[usize]) -> bool {
    for (place, number) in numbers.iter().enumerate() {
        let Some(block) = tree.blocks.get(*number) else {
            return false;
        };
        if addrs.get(place) != Some(&block.addr) {
            return false;
        }
    }
    addrs.len() == numbers.len()
}

// The tree of ten items: three leaves of three and one of one, two nodes above them, and the root.
#[test]
fn blocks_in_preorder(rt: HostRuntime) -> Result<(), Fail> {
    let tree = tree(rt.alloc(), 10)?;
    let found = walk_twice(rt.alloc(), &tree, u64::MAX)?.first;
    assert_eq!(rt; found.fault, None);
    assert!(rt; are_blocks(found.addrs.as_slice(), &tree, &[6, 4, 0, 1, 2, 5, 3]));
    Ok(())
}

// Whether a walk met so many blocks, or ended where a block could not be read.
fn is_cut_short(walk: &Walk, count: usize) -> bool {
    let met = walk.addrs.len();
    match walk.fault {
        None => met == count,
        Some(TreeFault::Unread(addr, slot)) => addr >= START && slot == 0 && met < count,
        Some(_) => false,
    }
}

#[test]
fn walks_that_fail(rt: HostRuntime) -> Result<(), Fail> {
    let tree = tree(rt.alloc(), 28)?;
    let count = tree.blocks.len();
    for n in 2..22 {
        let found = walk_twice(rt.alloc(), &tree, n)?;
        assert!(rt; is_cut_short(&found.first, count));
        assert_eq!(rt; found.again.fault, None);
        assert_eq!(rt; found.again.addrs.len(), count);
    }
    Ok(())
}
