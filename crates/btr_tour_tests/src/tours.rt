// Tours through trees of one to four levels.
ghost use Rattle.std.specs.Prelude.{◌≡◌};
ghost use Rattle.btr_rack.specs.Memory.{seen_of};
ghost use Rattle.btr_read.specs.Serves.{Serves};
ghost use Rattle.btr_read.specs.Store.{free_count};

use crate::volume::{Mark, NONE, START, rack_of, root, store_over, toured, toured_whole, tree};
use btr_make_blocks::Tree;
use btr_rack::MemRack;
use btr_read::Store;
use btr_walk::RootPlace;
use std::alloc::Global;
use std::process::Abort;
use std::test::Fail;

// Whether the items among some marks are the even numbers from one to another, of those below twice a count.
fn are_evens(marks: &[Mark], count: u64, lo: u64, hi: u64) -> bool {
    let end = count.wrapping_mul(2);
    let mut number = lo.wrapping_add(lo % 2);
    for mark in marks {
        if let Mark::Item(met) = mark {
            if *met != number || number >= end || number > hi {
                return false;
            }
            number = number.wrapping_add(2);
        }
    }
    number >= end || number > hi
}

// Whether the items among some marks have these numbers.
fn are_items(marks: &[Mark], numbers: &[u64]) -> bool {
    let mut met = 0;
    for mark in marks {
        if let Mark::Item(number) = mark {
            if numbers.get(met) != Some(number) {
                return false;
            }
            met += 1;
        }
    }
    met == numbers.len()
}

// The marks of a block, with a range of its items: each but the root has a pointer before it.
fn add_marks(
    marks: &mut Vec<Mark>,
    addr: u64,
    is_root: bool,
    first: u64,
    end: u64,
) -> Result<(), Fail> {
    if !is_root {
        marks.push(Mark::Child(addr))?;
    }
    marks.push(Mark::Block(addr))?;
    for n in first..end {
        marks.push(Mark::Item(n.wrapping_mul(2)))?;
    }
    Ok(())
}

// The marks of the tree of ten items: three leaves of three and one of one, two nodes above them, and the root.
fn marks_of_ten(alloc: Global, tree: &Tree) -> Result<Vec<Mark>, Fail> {
    let mut marks = Vec::new(alloc);
    let parts: [(usize, u64, u64); 7] = [
        (6, 0, 0),
        (4, 0, 0),
        (0, 0, 3),
        (1, 3, 6),
        (2, 6, 9),
        (5, 0, 0),
        (3, 9, 10),
    ];
    for (block, first, end) in parts {
        let addr = tree.blocks.get(block).ok_or("no such block")?.addr;
        add_marks(&mut marks, addr, block == 6, first, end)?;
    }
    Ok(marks)
}

#[test]
fn marks_in_preorder(rt: HostRuntime) -> Result<(), Fail> {
    let tree = tree(rt.alloc(), 10)?;
    let wanted = marks_of_ten(rt.alloc(), &tree)?;
    let mut rack = rack_of(rt.alloc(), &tree, &[], START)?;
    let marks = toured_whole(rt.alloc(), &mut rack, &root(&tree))?;
    assert_eq!(rt; marks.as_slice(), wanted.as_slice());
    Ok(())
}

// Tours through ranges of a tree, one after another by one store.
fn tour_ranges(
    rt: &impl Abort,
    alloc: Global,
    store: &mut Store,
    rack: &mut MemRack,
    root: &RootPlace,
    count: u64,
) -> Result<(), Fail>
    requires serves { Serves (seen_of rack.old) store.old }
    requires free { free_count store.old ≡ 24 }
{
    for (lo, hi) in [(0, 99), (1, 54), (4, 4), (5, 5), (6, 17), (55, 99), (17, 6)] {
        let marks = toured(alloc, store, rack, root, (lo, hi), NONE)?;
        assert!(rt;
            are_evens(marks.as_slice(), count, lo, hi),
            "{count}: {lo} to {hi}"
        );
    }
    Ok(())
}

fn tour_tree(rt: &impl Abort, alloc: Global, count: u64) -> Result<(), Fail> {
    let tree = tree(alloc, count)?;
    let mut rack = rack_of(alloc, &tree, &[], START)?;
    let mut store = store_over(alloc, &rack)?;
    tour_ranges(rt, alloc, &mut store, &mut rack, &root(&tree), count)
}

#[test]
fn ranges_of_trees(rt: HostRuntime) -> Result<(), Fail> {
    for count in [0, 1, 3, 4, 9, 10, 27, 28] {
        tour_tree(&rt, rt.alloc(), count)?;
    }
    Ok(())
}

// Tours through the tree of ten items that pass a block, one after another by one store.
fn pass_blocks(
    rt: &impl Abort,
    alloc: Global,
    store: &mut Store,
    rack: &mut MemRack,
    tree: &Tree,
) -> Result<(), Fail>
    requires serves { Serves (seen_of rack.old) store.old }
    requires free { free_count store.old ≡ 24 }
{
    let cases: [(usize, &[u64]); 4] = [
        (1, &[0, 2, 4, 12, 14, 16, 18]),
        (4, &[18]),
        (5, &[0, 2, 4, 6, 8, 10, 12, 14, 16]),
        (6, &[]),
    ];
    for (block, wanted) in cases {
        let passed = tree.blocks.get(block).ok_or("no such block")?.addr;
        let marks = toured(alloc, store, rack, &root(tree), (0, 99), passed)?;
        assert!(rt; are_items(marks.as_slice(), wanted), "block {block}");
    }
    Ok(())
}

#[test]
fn blocks_that_are_passed(rt: HostRuntime) -> Result<(), Fail> {
    let tree = tree(rt.alloc(), 10)?;
    let mut rack = rack_of(rt.alloc(), &tree, &[], START)?;
    let mut store = store_over(rt.alloc(), &rack)?;
    pass_blocks(&rt, rt.alloc(), &mut store, &mut rack, &tree)
}

// All marks of a tree, where one call fails.
fn toured_failing(alloc: Global, tree: &Tree, call: u64) -> Result<Vec<Mark>, Fail> {
    let mut rack = rack_of(alloc, tree, &[], START)?;
    rack.fail_call(call)?;
    toured_whole(alloc, &mut rack, &root(tree))
}

#[test]
fn calls_that_fail(rt: HostRuntime) -> Result<(), Fail> {
    let tree = tree(rt.alloc(), 28)?;
    for n in 1..30 {
        let marks = toured_failing(rt.alloc(), &tree, n)?;
        assert!(rt; are_evens(marks.as_slice(), 28, 0, 99), "call {n}");
    }
    Ok(())
}
