// Folds of the items of trees.
ghost use Rattle.std.specs.Prelude.{◌≡◌, List, ℕ, [], ◌∷◌, ◌++◌, Some, None};
ghost use Rattle.btr_rack.specs.Memory.{seen_of};
ghost use Rattle.btr_read.specs.Serves.{Serves};
ghost use Rattle.btr_read.specs.Store.{free_count};
ghost use Rattle.btr_walk.specs.Folds.{Go, End};

use crate::volume::{Harm, START, key, rack_of, root, store_over, tree};
use btr_rack::MemRack;
use btr_read::Store;
use btr_walk::{FoldFault, Folder, Found, RootPlace, Took, TreeFault, fold};
use std::alloc::{AllocError, Global};
use std::convert::Infallible;
use std::marker::Model;
use std::test::Fail;

// The number of the first item, if there is one.
#[derive(Drop)]
struct First {
    found: Option<u64>,
}

impl Folder<Option<u64>, Infallible> for First {
    ghost step = { λ first item. End (Some item.key.objectid) };

    ghost answer = { λ first. first.found };

    fn take(&mut self, item: &Found<'_>) -> Result<Took<Option<u64>>, Infallible> {
        Ok(Took::End(Some(item.key.objectid)))
    }

    fn end(self) -> Option<u64> {
        self.found
    }
}

// The numbers of all items.
#[derive(Drop)]
struct Numbers {
    numbers: Vec<u64>,
}

impl Model for Numbers {
    ghost Value = { List ℕ };

    ghost view = { λ n. n.numbers.items };
}

impl Folder<Numbers, AllocError> for Numbers {
    ghost step = { λ numbers item. Go (numbers ++ item.key.objectid ∷ []) };

    ghost answer = { λ numbers. numbers };

    fn take(&mut self, item: &Found<'_>) -> Result<Took<Numbers>, AllocError> {
        self.numbers.push(item.key.objectid)?;
        Ok(Took::Go)
    }

    fn end(self) -> Numbers {
        self
    }
}

// The number of the first item from `lo` to `hi`.
fn first_number(
    store: &mut Store,
    rack: &mut MemRack,
    root: &RootPlace,
    lo: u64,
    hi: u64,
) -> Result<Option<u64>, FoldFault<Infallible>>
    requires serves { Serves (seen_of rack.old) store.old }
    requires free { free_count store.old ≡ 24 }
    ensures serves { Serves (seen_of rack.new) store.new }
    ensures free { free_count store.new ≡ 24 }
{
    fold(root, key(lo), key(hi), rack, store, First { found: None })
}

// The numbers of the items from `lo` to `hi`.
fn all_numbers(
    alloc: Global,
    store: &mut Store,
    rack: &mut MemRack,
    root: &RootPlace,
    lo: u64,
    hi: u64,
) -> Result<Numbers, FoldFault<AllocError>>
    requires serves { Serves (seen_of rack.old) store.old }
    requires free { free_count store.old ≡ 24 }
    ensures serves { Serves (seen_of rack.new) store.new }
    ensures free { free_count store.new ≡ 24 }
{
    let none = Numbers {
        numbers: Vec::new(alloc),
    };
    fold(root, key(lo), key(hi), rack, store, none)
}

// What folds answered: the number of the first item, and those of all items.
#[derive(Drop)]
struct Folded {
    first: Result<Option<u64>, FoldFault<Infallible>>,
    all: Result<Numbers, FoldFault<AllocError>>,
}

// The folds of the items from `lo` to `hi` by a store.
fn fold_by(
    alloc: Global,
    store: &mut Store,
    rack: &mut MemRack,
    root: &RootPlace,
    lo: u64,
    hi: u64,
) -> Folded
    requires serves { Serves (seen_of rack.old) store.old }
    requires free { free_count store.old ≡ 24 }
{
    let all = all_numbers(alloc, store, rack, root, lo, hi);
    let first = first_number(store, rack, root, lo, hi);
    Folded { first, all }
}

// The folds of the items from `lo` to `hi` in the tree of ten items, where one call fails.
fn fold_both(alloc: Global, call: u64, lo: u64, hi: u64) -> Result<Folded, Fail> {
    let tree = tree(alloc, 10)?;
    let mut rack = rack_of(alloc, &tree, Harm::of_call(call))?;
    let mut store = store_over(alloc, &rack)?;
    Ok(fold_by(alloc, &mut store, &mut rack, &root(&tree), lo, hi))
}

// Whether the folds gave the first number, and all numbers.
fn gave(found: &Folded, first: Option<u64>, numbers: &[u64]) -> bool {
    match (&found.first, &found.all) {
        (Ok(number), Ok(all)) => *number == first && all.numbers.as_slice() == numbers,
        _ => false,
    }
}

#[test]
fn folds_of_a_tree(rt: HostRuntime) -> Result<(), Fail> {
    let cases: [(u64, u64, Option<u64>, &[u64]); 4] = [
        (3, 12, Some(4), &[4, 6, 8, 10, 12]),
        (0, 3, Some(0), &[0, 2]),
        (5, 5, None, &[]),
        (19, 99, None, &[]),
    ];
    for (lo, hi, first, numbers) in cases {
        let found = fold_both(rt.alloc(), u64::MAX, lo, hi)?;
        assert!(rt; gave(&found, first, numbers), "{lo} to {hi}");
    }
    Ok(())
}

// Whether a fold gave ten items, or failed where a block could not be read.
fn is_cut_short(all: &Result<Numbers, FoldFault<AllocError>>) -> bool {
    match all {
        Ok(all) => all.numbers.len() == 10,
        Err(FoldFault::Tree(TreeFault::Unread(addr, slot))) => *addr >= START && *slot == 0,
        Err(_) => false,
    }
}

#[test]
fn folds_that_fail(rt: HostRuntime) -> Result<(), Fail> {
    for n in 2..12 {
        let found = fold_both(rt.alloc(), n, 0, 99)?;
        assert!(rt; is_cut_short(&found.all), "call {n}");
    }
    Ok(())
}
