// The items of a tree in the image of a device: by a scan of all of them, and by lookups.
ghost use Rattle.std.specs.Prelude.{◌≡◌, ◌<◌, ◌≤◌, None, IfOk};
ghost use Rattle.btr_rack.specs.Memory.{seen_of};
ghost use Rattle.btr_read.specs.Serves.{Serves};
ghost use Rattle.btr_read.specs.Store.{free_count};
ghost use Rattle.btr_walk.specs.Lending.{IsLentOnly};
ghost use Rattle.btr_walk.specs.ScanEnds.{IsScanReady, without_leaf};

use crate::image::{FSID, GENERATION, KIND, START, image_with, store_over};
use btr_base::Key;
use btr_make_blocks::{Body, Form, Items, Tree};
use btr_rack::MemRack;
use btr_read::{Loan, Store};
use btr_walk::{RootPlace, Scan, find_le, next};
use std::alloc::{AllocError, Global};

/// How the items of a tree are had.
#[derive(Clone, Copy, Debug, PartialEq, Eq)]
pub enum Walk {
    /// One after the other, by a scan.
    Scan,
    /// By as many lookups of the greatest item at or below a key, at keys that follow no order.
    FindLe,
}

const NODESIZE: u32 = 16384;

const FORM: Form = Form {
    sums: KIND,
    fsid: FSID,
    nodesize: NODESIZE as usize,
    generation: GENERATION,
    ..Form::DEFAULT
};

// The key of an item, by its number.
fn key(number: u64) -> Key {
    Key {
        objectid: number,
        kind: 1,
        offset: 0,
    }
}

// The tree of so many items, with 16 bytes in each.
fn tree_of(alloc: Global, count: u64) -> Result<Tree, AllocError> {
    let mut items = Items::new(alloc);
    for number in 0..count {
        let body = Body::new(alloc).u64(number)?.u64(number)?;
        items.put(number, 1, 0, body)?;
    }
    Tree::grow(alloc, &FORM, START, items).map_err(|_| AllocError)
}

// Whether a scan has one more item, which it takes.
fn takes_next(store: &mut Store, scan: &mut Scan, rack: &mut MemRack) -> bool
    requires ready { IsScanReady (seen_of rack.old) store.old scan.old }
    requires free { free_count (without_leaf store.old scan.old) ≡ 24 }
    ensures ready { IsScanReady (seen_of rack.new) store.new scan.new }
    ensures free { free_count (without_leaf store.new scan.new) ≡ 24 }
{
    match next(store, scan, rack) {
        Ok(Some(_)) => true,
        Ok(None) => false,
        Err(_) => false,
    }
}

// How many items a scan takes, `count` at most.
fn take_all(store: &mut Store, scan: &mut Scan, rack: &mut MemRack, count: u64) -> u64
    requires ready { IsScanReady (seen_of rack.old) store.old scan.old }
    requires free { free_count (without_leaf store.old scan.old) ≡ 24 }
    ensures ready { IsScanReady (seen_of rack.new) store.new scan.new }
    ensures free { free_count (without_leaf store.new scan.new) ≡ 24 }
    ensures most { result ≤ count }
{
    let mut taken = 0;
    for _item in 0..count {
        if takes_next(store, scan, rack) {
            taken += 1;
        }
    }
    taken
}

// How many items one scan has, `count` at most.
fn scanned(root: &RootPlace, store: &mut Store, rack: &mut MemRack, count: u64) -> u64
    requires serves { Serves (seen_of rack.old) store.old }
    requires free { free_count store.old ≡ 24 }
    ensures serves { Serves (seen_of rack.new) store.new }
    ensures free { free_count store.new ≡ 24 }
    ensures most { result ≤ count }
{
    let mut scan = Scan::new(root, key(0), key(count));
    let taken = take_all(store, &mut scan, rack, count);
    scan.finish(store);
    taken
}

// Whether there is an item at or below a key; the loan of its leaf is kept.
fn is_found(
    root: &RootPlace,
    store: &mut Store,
    rack: &mut MemRack,
    number: u64,
    loan: &mut Option<Loan>,
) -> bool
    requires serves { Serves (seen_of rack.old) store.old }
    requires room { 4 ≤ free_count store.old }
    requires empty { loan.old ≡ None }
    ensures { IsLentOnly (seen_of rack.new) store.old store.new loan.new }
{
    match find_le(store, root, key(number), rack, loan) {
        Ok(Some(_)) => true,
        Ok(None) => false,
        Err(_) => false,
    }
}

// Whether there is an item at or below a key.
fn finds(root: &RootPlace, store: &mut Store, rack: &mut MemRack, number: u64) -> bool
    requires serves { Serves (seen_of rack.old) store.old }
    requires free { free_count store.old ≡ 24 }
    ensures serves { Serves (seen_of rack.new) store.new }
    ensures free { free_count store.new ≡ 24 }
{
    let mut loan = None;
    let found = is_found(root, store, rack, number, &mut loan);
    if let Some(loan) = loan {
        store.give(loan);
    }
    found
}

// How many of `count` lookups at keys in no order find an item.
fn found(root: &RootPlace, store: &mut Store, rack: &mut MemRack, count: u64) -> u64
    requires serves { Serves (seen_of rack.old) store.old }
    requires free { free_count store.old ≡ 24 }
    ensures serves { Serves (seen_of rack.new) store.new }
    ensures free { free_count store.new ≡ 24 }
    ensures most { result ≤ count }
{
    let mut found = 0;
    let mut state = 1u64;
    for _lookup in 0..count {
        state = state
            .wrapping_mul(6364136223846793005)
            .wrapping_add(1442695040888963407);
        if finds(root, store, rack, (state >> 32) % count) {
            found += 1;
        }
    }
    found
}

// How many items one turn has, `count` at most.
fn turn(walk: Walk, root: &RootPlace, store: &mut Store, rack: &mut MemRack, count: u64) -> u64
    requires serves { Serves (seen_of rack.old) store.old }
    requires free { free_count store.old ≡ 24 }
    ensures serves { Serves (seen_of rack.new) store.new }
    ensures free { free_count store.new ≡ 24 }
    ensures most { result ≤ count }
{
    match walk {
        Walk::Scan => scanned(root, store, rack, count),
        Walk::FindLe => found(root, store, rack, count),
    }
}

// How many items the last of `times` turns has.
fn last_turn(
    walk: Walk,
    root: &RootPlace,
    store: &mut Store,
    rack: &mut MemRack,
    count: u64,
    times: u64,
) -> u64
    requires serves { Serves (seen_of rack.old) store.old }
    requires free { free_count store.old ≡ 24 }
    ensures { result ≤ count }
{
    let mut had = 0;
    for _turn in 0..times {
        had = turn(walk, root, store, rack, count);
    }
    had
}

/// Puts a tree of so many items on a rack, has them in each turn, and answers how many the last turn had. `AllocError`: there
/// is no memory for the image or the store.
pub fn run(alloc: Global, walk: Walk, count: u64, times: u64) -> Result<u64, AllocError>
    ensures { IfOk result (λ had. had ≤ count) }
{
    let tree = tree_of(alloc, count)?;
    let root = RootPlace {
        addr: tree.root(),
        generation: GENERATION,
        level: tree.level(),
    };
    let mut rack = image_with(alloc, &tree)?;
    let mut store = store_over(alloc, NODESIZE, &rack)?;
    Ok(last_turn(walk, &root, &mut store, &mut rack, count, times))
}
