// Trees in an image in memory, and a walk through them.
ghost use Rattle.std.specs.Prelude.{◌≡◌, ◌<◌, ◌≤◌, IfOk, None, length};
ghost use Rattle.btr_rack.specs.Memory.{seen_of, slots_of};
ghost use Rattle.btr_read.specs.Serves.{Serves};
ghost use Rattle.btr_read.specs.Store.{free_count};
ghost use Rattle.btr_walk.specs.Lending.{IsLentOnly};
ghost use Rattle.btr_walk.specs.ScanEnds.{IsScanReady, without_leaf};

use btr_base::Key;
use btr_chunk::{Chunk, ChunkTable, Stripe};
use btr_make_blocks::{Body, Form, Items, Tree, bodies};
use btr_rack::{MemRack, Rack};
use btr_read::{Loan, Store};
use btr_walk::{RootPlace, Scan, TreeFault, find_le, next};
use std::alloc::{AllocError, Global};
use std::test::Fail;

/// Where the chunk begins, on the device too.
pub(crate) const START: u64 = 1048576;

/// How many bytes the chunk has.
pub(crate) const CHUNK: u64 = 4194304;

/// Small blocks, of which a leaf has three items and a node three pointers at most.
pub(crate) const FORM: Form = Form {
    nodesize: 4096,
    items: 3,
    pointers: 3,
    ..Form::DEFAULT
};

/// A stripe on the device, from an address on.
pub(crate) fn stripe(offset: u64) -> Stripe {
    Stripe {
        devid: 1,
        offset,
        uuid: [0; 16],
    }
}

// The item of a chunk with one copy.
fn item(alloc: Global) -> Result<Body, AllocError> {
    bodies::chunk_item(alloc, CHUNK, 2, &[stripe(START)])
}

/// A key of an item that is numbered.
pub(crate) fn key(n: u64) -> Key {
    Key {
        objectid: n,
        kind: 1,
        offset: 0,
    }
}

/// The tree of the items whose numbers are the even ones below twice `count`.
pub(crate) fn tree(alloc: Global, count: u64) -> Result<Tree, Fail> {
    tree_of(alloc, count, &FORM)
}

/// The same, with blocks of another form.
pub(crate) fn tree_of(alloc: Global, count: u64, form: &Form) -> Result<Tree, Fail> {
    let mut items = Items::new(alloc);
    for n in 0..count {
        items.put(n.wrapping_mul(2), 1, 0, Body::new(alloc).u64(n)?)?;
    }
    Ok(Tree::grow(alloc, form, START, items)?)
}

/// The place of its root.
pub(crate) fn root(tree: &Tree) -> RootPlace {
    RootPlace {
        addr: tree.root(),
        generation: FORM.generation,
        level: tree.level(),
    }
}

/// What is wrong with an image: bytes that stand over those from an address on, and the number of the call that fails. The first
/// call is the opening.
#[derive(Clone, Copy)]
pub(crate) struct Harm<'a> {
    pub(crate) bytes: &'a [u8],
    pub(crate) addr: u64,
    pub(crate) call: u64,
}

impl Harm<'static> {
    /// Nothing is wrong.
    pub(crate) const NONE: Harm<'static> = Harm {
        bytes: &[],
        addr: START,
        call: u64::MAX,
    };

    /// One call fails.
    pub(crate) fn of_call(call: u64) -> Harm<'static> {
        Harm { call, ..Harm::NONE }
    }
}

// Puts the tree into the image of a rack, and the bytes that are wrong over it.
fn fill(rack: &mut MemRack, tree: &Tree, harm: Harm<'_>) -> Result<(), Fail> {
    rack.add("a", 8388608)?;
    tree.put(rack, "a")?;
    rack.poke("a", harm.addr, harm.bytes)?;
    Ok(())
}

/// A rack with the tree in its one image, which is open, and with what is wrong.
pub(crate) fn rack_of(alloc: Global, tree: &Tree, harm: Harm<'_>) -> Result<MemRack, Fail>
    ensures { IfOk result (λ rack. 0 < length (slots_of rack)) }
{
    let mut rack = MemRack::new(alloc);
    fill(&mut rack, tree, harm)?;
    rack.open("a", false)?;
    rack.fail_call(harm.call)?;
    Ok(rack)
}

/// The store that reads the chunk from the first image.
pub(crate) fn store_over(alloc: Global, rack: &MemRack) -> Result<Store, Fail>
    requires { 0 < length (slots_of rack.now) }
    ensures serves { IfOk result (Serves (seen_of rack.now)) }
    ensures free { IfOk result (λ store. free_count store ≡ 24) }
{
    store_by(alloc, rack, item(alloc)?.as_slice())
}

// The table of the chunk of this item.
fn table(alloc: Global, item: &[u8]) -> Result<ChunkTable, Fail> {
    let mut chunks = ChunkTable::new(alloc);
    chunks.add(Chunk::read(alloc, START, item)?)?;
    Ok(chunks)
}

// The store that reads the chunk of this item from the first image.
fn store_by(alloc: Global, rack: &MemRack, item: &[u8]) -> Result<Store, Fail>
    requires { 0 < length (slots_of rack.now) }
    ensures serves { IfOk result (Serves (seen_of rack.now)) }
    ensures free { IfOk result (λ store. free_count store ≡ 24) }
{
    let chunks = table(alloc, item)?;
    let mut store = Store::new(alloc, FORM.sums, FORM.fsid, 4096, chunks)?;
    store.add_device(1, 0, rack.len(0), false)?;
    Ok(store)
}

/// The number of the next item.
pub(crate) fn step(
    store: &mut Store,
    scan: &mut Scan,
    rack: &mut MemRack,
) -> Result<Option<u64>, TreeFault>
    requires ready { IsScanReady (seen_of rack.old) store.old scan.old }
    requires free { free_count (without_leaf store.old scan.old) ≡ 24 }
    ensures ready { IsScanReady (seen_of rack.new) store.new scan.new }
    ensures free { free_count (without_leaf store.new scan.new) ≡ 24 }
{
    match next(store, scan, rack) {
        Ok(Some(found)) => Ok(Some(found.key.objectid)),
        Ok(None) => Ok(None),
        Err(fault) => Err(fault),
    }
}

/// The numbers of the next items, to the end or to a fault, with a pause before each where it is asked for.
pub(crate) fn collect(
    store: &mut Store,
    scan: &mut Scan,
    rack: &mut MemRack,
    is_pausing: bool,
    numbers: &mut Vec<u64>,
) -> Result<Option<TreeFault>, AllocError>
    requires ready { IsScanReady (seen_of rack.old) store.old scan.old }
    requires free { free_count (without_leaf store.old scan.old) ≡ 24 }
    ensures ready { IsScanReady (seen_of rack.new) store.new scan.new }
    ensures free { free_count (without_leaf store.new scan.new) ≡ 24 }
{
    for _ in 0..1000 {
        if is_pausing {
            scan.pause(store);
        }
        match step(store, scan, rack) {
            Ok(Some(number)) => numbers.push(number)?,
            Ok(None) => return Ok(None),
            Err(fault) => return Ok(Some(fault)),
        }
    }
    Ok(None)
}

/// The numbers of the items that a scan met, and the fault that ended it, if one did.
#[derive(Drop)]
pub(crate) struct Scanned {
    pub(crate) numbers: Vec<u64>,
    pub(crate) fault: Option<TreeFault>,
}

// A scan of a tree's items in a range, with a pause before each where it is asked for.
fn scan_range(
    alloc: Global,
    store: &mut Store,
    rack: &mut MemRack,
    root: &RootPlace,
    range: (u64, u64),
    is_pausing: bool,
) -> Result<Scanned, AllocError>
    requires serves { Serves (seen_of rack.old) store.old }
    requires free { free_count store.old ≡ 24 }
    ensures serves { Serves (seen_of rack.new) store.new }
    ensures free { free_count store.new ≡ 24 }
{
    let mut numbers = Vec::new(alloc);
    let (lo, hi) = range;
    let mut scan = Scan::new(root, key(lo), key(hi));
    let ended = collect(store, &mut scan, rack, is_pausing, &mut numbers);
    scan.finish(store);
    let fault = ended?;
    Ok(Scanned { numbers, fault })
}

// The number of the greatest item at or below one; the loan of its leaf is kept.
fn number_le(
    store: &mut Store,
    rack: &mut MemRack,
    root: &RootPlace,
    number: u64,
    loan: &mut Option<Loan>,
) -> Result<Option<u64>, TreeFault>
    requires serves { Serves (seen_of rack.old) store.old }
    requires room { 4 ≤ free_count store.old }
    requires empty { loan.old ≡ None }
    ensures { IsLentOnly (seen_of rack.new) store.old store.new loan.new }
{
    match find_le(store, root, key(number), rack, loan) {
        Ok(Some(found)) => Ok(Some(found.key.objectid)),
        Ok(None) => Ok(None),
        Err(fault) => Err(fault),
    }
}

// The number of the greatest item at or below one.
fn floor(
    store: &mut Store,
    rack: &mut MemRack,
    root: &RootPlace,
    number: u64,
) -> Result<Option<u64>, TreeFault>
    requires serves { Serves (seen_of rack.old) store.old }
    requires free { free_count store.old ≡ 24 }
    ensures serves { Serves (seen_of rack.new) store.new }
    ensures free { free_count store.new ≡ 24 }
{
    let mut loan = None;
    let found = number_le(store, rack, root, number, &mut loan);
    if let Some(loan) = loan {
        store.give(loan);
    }
    found
}

/// What was found in a tree: the items in a range, by two scans one after another, and the number of the greatest item at or below
/// the range's end.
#[derive(Drop)]
pub(crate) struct Reading {
    pub(crate) first: Scanned,
    pub(crate) again: Scanned,
    pub(crate) last: Result<Option<u64>, TreeFault>,
}

// Reads a tree by a store.
fn read_by(
    alloc: Global,
    store: &mut Store,
    rack: &mut MemRack,
    root: &RootPlace,
    range: (u64, u64),
    is_pausing: bool,
) -> Result<Reading, AllocError>
    requires serves { Serves (seen_of rack.old) store.old }
    requires free { free_count store.old ≡ 24 }
{
    let first = scan_range(alloc, store, rack, root, range, is_pausing)?;
    let again = scan_range(alloc, store, rack, root, range, is_pausing)?;
    let last = floor(store, rack, root, range.1);
    Ok(Reading { first, again, last })
}

/// Reads a tree in the chunk of this item, with a pause before each item of the scans where it is asked for.
pub(crate) fn read(
    alloc: Global,
    rack: &mut MemRack,
    item: &[u8],
    root: &RootPlace,
    range: (u64, u64),
    is_pausing: bool,
) -> Result<Reading, Fail>
    requires { 0 < length (slots_of rack.old) }
{
    let mut store = store_by(alloc, rack, item)?;
    Ok(read_by(alloc, &mut store, rack, root, range, is_pausing)?)
}

/// The same of a tree in a chunk with one copy.
pub(crate) fn read_tree(
    alloc: Global,
    tree: &Tree,
    harm: Harm<'_>,
    range: (u64, u64),
    is_pausing: bool,
) -> Result<Reading, Fail> {
    let item = item(alloc)?;
    let mut rack = rack_of(alloc, tree, harm)?;
    read(
        alloc,
        &mut rack,
        item.as_slice(),
        &root(tree),
        range,
        is_pausing,
    )
}
