// Trees in an image in memory, and tours through them.
ghost use Rattle.std.specs.Prelude.{◌≡◌, ◌<◌, IfOk, length};
ghost use Rattle.btr_rack.specs.Memory.{seen_of, slots_of};
ghost use Rattle.btr_read.specs.Serves.{Serves};
ghost use Rattle.btr_read.specs.Store.{free_count};
ghost use Rattle.btr_tour.specs.TourEnds.{IsTourReady, without_leaf};

use btr_base::Key;
use btr_chunk::{Chunk, ChunkTable, Stripe};
use btr_make_blocks::{Body, Form, Items, Tree, bodies};
use btr_rack::{MemRack, Rack};
use btr_read::Store;
use btr_tour::{Met, Tour, next};
use btr_walk::{RootPlace, TreeFault};
use std::alloc::{AllocError, Global};
use std::test::Fail;

/// Where the chunk begins, on the device too.
pub(crate) const START: u64 = 1048576;

/// How long it is.
pub(crate) const CHUNK: u64 = 4194304;

/// No block has this address.
pub(crate) const NONE: u64 = 0;

/// Small blocks, of which a leaf has three items and a node three pointers at most.
pub(crate) const FORM: Form = Form {
    nodesize: 4096,
    items: 3,
    pointers: 3,
    ..Form::DEFAULT
};

/// What a tour met, without what it lends: a block and a pointer by the address of the block, an item by its number.
#[derive(Clone, Copy, Debug, PartialEq, Eq)]
pub(crate) enum Mark {
    Block(u64),
    Child(u64),
    Item(u64),
    Fault(TreeFault),
}

fn mark_of(met: &Met<'_>) -> Mark {
    match met {
        Met::Block { place, .. } => Mark::Block(place.addr),
        Met::Child { place, .. } => Mark::Child(place.addr),
        Met::Item(found) => Mark::Item(found.key.objectid),
        Met::Fault(fault) => Mark::Fault(*fault),
    }
}

// The item of a chunk with one copy.
fn item(alloc: Global) -> Result<Body, AllocError> {
    let stripe = Stripe {
        devid: 1,
        offset: START,
        uuid: [0; 16],
    };
    bodies::chunk_item(alloc, CHUNK, 2, &[stripe])
}

/// The key of an item that is numbered.
pub(crate) fn key(n: u64) -> Key {
    Key {
        objectid: n,
        kind: 1,
        offset: 0,
    }
}

/// The tree of the items whose numbers are the even ones below twice `count`.
pub(crate) fn tree(alloc: Global, count: u64) -> Result<Tree, Fail> {
    let mut items = Items::new(alloc);
    for n in 0..count {
        items.put(n.wrapping_mul(2), 1, 0, Body::new(alloc).u64(n)?)?;
    }
    Ok(Tree::grow(alloc, &FORM, START, items)?)
}

/// The place of its root.
pub(crate) fn root(tree: &Tree) -> RootPlace {
    RootPlace {
        addr: tree.root(),
        generation: FORM.generation,
        level: tree.level(),
    }
}

// Puts the tree into the image of a rack, and these bytes over those from an address on.
fn fill(rack: &mut MemRack, tree: &Tree, edited: &[u8], addr: u64) -> Result<(), Fail> {
    rack.add("a", 8388608)?;
    tree.put(rack, "a")?;
    rack.poke("a", addr, edited)?;
    Ok(())
}

/// A rack with the tree in its one image, which is open, and with these bytes over those from an address on.
pub(crate) fn rack_of(alloc: Global, tree: &Tree, edited: &[u8], addr: u64) -> Result<MemRack, Fail>
    ensures { IfOk result (λ rack. 0 < length (slots_of rack)) }
{
    let mut rack = MemRack::new(alloc);
    fill(&mut rack, tree, edited, addr)?;
    rack.open("a", false)?;
    Ok(rack)
}

// The table of the chunk.
fn chunks(alloc: Global) -> Result<ChunkTable, Fail> {
    let item = item(alloc)?;
    let mut chunks = ChunkTable::new(alloc);
    chunks.add(Chunk::read(alloc, START, item.as_slice())?)?;
    Ok(chunks)
}

/// The store that reads the chunk from the first image.
pub(crate) fn store_over(alloc: Global, rack: &MemRack) -> Result<Store, Fail>
    requires { 0 < length (slots_of rack.now) }
    ensures serves { IfOk result (Serves (seen_of rack.now)) }
    ensures free { IfOk result (λ store. free_count store ≡ 24) }
{
    let chunks = chunks(alloc)?;
    let mut store = Store::new(alloc, FORM.sums, FORM.fsid, 4096, chunks)?;
    store.add_device(1, 0, rack.len(0), false)?;
    Ok(store)
}

/// The next mark. What is below the block at an address is passed.
pub(crate) fn step(
    store: &mut Store,
    tour: &mut Tour,
    rack: &mut MemRack,
    passed: u64,
) -> Result<Option<Mark>, TreeFault>
    requires ready { IsTourReady (seen_of rack.old) store.old tour.old }
    requires free { free_count (without_leaf store.old tour.old) ≡ 24 }
    ensures ready { IsTourReady (seen_of rack.new) store.new tour.new }
    ensures free { free_count (without_leaf store.new tour.new) ≡ 24 }
{
    match next(store, tour, rack) {
        Ok(Some(Met::Block { place, .. })) => {
            if place.addr == passed {
                tour.pass();
            }
            Ok(Some(Mark::Block(place.addr)))
        }
        Ok(Some(met)) => Ok(Some(mark_of(&met))),
        Ok(None) => Ok(None),
        Err(fault) => Err(fault),
    }
}

// The next marks to the end. Where a block could not be read, it is tried again.
fn collect(
    store: &mut Store,
    tour: &mut Tour,
    rack: &mut MemRack,
    passed: u64,
    marks: &mut Vec<Mark>,
) -> Result<(), AllocError>
    requires ready { IsTourReady (seen_of rack.old) store.old tour.old }
    requires free { free_count (without_leaf store.old tour.old) ≡ 24 }
    ensures ready { IsTourReady (seen_of rack.new) store.new tour.new }
    ensures free { free_count (without_leaf store.new tour.new) ≡ 24 }
{
    for _ in 0..1000 {
        match step(store, tour, rack, passed) {
            Ok(Some(mark)) => marks.push(mark)?,
            Ok(None) => break,
            Err(_) => {}
        }
    }
    Ok(())
}

/// The marks of a tree in a range, without those below the block at an address.
pub(crate) fn toured(
    alloc: Global,
    store: &mut Store,
    rack: &mut MemRack,
    root: &RootPlace,
    range: (u64, u64),
    passed: u64,
) -> Result<Vec<Mark>, AllocError>
    requires serves { Serves (seen_of rack.old) store.old }
    requires free { free_count store.old ≡ 24 }
    ensures serves { Serves (seen_of rack.new) store.new }
    ensures free { free_count store.new ≡ 24 }
{
    let mut marks = Vec::new(alloc);
    let (lo, hi) = range;
    let mut tour = Tour::new(root, key(lo), key(hi), FORM.sums);
    let ended = collect(store, &mut tour, rack, passed, &mut marks);
    tour.finish(store);
    ended?;
    Ok(marks)
}

/// All marks of a tree in the image of a rack.
pub(crate) fn toured_whole(
    alloc: Global,
    rack: &mut MemRack,
    root: &RootPlace,
) -> Result<Vec<Mark>, Fail>
    requires { 0 < length (slots_of rack.old) }
{
    let mut store = store_over(alloc, rack)?;
    Ok(toured(alloc, &mut store, rack, root, (0, 99), NONE)?)
}
