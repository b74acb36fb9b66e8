// Two trees in an image in memory that share most of their blocks.
ghost use Rattle.std.specs.Prelude.{◌≡◌, ◌<◌, IfOk, length};
ghost use Rattle.btr_rack.specs.Memory.{seen_of, slots_of};
ghost use Rattle.btr_read.specs.Serves.{Serves};
ghost use Rattle.btr_read.specs.Store.{free_count};

use btr_base::{Key, sum};
use btr_chunk::{Chunk, ChunkTable, Stripe};
use btr_make_blocks::{Block, Body, Form, Items, Tree, bodies};
use btr_rack::{MemRack, Rack};
use btr_read::Store;
use btr_walk::{BlockPointer, RootPlace};
use std::alloc::{AllocError, Global};
use std::test::Fail;

// Where the chunk begins, on the device too, and how long it is.
const START: u64 = 1048576;

const CHUNK: u64 = 4194304;

/// Where the second tree has its own leaf, node and root.
pub(crate) const LEAF: u64 = START + 1048576;

pub(crate) const NODE: u64 = LEAF + 4096;

pub(crate) const ROOT: u64 = NODE + 4096;

/// Small blocks, of which a leaf has three items and a node three pointers at most.
pub(crate) const FORM: Form = Form {
    nodesize: 4096,
    items: 3,
    pointers: 3,
    ..Form::DEFAULT
};

/// The tree of twenty items, whose inodes are the even numbers below forty: leaves 0 to 6, nodes
/// 7 to 9, and the root 10.
pub(crate) fn tree(alloc: Global) -> Result<Tree, Fail> {
    let mut items = Items::new(alloc);
    for n in 0..20u64 {
        items.put(n.wrapping_mul(2), 1, 0, Body::new(alloc).u64(n)?)?;
    }
    Ok(Tree::grow(alloc, &FORM, START, items)?)
}

// Writes a number into a block.
fn write(block: &mut [u8], at: usize, number: u64) {
    if let Some(place) = block.get_mut(at..at.saturating_add(8)) {
        place.copy_from_slice(&number.to_le_bytes());
    }
}

// A block of a tree as it stands at another address, with another number at a place, and its
// checksum.
fn moved(
    alloc: Global,
    block: &Block,
    addr: u64,
    at: usize,
    number: u64,
) -> Result<Vec<u8>, AllocError> {
    let mut copy = block.bytes.as_slice().to_vec(alloc)?;
    write(&mut copy, 48, addr);
    write(&mut copy, at, number);
    if let Some((sealing, rest)) = copy.split_at_mut_checked(32) {
        sealing.copy_from_slice(&sum(FORM.sums, rest).bytes);
    }
    Ok(copy)
}

// Puts a tree into the image of a rack, and beside it the own blocks of a second one: its leaf is
// the fifth one with another last byte of an item, its node has that leaf for its second child,
// and its root that node.
fn fill(alloc: Global, rack: &mut MemRack, tree: &Tree) -> Result<(), Fail> {
    rack.add("a", 8388608)?;
    tree.put(rack, "a")?;
    for (index, addr, at, number) in [
        (4, LEAF, 4088, 7),
        (8, NODE, 151, LEAF),
        (10, ROOT, 151, NODE),
    ] {
        let block = tree.blocks.get(index).ok_or("no such block")?;
        let copy = moved(alloc, block, addr, at, number)?;
        rack.poke("a", addr, copy.as_slice())?;
    }
    Ok(())
}

/// A rack with the two trees in its one image, which is open.
pub(crate) fn rack_of(alloc: Global, tree: &Tree) -> Result<MemRack, Fail>
    ensures { IfOk result (λ rack. 0 < length (slots_of rack)) }
{
    let mut rack = MemRack::new(alloc);
    fill(alloc, &mut rack, tree)?;
    rack.open("a", false)?;
    Ok(rack)
}

// The table of the chunk, which has one copy.
fn chunks(alloc: Global) -> Result<ChunkTable, Fail> {
    let stripe = Stripe {
        devid: 1,
        offset: START,
        uuid: [0; 16],
    };
    let item = bodies::chunk_item(alloc, CHUNK, 2, &[stripe])?;
    let mut chunks = ChunkTable::new(alloc);
    chunks.add(Chunk::read(alloc, START, item.as_slice())?)?;
    Ok(chunks)
}

/// The store that reads the chunk from the first image.
pub(crate) fn store_over(alloc: Global, rack: &MemRack) -> Result<Store, Fail>
    requires { 0 < length (slots_of rack.now) }
    ensures serves { IfOk result (Serves (seen_of rack.now)) }
    ensures free { IfOk result (λ store. free_count store ≡ 24) }
{
    let chunks = chunks(alloc)?;
    let mut store = Store::new(alloc, FORM.sums, FORM.fsid, 4096, chunks)?;
    store.add_device(1, 0, rack.len(0), false)?;
    Ok(store)
}

/// The place of a root of these trees.
pub(crate) fn root_at(addr: u64) -> RootPlace {
    RootPlace {
        addr,
        generation: FORM.generation,
        level: 2,
    }
}

// The key of an inode's item.
fn key(inode: u64) -> Key {
    Key {
        objectid: inode,
        kind: 1,
        offset: 0,
    }
}

/// The nodes below the root, of which the second one stands at an address.
pub(crate) fn nodes(tree: &Tree, second: u64) -> [BlockPointer; 3] {
    let addr = |index: usize| tree.blocks.get(index).map_or(0, |block| block.addr);
    let generation = FORM.generation;
    [
        BlockPointer {
            addr: addr(7),
            generation,
            first: Some(key(0)),
            up: Some(key(18)),
        },
        BlockPointer {
            addr: second,
            generation,
            first: Some(key(18)),
            up: Some(key(36)),
        },
        BlockPointer {
            addr: addr(9),
            generation,
            first: Some(key(36)),
            up: None,
        },
    ]
}
