// A block that is opened on the way through a tree.
ghost use Rattle.std.specs.Prelude.{◌≡◌, ◌≤◌, ◌&&◌, filter, length, IfOk, IsTrue, OnOk};
ghost use Rattle.btr_base.specs.Key.{key_le, last_key};
ghost use Rattle.btr_node.specs.Block.{items, pointers, is_leaf, is_inner};
ghost use Rattle.btr_tour.specs.Tour as tour;
ghost use Rattle.btr_tour.specs.Tour.{first_key, child_pointers, meets_keys};
ghost use Rattle.btr_check.specs.Passing.{IsAbove, Opens, OpensGood, WalksItem, WalksItems};
ghost use Rattle.btr_check.specs.Passing.{with_if};
ghost use Rattle.btr_walk.specs.Le.{want_of};
ghost use Rattle.btr_walk.specs.Showing.{item_of};
ghost use Rattle.btr_check.specs.Running.{world, CanCheck, Ran, StopsOutside};
ghost use Rattle.btr_check.specs.Wanted.{Only};

use crate::block_fault::BlockFault;
use crate::subtrees::{Edges, edge_of, join};
use crate::walk::Walk;
use btr_base::{FIRST_KEY, Key, LAST_KEY, Memory};
use btr_node::{Inner, Leaf};
use btr_rack::Rack;
use btr_volume::{Stop, Volume};
use btr_walk::{BlockPointer, Found, RootPlace, child_at, found_at, read_block};
use std::alloc::Global;

/// What a block came to: all of it was walked, with these ranges of files at its edges, or its
/// children are to come.
#[derive(Drop)]
pub(crate) enum Opened {
    Whole(Option<Edges>),
    Children(Vec<BlockPointer>),
}

// Whether a block at a pointer may have keys.
fn meets_keys(pointer: &BlockPointer) -> bool
    ensures { result ≡ meets_keys first_key last_key pointer.now }
{
    let ends_behind = match pointer.up {
        None => true,
        Some(up) => FIRST_KEY.is_before(up),
    };
    let begins_by = match pointer.first {
        None => true,
        Some(first) => !LAST_KEY.is_before(first),
    };
    ends_behind && begins_by
}

// Puts a child behind others, if it may have keys.
fn push_child(block_pointers: &mut Vec<BlockPointer>, pointer: BlockPointer) -> Result<(), Memory>
    ensures { OnOk result
        (block_pointers.new.items ≡ with_if (meets_keys first_key last_key) block_pointers.old.items pointer) }
{
    if !meets_keys(&pointer) {
        return Ok(());
    }
    match block_pointers.push(pointer) {
        Ok(()) => Ok(()),
        Err(_) => Err(Memory),
    }
}

// Where the children of an inner node stand, of which `up` is the bound.
fn children_of(alloc: Global, block: &[u8], up: Option<Key>) -> Result<Vec<BlockPointer>, Memory>
    requires header { 101 ≤ length block.now }
    requires good { IsTrue (is_inner block.now) }
    ensures { IfOk result (λ block_pointers. block_pointers.items
        ≡ filter (meets_keys first_key last_key) (child_pointers (pointers block.now) up)) }
{
    let inner = Inner::of(block);
    let mut block_pointers = Vec::new(alloc);
    for at in 0..inner.count() {
        push_child(&mut block_pointers, child_at(&inner, at, up))?;
    }
    Ok(block_pointers)
}

// Whether a key lies between the first and the last.
fn is_within(key: Key) -> bool
    ensures { result ≡ (key_le first_key key && key_le key last_key) }
{
    !key.is_before(FIRST_KEY) && !LAST_KEY.is_before(key)
}

// Walks an item behind others that have these edges.
fn walk_item(
    walk: &mut Walk,
    edges: Option<Edges>,
    found: &Found<'_>,
) -> Result<Option<Edges>, Memory>
    ensures { IfOk result (WalksItem (item_of found.now) walk.old walk.new edges) }
{
    if !is_within(found.key) {
        return Ok(edges);
    }
    let range = walk.meet_item(found)?;
    Ok(join(edges, edge_of(range)))
}

// Walks the items of a leaf at an address.
fn walk_items(walk: &mut Walk, addr: u64, block: &[u8]) -> Result<Option<Edges>, Memory>
    requires header { 101 ≤ length block.now }
    requires good { IsTrue (is_leaf block.now) }
    ensures { IfOk result (WalksItems addr (items block.now) walk.old walk.new) }
{
    let mut edges = None;
    for at in 0..Leaf::of(block).count() {
        edges = walk_item(walk, edges, &found_at(block, addr, at))?;
    }
    Ok(edges)
}

// Where the block of a level at a pointer stands.
fn place_of(level: u8, pointer: &BlockPointer) -> RootPlace
    ensures { result ≡ tour.place_of level pointer.now }
{
    RootPlace {
        addr: pointer.addr,
        generation: pointer.generation,
        level,
    }
}

// Walks a good block without its children.
fn walk_good(
    level: u8,
    pointer: &BlockPointer,
    walk: &mut Walk,
    block: &[u8],
) -> Result<Opened, Memory>
    requires header { 101 ≤ length block.now }
    requires leaf { level ≡ 0 → IsTrue (is_leaf block.now) }
    requires inner { (level ≡ 0 → ⊥) → IsTrue (is_inner block.now) }
    ensures above { IfOk result (IsAbove level) }
    ensures walked { IfOk result (OpensGood level pointer.now block.now walk.old walk.new) }
{
    walk.meet_block(&place_of(level, pointer))?;
    if level == 0 {
        let edges = walk_items(walk, pointer.addr, block)?;
        Ok(Opened::Whole(edges))
    } else {
        let block_pointers = children_of(walk.alloc(), block, pointer.up)?;
        Ok(Opened::Children(block_pointers))
    }
}

/// Walks the block of a level at a pointer, without its children. Four slots are free, and no loan is
/// kept.
///
/// `Tree`: it could not be read, which is `Unread`. `Memory`: there is no memory for what is kept.
pub(crate) fn open_block<R: Rack>(
    level: u8,
    pointer: &BlockPointer,
    walk: &mut Walk,
    rack: &mut R,
    vol: &mut Volume,
) -> Result<Opened, Stop>
    requires ready { CanCheck (world (R.seen rack.old) vol.old) }
    ensures outside { StopsOutside result }
    ensures above { IfOk result (IsAbove level) }
    ensures ran { Ran (Only (want_of level pointer.now))
        (λ fs. IfOk result (Opens fs level pointer.now walk.old walk.new))
        (world (R.seen rack.old) vol.old) (world (R.seen rack.new) vol.new) result }
{
    match read_block(level, pointer, rack, &mut vol.store) {
        Err(fault) => match BlockFault::of(fault) {
            None => Err(Stop::Tree(fault)),
            Some(left) => match walk.meet_fault(left) {
                Ok(()) => Ok(Opened::Whole(None)),
                Err(Memory) => Err(Stop::Memory),
            },
        },
        Ok(loan) => {
            let opened = walk_good(level, pointer, walk, vol.store.bytes(&loan));
            vol.store.give(loan);
            match opened {
                Ok(opened) => Ok(opened),
                Err(Memory) => Err(Stop::Memory),
            }
        }
    }
}
