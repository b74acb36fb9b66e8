ghost use Rattle.std.specs.Prelude.{◌≡◌, ◌+◌, ◌*◌, ◌-◌, ◌^◌, ◌<◌, ◌≤◌, length, map, IsTrue, IfSome, IfNone, take, drop, All};
ghost use Rattle.std.specs.List.{HoldsAt};
ghost use Rattle.btr_base.specs.Key.{key_number};
ghost use Rattle.btr_node.specs.Block.{ascends, items, item_at, packs_first, is_leaf};
ghost use Rattle.btr_node.specs.LeafItem.{item_of};

use crate::table::{HEADER, LEVEL, entry_count, entry_key, first_from, keys_ascend, last_up_to};
use crate::{Items, LeafItem};
use btr_base::{Key, u32_at};
use std::marker::Model;

// The size of an item's entry: a key, the offset of the item's bytes and their number.
const ENTRY: usize = 25;

const OFFSET: usize = 17;

const SIZE: usize = 21;

/// A good leaf, which contracts see as the list of its items.
#[derive(Drop)]
pub struct Leaf<'a> {
    block: &'a [u8],
}

impl<'a> Model for Leaf<'a> {
    ghost use Rattle.std.specs.Prelude.{◌≤◌, List, length, IsTrue};
    ghost use Rattle.btr_node.specs.Block.{Item, items, is_leaf};

    ghost Value = { List Item };

    ghost view = { λ leaf. items leaf.block.now };

    ghost invariant = { λ leaf. (101 ≤ length leaf.block.now) × IsTrue (is_leaf leaf.block.now) };
}

impl<'a> Leaf<'a> {
    /// The leaf of a block that is known to be a good one, without testing it again.
    pub fn of(block: &'a [u8]) -> Leaf<'a>
        requires header { 101 ≤ length block.now }
        requires good { IsTrue (is_leaf block.now) }
        ensures { result ≡ items block.now }
    {
        Leaf { block }
    }

    /// How many items there are. Their keys ascend.
    pub fn count(&self) -> usize
        ensures all { result ≡ length self.now }
        ensures small { result < 2 ^ 32 }
        ensures ascending { IsTrue (ascends (map (λ item. item.key) self.now)) }
    {
        entry_count(self.block)
    }

    /// The key of item `i`.
    pub fn key(&self, i: usize) -> Key
        requires { i < length self.now }
        ensures { HoldsAt (λ item. item.key ≡ result) self.now i }
    {
        entry_key(self.block, ENTRY, i)
    }

    /// Where the bytes of item `i` begin, counted from the header's end.
    pub fn offset(&self, i: usize) -> u32
        requires { i < length self.now }
        ensures { HoldsAt (λ item. item.offset ≡ result) self.now i }
    {
        item_offset(self.block, i)
    }

    /// The bytes of item `i`, which are a part of the block.
    pub fn body(&self, i: usize) -> &'a [u8]
        requires { i < length self.now }
        ensures bytes { HoldsAt (λ item. item.body ≡ result.now) self.now i }
        ensures size { HoldsAt (λ item. item.size ≡ length result.now) self.now i }
    {
        let block = self.block;
        let begin = HEADER + item_offset(block, i) as usize;
        let size = item_size(block, i) as usize;
        &block[begin..begin + size]
    }

    /// Item `i`.
    pub fn item(&self, i: usize) -> LeafItem<'a>
        requires { i < length self.now }
        ensures { HoldsAt (λ item. item ≡ item_of result) self.now i }
    {
        LeafItem {
            key: self.key(i),
            offset: self.offset(i),
            body: self.body(i),
        }
    }

    /// The items from item `first` on.
    pub fn items_from(&self, first: usize) -> Items<'a>
        requires { first ≤ length self.now }
        ensures { result ≡ drop first self.now }
    {
        Items::from_place(self.block, first)
    }

    /// The first item whose key is at or above a key, or the number of items where there is none.
    pub fn seek(&self, key: Key) -> usize
        ensures within { result ≤ length self.now }
        ensures small { result < 2 ^ 32 }
        ensures before { All (λ item. key_number item.key < key_number key) (take result self.now) }
        ensures behind { All (λ item. key_number key ≤ key_number item.key) (drop result self.now) }
    {
        first_from(self.block, ENTRY, self.count(), key)
    }

    /// The last item whose key is not above a key, or `None` where each is above it.
    pub fn seek_le(&self, key: Key) -> Option<usize>
        ensures none { IfNone result (All (λ item. key_number key < key_number item.key) self.now) }
        ensures within { IfSome result (λ last. last < length self.now) }
        ensures small { IfSome result (λ last. last < 2 ^ 32) }
        ensures before { IfSome result
            (λ last. All (λ item. key_number item.key ≤ key_number key) (take (last + 1) self.now)) }
        ensures behind { IfSome result
            (λ last. All (λ item. key_number key < key_number item.key) (drop (last + 1) self.now)) }
    {
        last_up_to(self.block, ENTRY, self.count(), key)
    }
}

// Where the bytes of item `i` begin, counted from the header's end.
fn item_offset(block: &[u8], i: usize) -> u32
    requires { 101 + 25 * (i + 1) ≤ length block.now }
    ensures { result ≡ (item_at block.now i).offset }
{
    u32_at(block, HEADER + ENTRY * i + OFFSET)
}

// How many bytes the table says that item `i` has.
fn item_size(block: &[u8], i: usize) -> u32
    requires { 101 + 25 * (i + 1) ≤ length block.now }
    ensures { result ≡ (item_at block.now i).size }
{
    u32_at(block, HEADER + ENTRY * i + SIZE)
}

/// Whether a block is a good leaf.
pub(crate) fn is_leaf(block: &[u8]) -> bool
    requires { 101 ≤ length block.now }
    ensures { result ≡ is_leaf block.now }
{
    let count = entry_count(block);
    if block[LEVEL] != 0 || count > (block.len() - HEADER) / ENTRY {
        return false;
    }
    is_packed(block, count) && keys_ascend(block, ENTRY, count)
}

// Whether the bytes of the first `count` items fill the block from its end downwards, none before the table's end.
fn is_packed(block: &[u8], count: usize) -> bool
    requires { 101 + 25 * count ≤ length block.now }
    ensures { result ≡ packs_first block.now count }
{
    let mut end = block.len() - HEADER;
    for i in 0..count {
        let offset = item_offset(block, i) as usize;
        let size = item_size(block, i) as usize;
        if offset + size != end {
            return false;
        }
        end = offset;
    }
    end >= ENTRY * count
}
