ghost use Rattle.std.specs.Prelude.{◌≡◌, ◌+◌, ◌*◌, ◌-◌, ◌^◌, ◌<◌, ◌≤◌, length, map, IsTrue, IfNone, IfSome, take, drop, All};
ghost use Rattle.std.specs.List.{HoldsAt};
ghost use Rattle.btr_base.specs.Key.{key_number};
ghost use Rattle.btr_node.specs.Block.{ascends, pointers, pointer_at, is_inner};

use crate::Pointer;
use crate::table::{HEADER, LEVEL, entry_count, entry_key, first_from, keys_ascend, last_up_to};
use btr_base::{Key, u64_at};
use std::marker::Model;

const MAX_LEVEL: u8 = 7;

// The size of a pointer's entry: a key, the child's address and its generation.
const ENTRY: usize = 33;

const ADDR: usize = 17;

const GENERATION: usize = 25;

/// A good inner node, which contracts see as the list of its pointers.
#[derive(Drop)]
pub struct Inner<'a> {
    block: &'a [u8],
}

impl<'a> Model for Inner<'a> {
    ghost use Rattle.std.specs.Prelude.{◌≤◌, List, length, IsTrue};
    ghost use Rattle.btr_node.specs.Block.{KeyPointer, pointers, is_inner};

    ghost Value = { List KeyPointer };

    ghost view = { λ inner. pointers inner.block.now };

    ghost invariant = { λ inner. (101 ≤ length inner.block.now) × IsTrue (is_inner inner.block.now) };
}

impl<'a> Inner<'a> {
    /// The inner node of a block that is known to be a good one, without testing it again.
    pub fn of(block: &'a [u8]) -> Inner<'a>
        requires header { 101 ≤ length block.now }
        requires good { IsTrue (is_inner block.now) }
        ensures { result ≡ pointers block.now }
    {
        Inner { block }
    }

    /// How many pointers there are, at least one. Their keys ascend.
    pub fn count(&self) -> usize
        ensures all { result ≡ length self.now }
        ensures some { 0 < result }
        ensures small { result < 2 ^ 32 }
        ensures ascending { IsTrue (ascends (map (λ pointer. pointer.key) self.now)) }
    {
        entry_count(self.block)
    }

    /// The key of pointer `i`.
    pub fn key(&self, i: usize) -> Key
        requires { i < length self.now }
        ensures { HoldsAt (λ pointer. pointer.key ≡ result) self.now i }
    {
        entry_key(self.block, ENTRY, i)
    }

    /// Where the child of pointer `i` stands.
    pub fn child(&self, i: usize) -> Pointer
        requires { i < length self.now }
        ensures addr { HoldsAt (λ pointer. pointer.addr ≡ result.addr) self.now i }
        ensures generation { HoldsAt (λ pointer. pointer.generation ≡ result.generation) self.now i }
    {
        pointer_at(self.block, i)
    }

    /// The first pointer whose key is at or above a key, or the number of pointers where there is none.
    pub fn seek(&self, key: Key) -> usize
        ensures within { result ≤ length self.now }
        ensures small { result < 2 ^ 32 }
        ensures before { All (λ pointer. key_number pointer.key < key_number key) (take result self.now) }
        ensures behind { All (λ pointer. key_number key ≤ key_number pointer.key) (drop result self.now) }
    {
        first_from(self.block, ENTRY, self.count(), key)
    }

    /// The last pointer whose key is not above a key, or `None` where each is above it.
    pub fn seek_le(&self, key: Key) -> Option<usize>
        ensures some { 0 < length self.now }
        ensures none { IfNone result (All (λ pointer. key_number key < key_number pointer.key) self.now) }
        ensures within { IfSome result (λ last. last < length self.now) }
        ensures small { IfSome result (λ last. last < 2 ^ 32) }
        ensures before { IfSome result
            (λ last. All (λ pointer. key_number pointer.key ≤ key_number key) (take (last + 1) self.now)) }
        ensures behind { IfSome result
            (λ last. All (λ pointer. key_number key < key_number pointer.key) (drop (last + 1) self.now)) }
    {
        last_up_to(self.block, ENTRY, self.count(), key)
    }
}

// Where the child of pointer `i` stands.
fn pointer_at(block: &[u8], i: usize) -> Pointer
    requires { 101 + 33 * (i + 1) ≤ length block.now }
    ensures addr { result.addr ≡ (pointer_at block.now i).addr }
    ensures generation { result.generation ≡ (pointer_at block.now i).generation }
{
    let entry = HEADER + ENTRY * i;
    Pointer {
        addr: u64_at(block, entry + ADDR),
        generation: u64_at(block, entry + GENERATION),
    }
}

/// Whether a block is a good inner node.
pub(crate) fn is_inner(block: &[u8]) -> bool
    requires { 101 ≤ length block.now }
    ensures { result ≡ is_inner block.now }
{
    if block[LEVEL] == 0 || block[LEVEL] > MAX_LEVEL {
        return false;
    }
    let count = entry_count(block);
    if count == 0 || count > (block.len() - HEADER) / ENTRY {
        return false;
    }
    keys_ascend(block, ENTRY, count)
}
