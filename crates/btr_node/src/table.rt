// The table behind a block's header. Its entries have one size, and each begins with a key.
ghost use Rattle.std.specs.Prelude.{◌≡◌, ℕ, ◌+◌, ◌*◌, ◌^◌, ◌<◌, ◌≤◌, length, map, IfNone, IfSome};
ghost use Rattle.std.specs.List.{range_with_len};
ghost use Rattle.btr_base.specs.Key.{key_number};
ghost use Rattle.btr_node.specs.Block.{level_of, entry_count, entry_key, entry_number, ascends, IsAscending};

use btr_base::{Key, u32_at};

/// The size of a block's header.
pub(crate) const HEADER: usize = 101;

// Where the header has the number of entries and the level.
const COUNT: usize = 96;

pub(crate) const LEVEL: usize = 100;

/// The level that the header of a block states, 0 for a leaf.
pub fn level(block: &[u8]) -> u8
    requires { 101 ≤ length block.now }
    ensures { result ≡ level_of block.now }
{
    block[LEVEL]
}

/// How many entries the header states.
pub(crate) fn entry_count(block: &[u8]) -> usize
    requires { 101 ≤ length block.now }
    ensures count { result ≡ entry_count block.now }
    ensures small { result < 2 ^ 32 }
{
    u32_at(block, COUNT) as usize
}

/// The key of entry `i`.
pub(crate) fn entry_key(block: &[u8], size: usize, i: usize) -> Key
    requires wide { 17 ≤ size }
    requires fits { 101 + size * (i + 1) ≤ length block.now }
    ensures { result ≡ entry_key size block.now i }
{
    Key::read(&block[HEADER + size * i..])
}

/// Whether the keys of the first `count` entries ascend strictly.
pub(crate) fn keys_ascend(block: &[u8], size: usize, count: usize) -> bool
    requires wide { 17 ≤ size }
    requires fits { 101 + size * count ≤ length block.now }
    ensures { result ≡ ascends (map (entry_key size block.now) (range_with_len 0 count)) }
{
    for i in 1..count {
        if !entry_key(block, size, i - 1).is_before(entry_key(block, size, i)) {
            return false;
        }
    }
    true
}

/// The first entry whose key is at or above a key, or `count` where there is none, by binary search.
pub(crate) fn first_from(block: &[u8], size: usize, count: usize, key: Key) -> usize
    requires wide { 17 ≤ size }
    requires fits { 101 + size * count ≤ length block.now }
    requires ascending { IsAscending (entry_number size block.now) count }
    ensures within { result ≤ count }
    ensures before { (i : ℕ) → i < result → entry_number size block.now i < key_number key }
    ensures behind { (i : ℕ) → result ≤ i → i < count → key_number key ≤ entry_number size block.now i }
{
    let mut low = 0;
    let mut high = count;
    while low < high {
        let middle = low + (high - low) / 2;
        if entry_key(block, size, middle).is_before(key) {
            low = middle + 1;
        } else {
            high = middle;
        }
    }
    low
}

/// The last entry whose key is not above a key, or `None` where each is above it.
pub(crate) fn last_up_to(block: &[u8], size: usize, count: usize, key: Key) -> Option<usize>
    requires wide { 17 ≤ size }
    requires fits { 101 + size * count ≤ length block.now }
    requires ascending { IsAscending (entry_number size block.now) count }
    ensures none { IfNone result ((i : ℕ) → i < count → key_number key < entry_number size block.now i) }
    ensures within { IfSome result (λ last. last < count) }
    ensures before { IfSome result (λ last. (i : ℕ) → i ≤ last → entry_number size block.now i ≤ key_number key) }
    ensures behind { IfSome result
        (λ last. (i : ℕ) → last < i → i < count → key_number key < entry_number size block.now i) }
{
    let first = first_from(block, size, count, key);
    if first < count && !key.is_before(entry_key(block, size, first)) {
        return Some(first);
    }
    first.checked_sub(1)
}
