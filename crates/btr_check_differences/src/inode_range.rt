// Ranges of inodes.
ghost use Rattle.std.specs.Prelude.{◌≡◌, ◌+◌, ◌<◌, ◌&&◌, drop, length, OnOk};
ghost use Rattle.std.specs.List.{HoldsAt};
ghost use Rattle.btr_check_differences.specs.Ranges.{BeginsAt, EndsAt, Takes, are_apart, is_before};
ghost use Rattle.btr_check_differences.specs.Ranges.{is_range};

use btr_base::{Key, Memory};
use btr_findings::push;
use btr_walk::BlockPointer;

/// Inodes from one number to another, both included.
#[derive(Clone, Copy, Debug, PartialEq, Eq)]
pub struct InodeRange {
    /// The first of them.
    pub first: u64,
    /// The last of them.
    pub last: u64,
}

// The inode of the first key of a block, if that is known.
fn first_inode(first: Option<Key>) -> u64
    ensures { BeginsAt first result }
{
    match first {
        None => 0,
        Some(first) => first.objectid,
    }
}

// The inode of the bound of a block, if there is one.
fn last_inode(up: Option<Key>) -> u64
    ensures { EndsAt up result }
{
    match up {
        None => u64::MAX,
        Some(up) => up.objectid,
    }
}

impl InodeRange {
    ghost use Rattle.std.specs.Prelude.{◌≡◌};
    ghost use Rattle.btr_check_differences.specs.Ranges.{Covers, Joins, high, low};

    /// The inodes that may have items in a leaf at a pointer.
    pub(crate) fn of_leaf(pointer: &BlockPointer) -> InodeRange
        ensures { Covers pointer.now result }
    {
        InodeRange {
            first: first_inode(pointer.first),
            last: last_inode(pointer.up),
        }
    }

    /// The first key that an item of these inodes can have.
    pub(crate) fn low(&self) -> Key
        ensures { result ≡ low self.now }
    {
        Key {
            objectid: self.first,
            kind: 0,
            offset: 0,
        }
    }

    /// The last one.
    pub(crate) fn high(&self) -> Key
        ensures { result ≡ high self.now }
    {
        Key {
            objectid: self.last,
            kind: u8::MAX,
            offset: u64::MAX,
        }
    }

    // The inodes of two ranges, and those between them.
    fn join(self, other: InodeRange) -> InodeRange
        ensures { Joins self other result }
    {
        InodeRange {
            first: self.first.min(other.first),
            last: self.last.max(other.last),
        }
    }
}

/// Puts a range behind others, joined to the last one where it begins in that or before.
pub(crate) fn put_range(ranges: &mut Vec<InodeRange>, range: InodeRange) -> Result<(), Memory>
    ensures { OnOk result (Takes ranges.old.items range ranges.new.items) }
{
    match ranges.pop() {
        None => push(ranges, range),
        Some(last) => {
            if range.first <= last.last {
                return push(ranges, last.join(range));
            }
            push(ranges, last)?;
            push(ranges, range)
        }
    }
}

// Whether the range at a place ends where it begins or behind, and before the next one begins.
fn is_in_order(ranges: &[InodeRange], at: usize) -> bool
    requires { at < length ranges.now }
    ensures { HoldsAt (λ range. result ≡ (is_range range
        && is_before range (drop (at + 1) ranges.now))) ranges.now at }
{
    let range = &ranges[at];
    let next = at + 1;
    range.first <= range.last && (next == ranges.len() || range.last < ranges[next].first)
}

/// Whether ranges ascend, and no two of them meet.
pub(crate) fn are_apart(ranges: &[InodeRange]) -> bool
    ensures { result ≡ are_apart ranges.now }
{
    let mut from = ranges.len();
    while from > 0 {
        from -= 1;
        if !is_in_order(ranges, from) {
            return false;
        }
    }
    true
}
