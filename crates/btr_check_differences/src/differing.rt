// By which inodes two trees differ.
ghost use Rattle.std.specs.Prelude.{◌≡◌, ◌+◌, ◌<◌, ◌++◌, true, drop, length, IfSome, OnSome};
ghost use Rattle.btr_check_differences.specs.Differing.{DifferAt};
ghost use Rattle.btr_check_differences.specs.Ranges.{AreIn, TakesAll, are_apart};
ghost use Rattle.btr_check_differences.specs.Reading.{IsReady, Read, world};

use crate::children::children_of;
use crate::found::Found;
use crate::inode_range::{InodeRange, are_apart};
use crate::shared::next_shared;
use btr_rack::Rack;
use btr_read::Store;
use btr_walk::BlockPointer;
use std::alloc::Global;

// Takes the inodes that may have items in some leaves. `None`: there are too many.
fn take_leaves(block_pointers: &[BlockPointer], found: &mut Found) -> Option<()>
    ensures { OnSome result (TakesAll found.old.ranges.items block_pointers.now found.new.ranges.items) }
{
    for pointer in block_pointers {
        found.take_leaf(pointer)?;
    }
    Some(())
}

// What is behind a place.
fn behind(block_pointers: &[BlockPointer], at: usize) -> &[BlockPointer]
    requires { at < length block_pointers.now }
    ensures { result.now ≡ drop (at + 1) block_pointers.now }
{
    &block_pointers[at + 1..]
}

// The same of the leaves of both trees.
fn take_both(before: &[BlockPointer], after: &[BlockPointer], found: &mut Found) -> Option<()>
    ensures { OnSome result
        (TakesAll found.old.ranges.items (before.now ++ after.now) found.new.ranges.items) }
{
    take_leaves(before, found)?;
    take_leaves(after, found)
}

// Takes the inodes by which two lists of blocks of a level differ.
#[cycle(differing)]
fn compare<R: Rack>(
    level: u8,
    before: &[BlockPointer],
    after: &[BlockPointer],
    found: &mut Found,
    rack: &mut R,
    store: &mut Store,
) -> Option<()>
    requires ready { IsReady (world (R.seen rack.old) store.old) }
    ensures kept { OnSome result (AreIn found.old.ranges.items found.new.ranges.items) }
    ensures read { Read
        (λ B. OnSome result (DifferAt B level before.now after.now found.new.ranges.items))
        (world (R.seen rack.old) store.old) (world (R.seen rack.new) store.new) }
{
    let mut before = before;
    let mut after = after;
    while let Some(at) = next_shared(before, after) {
        let (own, others) = (&before[..at.before], &after[..at.after]);
        match compare_own(level, own, others, found, rack, store) {
            None => return None,
            Some(()) => {}
        }
        before = behind(before, at.before);
        after = behind(after, at.after);
    }
    compare_own(level, before, after, found, rack, store)
}

// The same of lists that have no block in common.
#[cycle(differing)]
fn compare_own<R: Rack>(
    level: u8,
    before: &[BlockPointer],
    after: &[BlockPointer],
    found: &mut Found,
    rack: &mut R,
    store: &mut Store,
) -> Option<()>
    requires ready { IsReady (world (R.seen rack.old) store.old) }
    ensures kept { OnSome result (AreIn found.old.ranges.items found.new.ranges.items) }
    ensures read { Read
        (λ B. OnSome result (DifferAt B level before.now after.now found.new.ranges.items))
        (world (R.seen rack.old) store.old) (world (R.seen rack.new) store.new) }
{
    if level == 0 {
        return take_both(before, after, found);
    }
    match children_of(level, before, found, rack, store) {
        None => None,
        Some(before) => match children_of(level, after, found, rack, store) {
            None => None,
            Some(after) => {
                compare(
                    level - 1,
                    before.as_slice(),
                    after.as_slice(),
                    found,
                    rack,
                    store,
                )
            }
        },
    }
}

/// The inodes by which two trees may differ, where these are all blocks of one level in one of
/// them, and in the other: ranges that ascend and are apart. Four slots are free. Only blocks
/// that one tree alone has are read.
///
/// `None`: there are too many of these, one can't be had, or there is no memory.
pub fn find_differences<R: Rack>(
    alloc: Global,
    level: u8,
    before: &[BlockPointer],
    after: &[BlockPointer],
    rack: &mut R,
    store: &mut Store,
) -> Option<Vec<InodeRange>>
    requires ready { IsReady (world (R.seen rack.old) store.old) }
    ensures apart { IfSome result (λ ranges. are_apart ranges.items ≡ true) }
    ensures read { Read
        (λ B. IfSome result (λ ranges. DifferAt B level before.now after.now ranges.items))
        (world (R.seen rack.old) store.old) (world (R.seen rack.new) store.new) }
{
    let mut found = Found::new(alloc);
    match compare(level, before, after, &mut found, rack, store) {
        None => None,
        Some(()) => {
            if are_apart(found.ranges.as_slice()) {
                Some(found.ranges)
            } else {
                None
            }
        }
    }
}
