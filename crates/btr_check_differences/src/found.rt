// What was found of two trees so far.

use crate::inode_range::{InodeRange, put_range};
use btr_base::Memory;
use btr_walk::BlockPointer;
use std::alloc::Global;

// So many blocks are read, and so many ranges kept, before the trees are given up.
const MOST: usize = 1024;

/// The inodes by which two trees may differ, so far; and how many blocks may still be read.
#[derive(Drop)]
pub(crate) struct Found {
    pub(crate) alloc: Global,
    pub(crate) ranges: Vec<InodeRange>,
    left: usize,
}

impl Found {
    ghost use Rattle.std.specs.Prelude.{◌≡◌, ◌∷◌, [], OnSome};
    ghost use Rattle.btr_check_differences.specs.Ranges.{TakesAll};

    /// Nothing was found yet.
    pub(crate) fn new(alloc: Global) -> Found {
        Found {
            alloc,
            ranges: Vec::new(alloc),
            left: MOST,
        }
    }

    /// One more block is to be read. `None`: there were too many.
    pub(crate) fn spend(&mut self) -> Option<()>
        ensures { self.new.ranges ≡ self.old.ranges }
    {
        self.left = self.left.checked_sub(1)?;
        Some(())
    }

    /// Takes the inodes that may have items in a leaf at a pointer. `None`: there are too many.
    pub(crate) fn take_leaf(&mut self, pointer: &BlockPointer) -> Option<()>
        ensures { OnSome result
            (TakesAll self.old.ranges.items (pointer.now ∷ []) self.new.ranges.items) }
    {
        self.spend()?;
        match put_range(&mut self.ranges, InodeRange::of_leaf(pointer)) {
            Ok(()) => Some(()),
            Err(Memory) => None,
        }
    }
}
