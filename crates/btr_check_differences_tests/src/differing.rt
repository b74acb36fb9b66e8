// By which inodes trees differ.
use crate::volume::{FORM, NODE, ROOT, nodes, rack_of, root_at, store_over, tree};
use btr_base::Memory;
use btr_check_differences::{InodeRange, find_differences, visit_ranges};
use btr_tour::{Met, Visitor};
use std::alloc::Global;
use std::test::Fail;

// Refuses an item of this inode.
#[derive(Drop)]
struct Look(u64);

impl Visitor<Memory> for Look {
    ghost step = { λ look mark. look };

    fn meet(&mut self, met: &Met<'_>) -> Result<(), Memory> {
        match met {
            Met::Item(found) if found.key.objectid == self.0 => Err(Memory),
            _ => Ok(()),
        }
    }
}

// The ranges by which the tree differs from the one whose second node stands at an address, or at
// the tree's own.
fn ranges_of(alloc: Global, second: Option<u64>) -> Result<Option<Vec<InodeRange>>, Fail> {
    let tree = tree(alloc)?;
    let own = tree.blocks.get(8).map_or(0, |node| node.addr);
    let mut rack = rack_of(alloc, &tree)?;
    let mut store = store_over(alloc, &rack)?;
    let (before, after) = (nodes(&tree, own), nodes(&tree, second.unwrap_or(own)));
    Ok(find_differences(alloc, 1, &before, &after, &mut rack, &mut store))
}

#[test]
fn trees_that_are_the_same(rt: HostRuntime) -> Result<(), Fail> {
    let ranges = ranges_of(rt.alloc(), None)?;
    assert!(rt; ranges.is_some_and(|ranges| ranges.is_empty()));
    Ok(())
}

// The fifth leaf has the inodes 24, 26 and 28, and ends before 30.
#[test]
fn trees_that_differ_by_a_leaf(rt: HostRuntime) -> Result<(), Fail> {
    let ranges = ranges_of(rt.alloc(), Some(NODE))?.ok_or("no answer")?;
    let wanted = [InodeRange {
        first: 24,
        last: 30,
    }];
    assert_eq!(rt; ranges.as_slice(), wanted.as_slice());
    Ok(())
}

#[test]
fn a_block_that_cannot_be_had(rt: HostRuntime) -> Result<(), Fail> {
    let ranges = ranges_of(rt.alloc(), Some(4096))?;
    assert!(rt; ranges.is_none());
    Ok(())
}

// Whether an item of an inode is met in the second tree, where the inodes from 1 to 3 and from 24
// to 30 are visited.
fn is_met(alloc: Global, inode: u64) -> Result<bool, Fail> {
    let tree = tree(alloc)?;
    let mut rack = rack_of(alloc, &tree)?;
    let mut store = store_over(alloc, &rack)?;
    let ranges = [
        InodeRange { first: 1, last: 3 },
        InodeRange {
            first: 24,
            last: 30,
        },
    ];
    let root = root_at(ROOT);
    let mut look = Look(inode);
    let done = visit_ranges(&root, &ranges, FORM.sums, &mut rack, &mut store, &mut look);
    Ok(done.is_none())
}

#[test]
fn items_of_ranges(rt: HostRuntime) -> Result<(), Fail> {
    for inode in [2, 24, 26, 28, 30] {
        assert!(rt; is_met(rt.alloc(), inode)?);
    }
    for inode in [0, 4, 22, 32] {
        assert!(rt; !is_met(rt.alloc(), inode)?);
    }
    Ok(())
}
