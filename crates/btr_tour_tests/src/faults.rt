// Tours through a tree of which a block is wrong.
use crate::volume::{CHUNK, FORM, Mark, START, rack_of, root, toured_whole, tree};
use btr_base::sum;
use btr_make_blocks::{Block, Tree};
use btr_walk::TreeFault;
use std::alloc::{AllocError, Global};
use std::test::Fail;

// The addresses that are written into a pointer: no chunk has the first, and from the second on the chunk has only half a block.
const UNMAPPED: u64 = 4096;

const CROSSING: u64 = START + CHUNK - 2048;

// Writes bytes into a block, and its checksum anew.
fn edit(block: &mut [u8], at: usize, bytes: &[u8]) {
    if let Some(place) = block.get_mut(at..at.saturating_add(bytes.len())) {
        place.copy_from_slice(bytes);
    }
    if let Some((sealing, rest)) = block.split_at_mut_checked(32) {
        sealing.copy_from_slice(&sum(FORM.sums, rest).bytes);
    }
}

// A block of a tree with bytes written into it.
fn copy_of(alloc: Global, block: &Block, at: usize, bytes: &[u8]) -> Result<Vec<u8>, AllocError> {
    let mut copy = block.bytes.as_slice().to_vec(alloc)?;
    edit(&mut copy, at, bytes);
    Ok(copy)
}

// All marks of a tree, of which a block was edited.
fn toured_edited(
    alloc: Global,
    tree: &Tree,
    block: &Block,
    at: usize,
    bytes: &[u8],
) -> Result<Vec<Mark>, Fail> {
    let copy = copy_of(alloc, block, at, bytes)?;
    let mut rack = rack_of(alloc, tree, copy.as_slice(), block.addr)?;
    toured_whole(alloc, &mut rack, &root(tree))
}

// The one fault among the marks of the tree of ten items, where its items that are met are all but those from `first` on up to
// before `end`.
fn fault_among(marks: &[Mark], first: u64, end: u64) -> Option<TreeFault> {
    let mut number = 0;
    let mut found = None;
    for mark in marks {
        match mark {
            Mark::Item(met) => {
                if number == first {
                    number = end;
                }
                if *met != number {
                    return None;
                }
                number = number.wrapping_add(2);
            }
            Mark::Fault(fault) => {
                if found.is_some() {
                    return None;
                }
                found = Some(*fault);
            }
            Mark::Block(_) | Mark::Child(_) => {}
        }
    }
    if number == 20 || number == first && end == 20 {
        found
    } else {
        None
    }
}

// The one fault of a tour of the tree of ten items, of which a block was edited, and the address of that block; the items
// that are met are all but those from `first` on up to before `end`.
fn fault_of(
    alloc: Global,
    block: usize,
    at: usize,
    bytes: &[u8],
    lost: (u64, u64),
) -> Result<(u64, Option<TreeFault>), Fail> {
    let tree = tree(alloc, 10)?;
    let edited = tree.blocks.get(block).ok_or("no such block")?;
    let marks = toured_edited(alloc, &tree, edited, at, bytes)?;
    let (first, end) = lost;
    Ok((edited.addr, fault_among(marks.as_slice(), first, end)))
}

#[test]
fn blocks_that_are_malformed(rt: HostRuntime) -> Result<(), Fail> {
    // A block's header has its count at 96; the first entry's key is at 101. An entry of a leaf has 25 bytes, one of a node 33.
    let cases: [(usize, usize, &[u8], (u64, u64)); 6] = [
        // The first key isn't the pointer's.
        (1, 101, &[7], (6, 12)),
        (4, 101, &[1], (0, 18)),
        // The last key isn't below the bound.
        (0, 151, &[6], (0, 6)),
        (4, 167, &[18], (0, 18)),
        // The keys don't ascend.
        (2, 126, &[12], (12, 18)),
        // A node without pointers.
        (5, 96, &[0], (18, 20)),
    ];
    for (block, at, bytes, lost) in cases {
        let (addr, fault) = fault_of(rt.alloc(), block, at, bytes, lost)?;
        assert_eq!(rt; fault, Some(TreeFault::Malformed(addr)));
    }
    Ok(())
}

#[test]
fn blocks_that_are_lost(rt: HostRuntime) -> Result<(), Fail> {
    // Another generation, at 80, and another level, at 100.
    let cases: [(usize, usize, (u64, u64)); 4] = [
        (3, 80, (18, 20)),
        (3, 100, (18, 20)),
        (4, 80, (0, 18)),
        (6, 80, (0, 20)),
    ];
    for (block, at, lost) in cases {
        let (addr, fault) = fault_of(rt.alloc(), block, at, &[9], lost)?;
        assert_eq!(rt; fault, Some(TreeFault::Lost(addr)));
    }
    Ok(())
}

// The address of a node's second pointer is at 151, and that of the last leaf's only one at 118.
#[test]
fn pointers_that_lead_nowhere(rt: HostRuntime) -> Result<(), Fail> {
    for (block, at, lost) in [(4, 151, (6, 12)), (5, 118, (18, 20))] {
        for (addr, wanted) in [
            (UNMAPPED, TreeFault::Unmapped(UNMAPPED)),
            (CROSSING, TreeFault::Crosses(CROSSING)),
        ] {
            let (_, fault) = fault_of(rt.alloc(), block, at, &addr.to_le_bytes(), lost)?;
            assert_eq!(rt; fault, Some(wanted));
        }
    }
    Ok(())
}
