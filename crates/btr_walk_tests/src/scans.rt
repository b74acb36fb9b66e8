// Scans and lookups of trees of one to four levels.
use crate::volume::{FORM, Harm, Reading, START, Scanned, read_tree, tree};
use btr_base::sum;
use btr_make_blocks::{Block, Tree};
use btr_walk::TreeFault;
use std::alloc::Global;
use std::process::Abort;
use std::test::Fail;

/// The even numbers from one to another, of those below twice a count.
pub(crate) fn is_even_run(numbers: &[u64], count: u64, lo: u64, hi: u64) -> bool {
    let mut wanted = 0;
    for n in 0..count {
        let number = n.wrapping_mul(2);
        if lo <= number && number <= hi {
            if numbers.get(wanted) != Some(&number) {
                return false;
            }
            wanted += 1;
        }
    }
    wanted == numbers.len()
}

// Scans of ranges of a tree of so many items, with pauses and without.
fn scan_ranges(rt: &impl Abort, alloc: Global, tree: &Tree, count: u64) -> Result<(), Fail> {
    for (lo, hi) in [
        (0, 99),
        (1, 54),
        (4, 4),
        (5, 5),
        (6, 17),
        (54, 55),
        (55, 99),
        (17, 6),
    ] {
        for is_pausing in [false, true] {
            let found = read_tree(alloc, tree, Harm::NONE, (lo, hi), is_pausing)?;
            assert_eq!(rt; found.first.fault, None);
            assert!(rt; is_even_run(found.first.numbers.as_slice(), count, lo, hi));
        }
    }
    Ok(())
}

// The greatest even number up to one, of those below twice a count.
fn even_below(count: u64, number: u64) -> Option<u64> {
    match (number / 2).min(count.wrapping_sub(1)) {
        last if count > 0 => Some(last.wrapping_mul(2)),
        _ => None,
    }
}

// Lookups in a tree of so many items.
fn look_up(rt: &impl Abort, alloc: Global, tree: &Tree, count: u64) -> Result<(), Fail> {
    for number in 0..60 {
        let found = read_tree(alloc, tree, Harm::NONE, (number, number), false)?;
        assert_eq!(rt; found.last, Ok(even_below(count, number)));
    }
    Ok(())
}

#[test]
fn ranges_of_trees(rt: HostRuntime) -> Result<(), Fail> {
    for (count, level) in [
        (0, 0),
        (1, 0),
        (3, 0),
        (4, 1),
        (9, 1),
        (10, 2),
        (27, 2),
        (28, 3),
    ] {
        let tree = tree(rt.alloc(), count)?;
        assert_eq!(rt; tree.level(), level);
        scan_ranges(&rt, rt.alloc(), &tree, count)?;
        look_up(&rt, rt.alloc(), &tree, count)?;
    }
    Ok(())
}

// Writes bytes into a block, and its checksum anew.
fn edit(block: &mut [u8], at: usize, bytes: &[u8]) {
    if let Some(place) = block.get_mut(at..at.saturating_add(bytes.len())) {
        place.copy_from_slice(bytes);
    }
    if let Some((sealing, rest)) = block.split_at_mut_checked(32) {
        sealing.copy_from_slice(&sum(FORM.sums, rest).bytes);
    }
}

// What is read of a tree, of which a block was edited.
fn read_edited(
    alloc: Global,
    tree: &Tree,
    block: &Block,
    at: usize,
    bytes: &[u8],
) -> Result<Reading, Fail> {
    let mut copy = block.bytes.as_slice().to_vec(alloc)?;
    edit(&mut copy, at, bytes);
    let harm = Harm {
        bytes: &copy,
        addr: block.addr,
        call: u64::MAX,
    };
    read_tree(alloc, tree, harm, (0, 99), false)
}

// The tree of ten items: three leaves of three and one of one, two nodes above them, and the root.
#[test]
fn blocks_that_are_wrong(rt: HostRuntime) -> Result<(), Fail> {
    let tree = tree(rt.alloc(), 10)?;
    // A block's header has its generation at 80, its count at 96 and its level at 100; the first entry's key is at 101. An
    // entry of a leaf has 25 bytes, one of a node 33.
    let cases: [(usize, usize, &[u8], bool); 8] = [
        // The first key isn't the pointer's.
        (1, 101, &[7], true),
        (4, 101, &[1], true),
        // The last key isn't below the bound.
        (0, 151, &[6], true),
        (4, 167, &[18], true),
        // The keys don't ascend.
        (2, 126, &[12], true),
        // A node without pointers.
        (5, 96, &[0], true),
        // Another generation, and another level.
        (3, 80, &[8], false),
        (3, 100, &[1], false),
    ];
    for (block, at, bytes, is_malformed) in cases {
        let edited = tree.blocks.get(block).ok_or("no such block")?;
        let found = read_edited(rt.alloc(), &tree, edited, at, bytes)?;
        let wanted = if is_malformed {
            TreeFault::Malformed(edited.addr)
        } else {
            TreeFault::Lost(edited.addr)
        };
        assert_eq!(rt; found.first.fault, Some(wanted));
        assert!(rt; found.first.numbers.len() < 10);
    }
    Ok(())
}

// Whether a scan of ten items met all of them, or ended where a block could not be read.
fn is_cut_short(found: &Scanned) -> bool {
    let count = found.numbers.len();
    match found.fault {
        None => count == 10,
        Some(TreeFault::Unread(addr, slot)) => addr >= START && slot == 0 && count < 10,
        Some(_) => false,
    }
}

#[test]
fn calls_that_fail(rt: HostRuntime) -> Result<(), Fail> {
    let tree = tree(rt.alloc(), 10)?;
    for n in 1..40 {
        let found = read_tree(rt.alloc(), &tree, Harm::of_call(n), (0, 99), n % 2 == 0)?;
        assert!(rt; is_cut_short(&found.first));
        // What could be read is read again from the same place.
        assert_eq!(rt; found.again.fault, None);
        assert_eq!(rt; found.again.numbers.len(), 10);
    }
    Ok(())
}
