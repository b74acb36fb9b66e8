// Trees that are visited.
ghost use Rattle.std.specs.Prelude.{◌≡◌};
ghost use Rattle.btr_rack.specs.Memory.{seen_of};
ghost use Rattle.btr_read.specs.Serves.{Serves};
ghost use Rattle.btr_read.specs.Store.{free_count};

use crate::volume::{FORM, START, rack_of, root, store_over, tree};
use btr_rack::MemRack;
use btr_read::Store;
use btr_tour::{Both, Met, Visitor, visit};
use btr_walk::{FoldFault, RootPlace, TreeFault};
use std::alloc::Global;
use std::test::Fail;

// Refuses what it looks for: an item, by its number or by its type, or a fault, by the address of the block.
#[derive(Clone, Copy, Debug, PartialEq, Eq)]
enum Look {
    Item,
    Type,
    Fault,
}

impl Visitor<u64> for Look {
    ghost step = { λ look mark. look };

    fn meet(&mut self, met: &Met<'_>) -> Result<(), u64> {
        match (*self, met) {
            (Look::Item, Met::Item(found)) => Err(found.key.objectid),
            (Look::Type, Met::Item(found)) => Err(u64::from(found.key.kind)),
            (Look::Fault, Met::Fault(TreeFault::Lost(addr))) => Err(*addr),
            _ => Ok(()),
        }
    }
}

// What a visit refuses.
fn looked<V: Visitor<u64> + Drop>(
    root: &RootPlace,
    rack: &mut MemRack,
    store: &mut Store,
    mut look: V,
) -> Result<(), FoldFault<u64>>
    requires serves { Serves (seen_of rack.old) store.old }
    requires free { free_count store.old ≡ 24 }
{
    visit(root, FORM.sums, rack, store, &mut look)
}

// What is found in the tree of so many items, with these bytes over those of its first block.
fn found_in<V: Visitor<u64> + Drop>(
    alloc: Global,
    count: u64,
    bytes: &[u8],
    look: V,
) -> Result<Result<(), FoldFault<u64>>, Fail> {
    let tree = tree(alloc, count)?;
    let mut rack = rack_of(alloc, &tree, bytes, START)?;
    let mut store = store_over(alloc, &rack)?;
    Ok(looked(&root(&tree), &mut rack, &mut store, look))
}

#[test]
fn first_of_what_is_met(rt: HostRuntime) -> Result<(), Fail> {
    let cases: [(u64, &[u8], Look, Result<(), FoldFault<u64>>); 5] = [
        (10, &[], Look::Item, Err(FoldFault::Own(0))),
        (10, &[], Look::Fault, Ok(())),
        (0, &[], Look::Item, Ok(())),
        // The first leaf is lost: what is behind it is met all the same.
        (10, &[1], Look::Item, Err(FoldFault::Own(6))),
        (10, &[1], Look::Fault, Err(FoldFault::Own(START))),
    ];
    for (count, bytes, look, answer) in cases {
        assert_eq!(rt; found_in(rt.alloc(), count, bytes, look)?, answer);
    }
    Ok(())
}

#[test]
fn first_of_what_two_meet(rt: HostRuntime) -> Result<(), Fail> {
    let cases: [(&[u8], Look, Look, Result<(), FoldFault<u64>>); 6] = [
        // One item is met by both, by the first one before.
        (&[], Look::Item, Look::Type, Err(FoldFault::Own(0))),
        (&[], Look::Type, Look::Item, Err(FoldFault::Own(1))),
        (&[], Look::Fault, Look::Item, Err(FoldFault::Own(0))),
        (&[], Look::Fault, Look::Fault, Ok(())),
        // The first leaf is lost, which is met before all items.
        (&[1], Look::Item, Look::Fault, Err(FoldFault::Own(START))),
        (&[1], Look::Fault, Look::Item, Err(FoldFault::Own(START))),
    ];
    for (bytes, first, second, answer) in cases {
        assert_eq!(rt;
            found_in(rt.alloc(), 10, bytes, Both { first, second })?,
            answer
        );
    }
    Ok(())
}
