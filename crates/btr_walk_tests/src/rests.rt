// Scans that keep no loan between their items.
ghost use Rattle.std.specs.Prelude.{◌≡◌};
ghost use Rattle.btr_rack.specs.Memory.{seen_of};
ghost use Rattle.btr_read.specs.Serves.{Serves};
ghost use Rattle.btr_read.specs.Store.{free_count};
ghost use Rattle.btr_walk.specs.Ranks.{IsShaped};
ghost use Rattle.btr_walk.specs.Rests.{HasMet};

use crate::volume::{Harm, key, rack_of, root, store_over, tree};
use btr_node::Leaf;
use btr_rack::MemRack;
use btr_read::Store;
use btr_walk::{MetAgain, Rest, RootPlace, TreeFault, next};
use std::process::Abort;
use std::test::Fail;

// The number of the item that was met last, from its leaf, which is read again.
fn again(store: &mut Store, rest: &Rest, rack: &mut MemRack) -> Result<u64, TreeFault>
    requires serves { Serves (seen_of rack.old) store.old }
    requires free { free_count store.old ≡ 24 }
    requires met { HasMet rest.now }
    ensures serves { Serves (seen_of rack.new) store.new }
    ensures free { free_count store.new ≡ 24 }
{
    let MetAgain { loan, at } = rest.met_again(rack, store)?;
    let key = Leaf::of(store.bytes(&loan)).key(at);
    store.give(loan);
    Ok(key.objectid)
}

// The number of the next item, twice: as it is met, and from its leaf again.
fn step(
    store: &mut Store,
    rest: &mut Rest,
    rack: &mut MemRack,
) -> Result<Option<(u64, u64)>, TreeFault>
    requires serves { Serves (seen_of rack.old) store.old }
    requires free { free_count store.old ≡ 24 }
    requires shaped { IsShaped rest.old.place.rest }
    ensures serves { Serves (seen_of rack.new) store.new }
    ensures free { free_count store.new ≡ 24 }
    ensures shaped { IsShaped rest.new.place.rest }
{
    let mut scan = rest.scan();
    match next(store, &mut scan, rack) {
        Ok(Some(found)) => {
            let number = found.key.objectid;
            *rest = scan.rest(store);
            Ok(Some((number, again(store, rest, rack)?)))
        }
        Ok(None) => {
            scan.finish(store);
            Ok(None)
        }
        Err(fault) => {
            scan.finish(store);
            Err(fault)
        }
    }
}

// Meets the items of the tree of ten items from 4 to 16, and the end.
fn meet_all(rt: &impl Abort, store: &mut Store, rack: &mut MemRack, root: &RootPlace)
    requires serves { Serves (seen_of rack.old) store.old }
    requires free { free_count store.old ≡ 24 }
{
    let mut rest = Rest::new(root, key(3), key(16));
    for wanted in [4, 6, 8, 10, 12, 14, 16, 18] {
        let met = step(store, &mut rest, rack);
        let numbers = if wanted < 18 {
            Some((wanted, wanted))
        } else {
            None
        };
        assert_eq!(rt; met, Ok(numbers));
    }
}

#[test]
fn items_without_a_loan(rt: HostRuntime) -> Result<(), Fail> {
    let tree = tree(rt.alloc(), 10)?;
    let mut rack = rack_of(rt.alloc(), &tree, Harm::NONE)?;
    let mut store = store_over(rt.alloc(), &rack)?;
    meet_all(&rt, &mut store, &mut rack, &root(&tree));
    Ok(())
}
