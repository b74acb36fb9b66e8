// Tours that keep no loan between their marks.
ghost use Rattle.std.specs.Prelude.{◌≡◌, ◌<◌, length};
ghost use Rattle.btr_rack.specs.Memory.{seen_of, slots_of};
ghost use Rattle.btr_read.specs.Serves.{Serves};
ghost use Rattle.btr_read.specs.Store.{free_count};
ghost use Rattle.btr_tour.specs.Rests.{Fits};

use crate::volume::{
    FORM, Mark, NONE, START, key, rack_of, root, step, store_over, toured_whole, tree,
};
use btr_rack::MemRack;
use btr_read::Store;
use btr_tour::{Rest, Tour};
use btr_walk::{RootPlace, TreeFault};
use std::alloc::Global;
use std::test::Fail;

// The next mark of a tour that is taken up and given back.
fn step_on(
    store: &mut Store,
    rest: &mut Rest,
    rack: &mut MemRack,
) -> Result<Option<Mark>, TreeFault>
    requires serves { Serves (seen_of rack.old) store.old }
    requires free { free_count store.old ≡ 24 }
    requires fits { Fits rest.old }
    ensures serves { Serves (seen_of rack.new) store.new }
    ensures free { free_count store.new ≡ 24 }
    ensures fits { Fits rest.new }
{
    let mut tour = rest.tour(rack, store)?;
    let met = step(store, &mut tour, rack, NONE);
    *rest = tour.rest(store);
    met
}

// All marks of a tree, each by a tour that is taken up for it. Where a block could not be read, it is tried again.
fn toured_resting(alloc: Global, rack: &mut MemRack, root: &RootPlace) -> Result<Vec<Mark>, Fail>
    requires { 0 < length (slots_of rack.old) }
{
    let mut store = store_over(alloc, rack)?;
    let mut marks = Vec::new(alloc);
    let mut rest = Tour::new(root, key(0), key(99), FORM.sums).rest(&mut store);
    for _ in 0..1000 {
        match step_on(&mut store, &mut rest, rack) {
            Ok(Some(mark)) => marks.push(mark)?,
            Ok(None) => break,
            Err(_) => {}
        }
    }
    Ok(marks)
}

#[test]
fn marks_without_a_loan(rt: HostRuntime) -> Result<(), Fail> {
    let tree = tree(rt.alloc(), 10)?;
    let mut rack = rack_of(rt.alloc(), &tree, &[], START)?;
    let wanted = toured_whole(rt.alloc(), &mut rack, &root(&tree))?;
    // Each of the first calls fails in its turn.
    for call in 1..60 {
        let mut rack = rack_of(rt.alloc(), &tree, &[], START)?;
        rack.fail_call(call)?;
        let marks = toured_resting(rt.alloc(), &mut rack, &root(&tree))?;
        assert_eq!(rt; marks.as_slice(), wanted.as_slice(), "call {call}");
    }
    Ok(())
}
