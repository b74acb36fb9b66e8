// What blocks use.
use super::stores::{DATA, file};
use btr_base::Memory;
use btr_findings::{Finding, Found};
use btr_items::{Link, item};
use btr_make_blocks::{Body, Form, Items, Tree};
use btr_rack::{MemRack, Rack};
use btr_refs::{Forward, RefKey, Stored, put_count_findings};
use btr_volume::TreeRoot;
use btr_walk::RootPlace;
use std::alloc::{AllocError, Global};
use std::test::Fail;

const NODE: usize = 4096;

const FORM: Form = Form {
    nodesize: 4096,
    items: 2,
    pointers: 3,
    owner: 5,
    ..Form::DEFAULT
};

// A regular range of a file of 4096 bytes, `skip` bytes behind the beginning of its extent.
fn range(alloc: Global, addr: u64, skip: u64) -> Result<Body, AllocError> {
    Body::new(alloc)
        .u64(8)?
        .u64(16384)?
        .u32(0)?
        .u8(1)?
        .u64(addr)?
        .u64(16384)?
        .u64(skip)?
        .u64(4096)
}

// A tree of two leaves, with a range that skips bytes, a hole, and two ranges of another file, one with its offset below what it skips.
fn block(alloc: Global, root: bool) -> Result<[u8; NODE], Fail> {
    let mut items = Items::new(alloc);
    items.put(260, item::EXTENT_DATA, 4096, range(alloc, DATA, 4096)?)?;
    items.put(260, item::EXTENT_DATA, 8192, range(alloc, 0, 0)?)?;
    items.put(261, item::EXTENT_DATA, 0, range(alloc, DATA, 4096)?)?;
    let tree = Tree::grow(alloc, &FORM, 1048576, items)?;
    let mut rack = MemRack::new(alloc);
    rack.add("a", 2097152)?;
    tree.put(&mut rack, "a")?;
    let slot = rack.open("a", false)?;
    let mut block = [0; NODE];
    let addr = if root { tree.root() } else { 1048576 };
    if rack.len(slot) == 2097152 && addr <= 2000000 {
        rack.read_at(slot, addr, &mut block)?;
    }
    Ok(block)
}

// Nothing is counted, and nothing is stored.
fn none_stored(alloc: Global) -> Result<Forward, Memory> {
    Forward::new(alloc, Stored::new(alloc, 4096).into_list(alloc)?)
}

// A finding for each reference that is counted, and isn't stored.
fn counted(alloc: Global, forward: &Forward) -> Result<Vec<Finding>, Memory> {
    let mut found = Found::new(alloc);
    put_count_findings(&mut found, forward)?;
    found.list(alloc)?.to_vec(alloc)
}

// How often a reference is counted, by these findings.
fn times(found: &[Finding], key: &RefKey) -> u64 {
    let mut times = 0;
    for one in found {
        if one.n[0] == key.addr && one.n[1] == u64::from(key.kind) && one.n[2] == key.root {
            times = one.n[5];
        }
    }
    times
}

#[test]
fn a_leaf_uses_the_data_of_its_files(rt: HostRuntime) -> Result<(), Fail> {
    let block = block(rt.alloc(), false)?;
    for by_address in [false, true] {
        let mut forward = none_stored(rt.alloc())?;
        forward.add_block(1048576, 0, by_address, &block)?;
        let link = if by_address {
            Link::SharedFile(1048576)
        } else {
            file(260)
        };
        let found = counted(rt.alloc(), &forward)?;
        assert_eq!(rt; times(&found, &RefKey::new(DATA, link)), 1);
        assert_eq!(rt; found.len(), 1);
    }
    Ok(())
}

#[test]
fn a_node_uses_its_children_and_a_tree_its_root(rt: HostRuntime) -> Result<(), Fail> {
    let block = block(rt.alloc(), true)?;
    let mut forward = none_stored(rt.alloc())?;
    forward.add_block(1064960, 1, false, &block)?;
    let child = RefKey::new(1048576, Link::Tree(5));
    assert_eq!(rt; times(&counted(rt.alloc(), &forward)?, &child), 1);
    let root = TreeRoot {
        id: 257,
        offset: 0,
        place: RootPlace {
            addr: 1048576,
            generation: 8,
            level: 2,
        },
        dirid: 256,
        refs: 1,
    };
    forward.add_root(&root)?;
    let own = RefKey::new(1048576, Link::Tree(257));
    assert_eq!(rt; times(&counted(rt.alloc(), &forward)?, &own), 1);
    assert_eq!(rt; forward.into_extents().len(), 0);
    Ok(())
}
