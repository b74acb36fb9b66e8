// Trees, block by block.
use btr_base::{Header, Key, SumKind, is_summed};
use btr_make_blocks::{Block, Body, Form, GrowFault, Items, Tree};
use btr_node::Node;
use btr_rack::MemRack;
use std::alloc::{AllocError, Global};
use std::process::Abort;
use std::test::Fail;

// Where each tree begins.
const ADDR: u64 = 65536;

// Items of growing sizes, under descending objectids.
fn items(alloc: Global, count: u64) -> Result<Items, AllocError> {
    let mut items = Items::new(alloc);
    for i in 0..count {
        let body = Body::new(alloc).zeros((i % 100) as usize)?;
        items.put(u64::MAX - i, 1, 0, body)?;
    }
    Ok(items)
}

// The block of a tree at this address.
fn block_at<'a>(rt: &impl Abort, tree: &'a Tree, addr: u64) -> &'a Block {
    match tree.blocks.iter().find(|block| block.addr == addr) {
        Some(block) => block,
        None => panic!(rt; "no block at {addr}"),
    }
}

// Tests a block's checksum and header.
fn check_header(rt: &impl Abort, form: &Form, block: &Block) {
    let bytes = block.bytes.as_slice();
    assert!(rt; bytes.len() == form.nodesize && bytes.len() >= 101);
    assert!(rt; is_summed(form.sums, bytes));
    let header = Header::read(form.sums, bytes);
    assert_eq!(rt; (header.addr, header.level), (block.addr, block.level));
    assert_eq!(rt; header.generation, form.generation);
    assert_eq!(rt; (header.owner, header.fsid), (form.owner, form.fsid));
}

// The number of items, if the block is a leaf, and the number of pointers, which lead to their blocks.
fn count(rt: &impl Abort, form: &Form, tree: &Tree, block: &Block) -> (usize, usize) {
    let bytes = block.bytes.as_slice();
    assert!(rt; bytes.len() >= 101);
    match Node::view(bytes) {
        Ok(Node::Leaf(leaf)) => {
            assert!(rt; leaf.count() <= form.items);
            (leaf.count(), 0)
        }
        Ok(Node::Inner(inner)) => {
            assert!(rt; inner.count() <= form.pointers);
            for i in 0..inner.count() {
                let child = block_at(rt, tree, inner.child(i).addr);
                assert_eq!(rt; inner.key(i), child.first);
                assert_eq!(rt; inner.child(i).generation, form.generation);
                assert_eq!(rt; child.level.checked_add(1), Some(block.level));
            }
            (0, inner.count())
        }
        Err(_) => panic!(rt; "block {} is malformed", block.addr),
    }
}

// A number of items, the node size, the most items of a leaf and pointers of a node; and what becomes of them: the number
// of blocks and the root's level.
const GROWN: [(u64, usize, usize, usize, usize, u8); 6] = [
    (0, 16384, 1000, 1000, 1, 0),
    (1, 16384, 1000, 1000, 1, 0),
    (1000, 16384, 10000, 1000, 6, 1),
    (1000, 65536, 10000, 1000, 3, 1),
    (1000, 4096, 100, 3, 30, 3),
    (200, 4096, 2, 2, 202, 7),
];

// Tests the blocks of a tree, and answers how many items it has.
fn check_tree(rt: &impl Abort, form: &Form, tree: &Tree) -> usize {
    let (mut found, mut pointed) = (0usize, 1usize);
    for block in &tree.blocks {
        check_header(rt, form, block);
        let (in_leaf, in_node) = count(rt, form, tree, block);
        found = found.saturating_add(in_leaf);
        pointed = pointed.saturating_add(in_node);
    }
    assert_eq!(rt; pointed, tree.blocks.len());
    assert_eq!(rt; block_at(rt, tree, tree.root()).level, tree.level());
    found
}

#[test]
fn grows(rt: HostRuntime) -> Result<(), Fail> {
    for (count, nodesize, most_items, pointers, blocks, level) in GROWN {
        for sums in [SumKind::Crc32c, SumKind::Xxh64] {
            let form = Form {
                sums,
                nodesize,
                items: most_items,
                pointers,
                ..Form::DEFAULT
            };
            let items = items(rt.alloc(), count)?;
            let tree = Tree::grow(rt.alloc(), &form, ADDR, items)?;
            assert_eq!(rt; check_tree(&rt, &form, &tree) as u64, count);
            assert_eq!(rt; (tree.blocks.len(), tree.level()), (blocks, level));
        }
    }
    Ok(())
}

#[test]
fn refuses(rt: HostRuntime) -> Result<(), Fail> {
    let form = Form {
        items: 1,
        pointers: 0,
        ..Form::DEFAULT
    };
    let tall = Tree::grow(rt.alloc(), &form, ADDR, items(rt.alloc(), 129)?);
    assert!(rt; matches!(tall, Err(GrowFault::Tall)));
    let mut long = items(rt.alloc(), 3)?;
    long.put(7, 8, 9, Body::new(rt.alloc()).zeros(16259)?)?;
    let key = Key {
        objectid: 7,
        kind: 8,
        offset: 9,
    };
    let long = Tree::grow(rt.alloc(), &form, ADDR, long);
    assert!(rt; matches!(long, Err(GrowFault::Long(at)) if at == key));
    Ok(())
}

// An item that fills a leaf, and one in two parts.
fn full(alloc: Global) -> Result<Items, AllocError> {
    let mut items = Items::new(alloc);
    items.put(7, 8, 9, Body::new(alloc).zeros(16258)?)?;
    items.append(6, 8, 9, &Body::new(alloc).u8(1)?)?;
    items.append(6, 8, 9, &Body::new(alloc).u8(2)?)?;
    Ok(items)
}

#[test]
fn puts(rt: HostRuntime) -> Result<(), Fail> {
    let items = full(rt.alloc())?;
    assert_eq!(rt; (items.len(), items.is_empty()), (2, false));
    let tree = Tree::grow(rt.alloc(), &Form::DEFAULT.of(4), ADDR, items)?;
    assert_eq!(rt; (tree.blocks.len(), tree.root()), (3, 98304));
    let mut rack = MemRack::new(rt.alloc());
    rack.add("a", 131072)?;
    tree.put(&mut rack, "a")?;
    assert_eq!(rt; rack.byte("a", 65536 + 16383), Some(2));
    assert_eq!(rt; rack.byte("a", 65536 + 16382), Some(1));
    assert_eq!(rt; rack.byte("a", 98304 + 0x58), Some(4));
    Ok(())
}
