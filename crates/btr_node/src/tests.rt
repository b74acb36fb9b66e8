mod samples;

use crate::{Inner, Leaf, Node, Pointer, level};
use btr_base::Key;
use samples::{
    CHUNK_LEAF, CHUNK_LEAF_ROWS, EXTENT_NODE, EXTENT_NODE_ROWS, FILES_NODE, FILES_NODE_ROWS,
    FREE_SPACE_LEAF, FREE_SPACE_LEAF_ROWS, ROOT_LEAF, ROOT_LEAF_ROWS, SMALL_FILES_NODE,
    SMALL_FILES_NODE_ROWS,
};
use std::alloc::{AllocError, Global};
use std::process::Abort;
use std::test::Fail;

// The three parts of an item's key, where its bytes begin, and how many they are.
type Row = (u64, u8, u64, u32, usize);

// The three parts of a pointer's key, and the child's address and generation.
type PointerRow = (u64, u8, u64, u64, u64);

const COUNT: usize = 96;

const TABLE: usize = 101;

fn put(block: &mut [u8], at: usize, bytes: &[u8]) {
    if at <= block.len() && bytes.len() <= block.len() - at {
        block[at..at + bytes.len()].copy_from_slice(bytes);
    }
}

// A block of zeros, but for its table with the two fields before it.
fn block_of(alloc: Global, size: usize, table: &[u8]) -> Result<Vec<u8>, AllocError> {
    let mut block = vec![in alloc; 0u8; size]?;
    put(&mut block, COUNT, table);
    Ok(block)
}

fn is_refused(rt: &impl Abort, block: &[u8]) -> bool {
    assert!(rt; block.len() >= TABLE);
    Node::view(block).is_err()
}

fn check_leaf(rt: &impl Abort, block: &[u8], rows: &[Row], item: usize, end: &[u8]) {
    assert!(rt; block.len() >= TABLE);
    let Ok(Node::Leaf(leaf)) = Node::view(block) else {
        panic!(rt; "no leaf");
    };
    assert_eq!(rt; leaf.count(), rows.len());
    for (i, row) in rows.iter().enumerate() {
        let key = Key {
            objectid: row.0,
            kind: row.1,
            offset: row.2,
        };
        assert_eq!(rt; leaf.key(i), key, "item {i}");
        assert_eq!(rt; leaf.offset(i), row.3, "item {i}");
        assert_eq!(rt; leaf.body(i).len(), row.4, "item {i}");
        assert_eq!(rt; leaf.seek(key), i);
        assert_eq!(rt; leaf.seek_le(key), Some(i));
    }
    for (found, row) in leaf.items_from(0).zip(rows) {
        let key = (found.key.objectid, found.key.kind, found.key.offset);
        assert_eq!(rt; key, (row.0, row.1, row.2));
        assert_eq!(rt; (found.offset, found.body.len()), (row.3, row.4));
    }
    assert!(rt; leaf.items_from(rows.len()).next().is_none());
    assert!(rt; item < leaf.count());
    assert!(rt; leaf.item(item).body.ends_with(end));
    assert_eq!(rt; level(block), 0);
    let again = Leaf::of(block);
    assert_eq!(rt; again.count(), rows.len());
}

fn check_inner(rt: &impl Abort, block: &[u8], rows: &[PointerRow]) {
    assert!(rt; block.len() >= TABLE);
    let Ok(Node::Inner(inner)) = Node::view(block) else {
        panic!(rt; "no inner node");
    };
    assert_eq!(rt; inner.count(), rows.len());
    for (i, row) in rows.iter().enumerate() {
        let key = Key {
            objectid: row.0,
            kind: row.1,
            offset: row.2,
        };
        let child = Pointer {
            addr: row.3,
            generation: row.4,
        };
        assert_eq!(rt; inner.key(i), key, "pointer {i}");
        assert_eq!(rt; inner.child(i), child, "pointer {i}");
        assert_eq!(rt; inner.seek(key), i);
        assert_eq!(rt; inner.seek_le(key), Some(i));
    }
    assert_eq!(rt; level(block), 1);
    let again = Inner::of(block);
    assert_eq!(rt; again.count(), rows.len());
}

#[test]
fn real_leaves(rt: HostRuntime) -> Result<(), Fail> {
    let mut block = block_of(rt.alloc(), 4096, ROOT_LEAF)?;
    put(&mut block, 3211, b"default");
    check_leaf(&rt, &block, &ROOT_LEAF_ROWS, 2, b"default");
    let mut block = block_of(rt.alloc(), 16384, CHUNK_LEAF)?;
    put(&mut block, 16382, b"\xff\x00");
    check_leaf(&rt, &block, &CHUNK_LEAF_ROWS, 0, b"\x00\xff\x00");
    let mut block = block_of(rt.alloc(), 65536, FREE_SPACE_LEAF)?;
    put(&mut block, 65496, b"\x03\x00\x00\x00\x00\x00\x00\x00");
    check_leaf(
        &rt,
        &block,
        &FREE_SPACE_LEAF_ROWS,
        9,
        b"\x03\x00\x00\x00\x00\x00\x00\x00",
    );
    Ok(())
}

#[test]
fn real_nodes(rt: HostRuntime) -> Result<(), Fail> {
    let block = block_of(rt.alloc(), 4096, EXTENT_NODE)?;
    check_inner(&rt, &block, &EXTENT_NODE_ROWS);
    let block = block_of(rt.alloc(), 16384, SMALL_FILES_NODE)?;
    check_inner(&rt, &block, &SMALL_FILES_NODE_ROWS);
    let block = block_of(rt.alloc(), 65536, FILES_NODE)?;
    check_inner(&rt, &block, &FILES_NODE_ROWS);
    Ok(())
}

// Where keys that are not there are sought in the chunk tree's leaf: the first item at or above, and the last one
// at or below.
#[test]
fn seeks_between_keys(rt: HostRuntime) -> Result<(), Fail> {
    let block = block_of(rt.alloc(), 16384, CHUNK_LEAF)?;
    assert!(rt; block.len() >= TABLE);
    let Ok(Node::Leaf(leaf)) = Node::view(&block) else {
        panic!(rt; "no leaf");
    };
    let table = [
        (0, 0, 0, 0, None),
        (1, 216, 0, 0, None),
        (1, 216, 2, 1, Some(0)),
        (1, 217, 0, 1, Some(0)),
        (256, 227, u64::MAX, 1, Some(0)),
        (256, 228, 22020095, 2, Some(1)),
        (256, 228, 22020097, 3, Some(2)),
        (256, 228, 30408705, 4, Some(3)),
        (u64::MAX, 255, u64::MAX, 4, Some(3)),
    ];
    for (objectid, kind, offset, first, last) in table {
        let key = Key {
            objectid,
            kind,
            offset,
        };
        assert_eq!(rt; leaf.seek(key), first, "{objectid} {kind} {offset}");
        assert_eq!(rt; leaf.seek_le(key), last, "{objectid} {kind} {offset}");
    }
    Ok(())
}

// A leaf with as many items as said, which have no bytes.
fn bare_items(alloc: Global, count: u16) -> Result<Vec<u8>, AllocError> {
    let mut block = block_of(alloc, 16384, &count.to_le_bytes())?;
    for i in 0..count {
        let entry = TABLE + 25 * usize::from(i);
        put(&mut block, entry, &i.to_le_bytes());
        put(&mut block, entry + 17, &16283u32.to_le_bytes());
    }
    Ok(block)
}

#[test]
fn limits_of_a_leaf(rt: HostRuntime) -> Result<(), Fail> {
    let empty = block_of(rt.alloc(), 65536, &[0; 5])?;
    check_leaf_count(&rt, &empty, 0);
    check_leaf_count(&rt, &bare_items(rt.alloc(), 651)?, 651);
    assert!(rt; is_refused(&rt, &bare_items(rt.alloc(), 652)?));
    let mut full = block_of(rt.alloc(), 16384, &[1, 0, 0, 0, 0])?;
    put(&mut full, TABLE + 17, &25u32.to_le_bytes());
    put(&mut full, TABLE + 21, &16258u32.to_le_bytes());
    check_leaf_count(&rt, &full, 1);
    put(&mut full, TABLE + 17, &24u32.to_le_bytes());
    put(&mut full, TABLE + 21, &16259u32.to_le_bytes());
    assert!(rt; is_refused(&rt, &full));
    Ok(())
}

#[test]
fn limits_of_an_inner_node(rt: HostRuntime) -> Result<(), Fail> {
    let full = bare_pointers(rt.alloc(), 493)?;
    assert!(rt; full.len() >= TABLE);
    let Ok(Node::Inner(inner)) = Node::view(&full) else {
        panic!(rt; "no inner node");
    };
    assert_eq!(rt; inner.count(), 493);
    assert!(rt; is_refused(&rt, &bare_pointers(rt.alloc(), 494)?));
    Ok(())
}

// An inner node of level 7 with as many pointers as said.
fn bare_pointers(alloc: Global, count: u16) -> Result<Vec<u8>, AllocError> {
    let mut block = block_of(alloc, 16384, &count.to_le_bytes())?;
    put(&mut block, COUNT + 4, &[7]);
    for i in 0..count {
        put(&mut block, TABLE + 33 * usize::from(i), &i.to_le_bytes());
    }
    Ok(block)
}

fn check_leaf_count(rt: &impl Abort, block: &[u8], count: usize) {
    assert!(rt; block.len() >= TABLE);
    let Ok(Node::Leaf(leaf)) = Node::view(block) else {
        panic!(rt; "no leaf");
    };
    assert_eq!(rt; leaf.count(), count);
}

// Each edit of a good block breaks one rule.
#[test]
fn broken_blocks(rt: HostRuntime) -> Result<(), Fail> {
    let leaf_edits: [(&str, usize, &[u8]); 9] = [
        ("level 8", 100, &[8]),
        ("level 255", 100, &[255]),
        ("more items than fit", COUNT, &[4, 0, 0, 1]),
        (
            "the second key equals the first",
            TABLE + 25,
            b"\x01\0\0\0\0\0\0\0\xd8\x01\0\0\0\0\0\0\0",
        ),
        (
            "the third key is less than the second",
            TABLE + 25 * 2 + 12,
            &[0],
        ),
        ("item 0 ends before the block's end", TABLE + 21, &[97]),
        ("a gap below item 0", TABLE + 25 + 21, &[79]),
        ("items 1 and 2 overlap", TABLE + 25 * 2 + 21, &[113]),
        (
            "an offset that goes round",
            TABLE + 25 * 3 + 17,
            &[0xff, 0xff, 0xff, 0xff],
        ),
    ];
    for (what, at, bytes) in leaf_edits {
        let mut block = block_of(rt.alloc(), 16384, CHUNK_LEAF)?;
        assert!(rt; !is_refused(&rt, &block));
        put(&mut block, at, bytes);
        assert!(rt; is_refused(&rt, &block), "{what}");
    }
    let node_edits: [(&str, usize, &[u8]); 3] = [
        ("level 8", 100, &[8]),
        ("no pointer", COUNT, &[0]),
        ("the second key equals the first", TABLE + 33 + 8, b"\x01\0"),
    ];
    for (what, at, bytes) in node_edits {
        let mut block = block_of(rt.alloc(), 16384, SMALL_FILES_NODE)?;
        assert!(rt; !is_refused(&rt, &block));
        put(&mut block, at, bytes);
        assert!(rt; is_refused(&rt, &block), "{what}");
    }
    Ok(())
}
