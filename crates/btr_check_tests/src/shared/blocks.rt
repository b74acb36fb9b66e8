// The blocks of an image of one device, whose logical addresses are their places.
use super::places::NODE;
use btr_base::Key;
use btr_make::seal;
use btr_rack::MemRack;
use std::alloc::Global;
use std::test::Fail;

/// Bytes as they stood at a place before others were written over them.
#[derive(Drop)]
pub(super) struct Old {
    at: u64,
    bytes: Vec<u8>,
}

// Where a block has the number of its items and the first entry of its table, and how many bytes an entry and a pointer have.
const COUNT: u64 = 96;

const TABLE: u64 = 101;

const ENTRY: u64 = 25;

const POINTER: u64 = 33;

// A number of some bytes.
fn number(rack: &MemRack, at: u64, len: u64) -> Result<u64, Fail> {
    let mut number = 0u64;
    for place in (0..len).rev() {
        let Some(byte) = rack.byte("a", at.wrapping_add(place)) else {
            return Err("behind the image")?;
        };
        number = number.wrapping_mul(256).wrapping_add(u64::from(byte));
    }
    Ok(number)
}

fn key_at(rack: &MemRack, at: u64) -> Result<Key, Fail> {
    Ok(Key {
        objectid: number(rack, at, 8)?,
        kind: (number(rack, at.wrapping_add(8), 1)? & 0xff) as u8,
        offset: number(rack, at.wrapping_add(9), 8)?,
    })
}

/// Where a leaf has the entry of an item in its table.
pub(super) fn entry_at(rack: &MemRack, leaf: u64, key: Key) -> Result<u64, Fail> {
    for item in 0..number(rack, leaf.wrapping_add(COUNT), 4)? {
        let entry = leaf
            .wrapping_add(TABLE)
            .wrapping_add(item.wrapping_mul(ENTRY));
        if key_at(rack, entry)? == key {
            return Ok(entry);
        }
    }
    Err("the leaf hasn't the item")?
}

/// Where a leaf has the body of an item.
pub(super) fn body_at(rack: &MemRack, leaf: u64, key: Key) -> Result<u64, Fail> {
    let entry = entry_at(rack, leaf, key)?;
    let offset = number(rack, entry.wrapping_add(17), 4)?;
    Ok(leaf.wrapping_add(TABLE).wrapping_add(offset))
}

/// Where a node has the address of a child, by the number of the pointer.
pub(super) fn pointer_at(node: u64, pointer: u64) -> u64 {
    node.wrapping_add(TABLE)
        .wrapping_add(pointer.wrapping_mul(POINTER))
        .wrapping_add(17)
}

/// Makes the checksum of a block right.
pub(super) fn seal_block(rack: &mut MemRack, block: u64) -> Result<(), Fail> {
    seal(rack, "a", block, NODE)?;
    Ok(())
}

/// Writes bytes over others, which are the answer.
pub(super) fn write_over(
    alloc: Global,
    rack: &mut MemRack,
    at: u64,
    bytes: &[u8],
) -> Result<Old, Fail> {
    let mut old = Vec::new(alloc);
    for place in 0..bytes.len() {
        let Some(byte) = rack.byte("a", at.wrapping_add(place as u64)) else {
            return Err("behind the image")?;
        };
        old.push(byte)?;
    }
    rack.poke("a", at, bytes)?;
    Ok(Old { at, bytes: old })
}

/// Writes the old bytes of a block back.
pub(super) fn undo(rack: &mut MemRack, block: u64, olds: &[Old]) -> Result<(), Fail> {
    for old in olds {
        rack.poke("a", old.at, old.bytes.as_slice())?;
    }
    seal_block(rack, block)
}
