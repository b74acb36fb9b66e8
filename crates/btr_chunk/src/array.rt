// The system array of a superblock.
ghost use Rattle.std.specs.Prelude.{◌≡◌, ◌≤◌, length, true, false, MatchOption, IfOk};
ghost use Rattle.btr_chunk.specs.Item.{chunk_of};
ghost use Rattle.btr_chunk.specs.Array.{pair_size, begins_pair, with_item, first_pair, array_of, IsArrayReading, IsItemReading};

use crate::{AddFault, Chunk, ChunkFault, ChunkTable};
use btr_base::{Key, u16_at};
use std::alloc::Global;

// The objectid of the keys of chunks.
const CHUNKS: u64 = 256;

// The kind of the keys of chunks.
const CHUNK_ITEM: u8 = 228;

// Of a key and an item without its stripes.
const HEAD_SIZE: usize = 65;

const KEY_SIZE: usize = 17;

const STRIPE_SIZE: usize = 32;

/// Why a system array isn't read.
#[derive(Clone, Copy, Debug, PartialEq, Eq)]
pub enum ArrayFault {
    /// A key or an item passes the end, a key is not that of a chunk, or an item has no stripe.
    BadArray,
    /// An item has this number of stripes, more than 64.
    Stripes(u16),
    /// The chunk that starts here breaks the rule of chunks, or can't stand beside those before it.
    BadChunk(u64),
    /// There is no memory for the chunks.
    Memory,
}

/// The chunks of a system array, which is pairs of a key and its chunk item, back to back.
///
/// The first refusal comes, pair by pair: `BadArray`, then `Stripes`, then `BadChunk`. A chunk that is equal to one
/// before it changes nothing.
pub fn read_array(alloc: Global, bytes: &[u8]) -> Result<ChunkTable, ArrayFault>
    ensures { IsArrayReading (array_of bytes.now) result }
{
    let mut table = ChunkTable::new(alloc);
    let mut rest = bytes;
    while !rest.is_empty() {
        let size = add_pair(alloc, &mut table, rest)?;
        rest = &rest[size..];
    }
    Ok(table)
}

// Adds the chunk of the first pair, and answers how many bytes the pair has.
fn add_pair(alloc: Global, table: &mut ChunkTable, bytes: &[u8]) -> Result<usize, ArrayFault>
    ensures pair { IsItemReading (first_pair table.old bytes.now) result table.new }
    ensures size { IfOk result (λ size. (size ≡ pair_size bytes.now) × (size ≤ length bytes.now)) }
{
    let Some(size) = pair_size(bytes) else {
        return Err(ArrayFault::BadArray);
    };
    let start = Key::read(bytes).offset;
    add_item(alloc, table, start, &bytes[KEY_SIZE..size])?;
    Ok(size)
}

// How many bytes the first pair has, where the bytes begin with one.
fn pair_size(bytes: &[u8]) -> Option<usize>
    ensures { MatchOption result (begins_pair bytes.now ≡ false)
        (λ size. (begins_pair bytes.now ≡ true) × (size ≡ pair_size bytes.now) × (size ≤ length bytes.now)) }
{
    if bytes.len() < HEAD_SIZE {
        return None;
    }
    let key = Key::read(bytes);
    let count = u16_at(bytes, 61);
    let size = HEAD_SIZE + STRIPE_SIZE * usize::from(count);
    if key.objectid == CHUNKS && key.kind == CHUNK_ITEM && count != 0 && size <= bytes.len() {
        Some(size)
    } else {
        None
    }
}

// Adds the chunk of an item.
fn add_item(
    alloc: Global,
    table: &mut ChunkTable,
    start: u64,
    item: &[u8],
) -> Result<(), ArrayFault>
    ensures { IsItemReading (with_item table.old start (chunk_of start item.now)) result table.new }
{
    let chunk = match Chunk::read(alloc, start, item) {
        Ok(chunk) => chunk,
        Err(ChunkFault::Stripes(count)) => return Err(ArrayFault::Stripes(count)),
        Err(ChunkFault::Bad) => return Err(ArrayFault::BadChunk(start)),
        Err(ChunkFault::Memory) => return Err(ArrayFault::Memory),
    };
    match table.add(chunk) {
        Ok(()) => Ok(()),
        Err(AddFault::Memory) => Err(ArrayFault::Memory),
        Err(AddFault::Overlap | AddFault::Chunks) => Err(ArrayFault::BadChunk(start)),
    }
}
