// A filesystem of one chunk of the profile single, and the device on which it lies. For want of memory it can't be made; no
// other refusal of what it calls can come, at these numbers, and each is answered as that one.
ghost use Rattle.std.specs.Prelude.{◌≡◌, ◌+◌, ◌<◌, ◌≤◌, length, IfOk};
ghost use Rattle.btr_rack.specs.Memory.{seen_of, slots_of};
ghost use Rattle.btr_read.specs.Store.{free_count};
ghost use Rattle.btr_read.specs.Serves.{Serves};

use btr_base::{SumKind, sum};
use btr_chunk::{Chunk, ChunkTable};
use btr_make_blocks::Tree;
use btr_rack::{MemRack, Rack};
use btr_read::{Store, Want};
use std::alloc::{AllocError, Global};

/// The kind of checksum.
pub const KIND: SumKind = SumKind::Crc32c;

/// The id in the headers of tree blocks.
pub const FSID: [u8; 16] = *b"one block of one";

/// The transaction that wrote everything.
pub const GENERATION: u64 = 7;

const LEVEL: u8 = 0;

const DEVICE: u64 = 1;

/// The chunk's first address.
pub const START: u64 = 16777216;

// The chunk's length in bytes, and where it begins on the device.
const LENGTH: u64 = 134217728;

const OFFSET: u64 = 1048576;

const NAME: &str = "image";

const SLOT: usize = 0;

fn put(block: &mut [u8], at: usize, field: &[u8])
    requires { at + length field.now ≤ length block.old }
{
    block[at..at + field.len()].copy_from_slice(field);
}

/// Makes bytes the tree block at the beginning of the chunk, a leaf, and answers how it is sought.
pub fn sealed(block: &mut [u8]) -> Want
    requires { 101 ≤ length block.old }
{
    put(block, 0x20, &FSID);
    put(block, 0x30, &START.to_le_bytes());
    put(block, 0x50, &GENERATION.to_le_bytes());
    put(block, 0x64, &[LEVEL]);
    let sealing = sum(KIND, &block[32..]);
    put(block, 0, &sealing.bytes);
    Want::Tree {
        addr: START,
        generation: GENERATION,
        level: LEVEL,
    }
}

/// How bytes are sought that are the sector at the beginning of the chunk.
pub fn sector(bytes: &[u8]) -> Want {
    Want::Sector {
        addr: START,
        sum: sum(KIND, bytes),
    }
}

/// A rack with the open image of a device, on which these bytes stand at the beginning of the chunk. `AllocError`: want of
/// memory, or the bytes pass the end of the chunk.
pub fn image_of(alloc: Global, bytes: &[u8]) -> Result<MemRack, AllocError>
    ensures { IfOk result (λ rack. SLOT < length (slots_of rack)) }
{
    let mut rack = MemRack::new(alloc);
    rack.add(NAME, OFFSET + LENGTH).map_err(|_| AllocError)?;
    rack.poke(NAME, OFFSET, bytes).map_err(|_| AllocError)?;
    let Ok(_slot) = rack.open(NAME, false) else {
        return Err(AllocError);
    };
    Ok(rack)
}

/// The same, with the blocks of a tree, each at its address in the chunk. `AllocError`: want of memory, or a block passes the
/// end of the chunk.
pub fn image_with(alloc: Global, tree: &Tree) -> Result<MemRack, AllocError>
    ensures { IfOk result (λ rack. SLOT < length (slots_of rack)) }
{
    let mut rack = MemRack::new(alloc);
    rack.add(NAME, OFFSET + LENGTH).map_err(|_| AllocError)?;
    for block in &tree.blocks {
        let off = block.addr.wrapping_sub(START).wrapping_add(OFFSET);
        rack.poke(NAME, off, block.bytes.as_slice())
            .map_err(|_| AllocError)?;
    }
    let Ok(_slot) = rack.open(NAME, false) else {
        return Err(AllocError);
    };
    Ok(rack)
}

// The chunk's item: its one stripe lies on the device.
fn item(alloc: Global) -> Result<Vec<u8>, AllocError> {
    let mut bytes = Vec::new(alloc);
    bytes.extend_from_slice(&LENGTH.to_le_bytes())?;
    bytes.extend_from_slice(&2u64.to_le_bytes())?;
    bytes.extend_from_slice(&65536u64.to_le_bytes())?;
    bytes.extend_from_slice(&5u64.to_le_bytes())?;
    bytes.extend_from_slice(&[0; 12])?;
    bytes.extend_from_slice(&1u16.to_le_bytes())?;
    bytes.extend_from_slice(&0u16.to_le_bytes())?;
    bytes.extend_from_slice(&DEVICE.to_le_bytes())?;
    bytes.extend_from_slice(&OFFSET.to_le_bytes())?;
    bytes.extend_from_slice(&[0; 16])?;
    Ok(bytes)
}

/// The store that reads the chunk from the image, with nodes of `nodesize` bytes. `AllocError`: want of memory.
pub fn store_over(alloc: Global, nodesize: u32, rack: &MemRack) -> Result<Store, AllocError>
    requires large { 4096 ≤ nodesize }
    requires small { nodesize ≤ 65536 }
    requires open { SLOT < length (slots_of rack.now) }
    ensures serves { IfOk result (Serves (seen_of rack.now)) }
    ensures free { IfOk result (λ store. free_count store ≡ 24) }
{
    let mut chunks = ChunkTable::new(alloc);
    let chunk = Chunk::read(alloc, START, item(alloc)?.as_slice()).map_err(|_| AllocError)?;
    chunks.add(chunk).map_err(|_| AllocError)?;
    let Ok(mut store) = Store::new(alloc, KIND, FSID, nodesize, chunks) else {
        return Err(AllocError);
    };
    let Ok(()) = store.add_device(DEVICE, SLOT, rack.len(SLOT), false) else {
        return Err(AllocError);
    };
    Ok(store)
}
