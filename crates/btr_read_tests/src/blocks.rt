// Tree blocks, in row 1 of a shape.
use crate::given::HEADER_ID;
use crate::shape::{ELEMENT, START, noise, stripe_start};
use crate::volume::name_of;
use btr_base::{Sum, SumKind, sum};
use btr_rack::{MemRack, PokeError};
use btr_read::Want;

/// The address of slice 0 of row 1, where a row has one slice.
pub(crate) const BLOCK: u64 = START + ELEMENT;

/// What the header of a tree block says.
#[derive(Clone, Copy)]
pub(crate) struct Form {
    pub(crate) addr: u64,
    pub(crate) id: [u8; 16],
    pub(crate) generation: u64,
    pub(crate) level: u8,
}

pub(crate) const GOOD: Form = Form {
    addr: BLOCK,
    id: HEADER_ID,
    generation: 9,
    level: 1,
};

/// A tree block without its checksum, which is all ones. Behind the header it differs by the seed.
pub(crate) fn block(form: &Form, seed: u64) -> [u8; 16384] {
    let noise = noise(seed);
    let mut bytes = [0; 16384];
    for i in 0..16384usize {
        bytes[i] = noise[i % 4096];
    }
    bytes[0..0x20].copy_from_slice(&[0xff; 32]);
    bytes[0x20..0x30].copy_from_slice(&form.id);
    bytes[0x30..0x38].copy_from_slice(&form.addr.to_le_bytes());
    bytes[0x50..0x58].copy_from_slice(&form.generation.to_le_bytes());
    bytes[0x64] = form.level;
    bytes
}

/// Puts a checksum into a block. The rest of its field isn't touched.
pub(crate) fn seal(block: &mut [u8; 16384], sum: &Sum) {
    for i in 0..32usize {
        if i < usize::from(sum.size) {
            block[i] = sum.bytes[i];
        }
    }
}

/// A tree block with its CRC-32C.
pub(crate) fn summed(form: &Form, seed: u64) -> [u8; 16384] {
    let mut bytes = block(form, seed);
    let right = sum(SumKind::Crc32c, &bytes[32..]);
    seal(&mut bytes, &right);
    bytes
}

/// The want of the tree block at `BLOCK`.
pub(crate) fn tree(generation: u64, level: u8) -> Want {
    Want::Tree {
        addr: BLOCK,
        generation,
        level,
    }
}

/// Puts bytes at the beginning of row 1 on a stripe.
pub(crate) fn put(rack: &mut MemRack, stripe: u64, bytes: &[u8; 16384]) -> Result<(), PokeError> {
    let off = stripe_start(stripe).wrapping_add(ELEMENT);
    rack.poke(name_of(stripe), off, bytes)
}
