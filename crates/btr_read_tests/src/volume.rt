// Images in memory that hold the chunk of a shape.
use crate::shape::{ELEMENT, MIB, START, Shape, contains, place_of, stripe_start};
use btr_chunk::{Chunk, ChunkTable};
use btr_rack::{AddError, MemRack, PokeError, Rack, RackError};
use std::alloc::{AllocError, Global};
use std::test::Fail;

const NAMES: [&str; 6] = ["a", "b", "c", "d", "e", "f"];

/// The name of a device's image.
pub(crate) fn name_of(device: u64) -> &'static str {
    NAMES[(device % 6) as usize]
}

/// The id of a device. The ids descend, and have gaps.
pub(crate) fn devid_of(device: u64) -> u64 {
    90u64.wrapping_sub(device.wrapping_mul(7))
}

// What stands in a chunk's item before its stripes.
fn put_head(bytes: &mut Vec<u8>, shape: &Shape) -> Result<(), AllocError> {
    let elements = shape.slices.wrapping_mul(shape.rows.len() as u64);
    bytes.extend_from_slice(&elements.wrapping_mul(ELEMENT).to_le_bytes())?;
    bytes.extend_from_slice(&2u64.to_le_bytes())?;
    bytes.extend_from_slice(&ELEMENT.to_le_bytes())?;
    bytes.extend_from_slice(&shape.kind.to_le_bytes())?;
    bytes.extend_from_slice(&[0, 0, 1, 0, 0, 0, 1, 0, 0, 16, 0, 0])?;
    bytes.extend_from_slice(&shape.stripes.to_le_bytes())?;
    bytes.extend_from_slice(&2u16.to_le_bytes())
}

fn put_stripe(bytes: &mut Vec<u8>, device: u64, stripe: u64) -> Result<(), AllocError> {
    bytes.extend_from_slice(&devid_of(device).to_le_bytes())?;
    bytes.extend_from_slice(&stripe_start(stripe).to_le_bytes())?;
    bytes.extend_from_slice(&[7; 16])
}

// The item of a shape's chunk.
fn item(alloc: Global, shape: &Shape) -> Result<Vec<u8>, AllocError> {
    let mut bytes = Vec::new(alloc);
    put_head(&mut bytes, shape)?;
    for stripe in 0..u64::from(shape.stripes) {
        put_stripe(&mut bytes, shape.device_of(stripe), stripe)?;
    }
    Ok(bytes)
}

/// The table of a shape's one chunk, at `START`.
pub(crate) fn table(alloc: Global, shape: &Shape) -> Result<ChunkTable, Fail> {
    let bytes = item(alloc, shape)?;
    let mut table = ChunkTable::new(alloc);
    table.add(Chunk::read(alloc, START, bytes.as_slice())?)?;
    Ok(table)
}

// Puts the data of a row on the images of a shape.
fn put_row(rack: &mut MemRack, shape: &Shape, row: u64, letters: &[u8]) -> Result<(), PokeError> {
    for (stripe, letter) in letters.iter().enumerate() {
        let bytes = shape.element(row, *letter);
        let name = name_of(shape.device_of(stripe as u64));
        rack.poke(name, place_of(row, stripe as u64), &bytes)?;
    }
    Ok(())
}

// Puts images of zeros on the shelf.
fn add_images(rack: &mut MemRack, count: u64) -> Result<(), AddError> {
    for device in 0..count {
        rack.add(name_of(device), 12 * MIB)?;
    }
    Ok(())
}

// Puts the data of all rows on the images of a shape.
fn put_rows(rack: &mut MemRack, shape: &Shape) -> Result<(), PokeError> {
    for (row, letters) in shape.rows.iter().enumerate() {
        put_row(rack, shape, row as u64, letters)?;
    }
    Ok(())
}

/// The images of a shape with its data, none of them open.
pub(crate) fn images(alloc: Global, shape: &Shape) -> Result<MemRack, Fail> {
    let mut rack = MemRack::new(alloc);
    add_images(&mut rack, shape.devices)?;
    put_rows(&mut rack, shape)?;
    Ok(rack)
}

/// The same, all of them open.
pub(crate) fn open_images(alloc: Global, shape: &Shape) -> Result<MemRack, Fail> {
    let mut rack = images(alloc, shape)?;
    open(&mut rack, shape)?;
    Ok(rack)
}

// Changes a byte of the data in a row on a stripe.
fn change(rack: &mut MemRack, shape: &Shape, row: u64, stripe: u64) -> Result<(), Fail> {
    let name = name_of(shape.device_of(stripe));
    let off = place_of(row, stripe).wrapping_add(stripe);
    let byte = rack.byte(name, off).ok_or("no byte")?;
    rack.poke(name, off, &[byte ^ 0x5a])?;
    Ok(())
}

/// Changes a byte of the data in each row on the stripes of a set: on each stripe another one, so that no two changes
/// cancel out. A second call undoes the first.
pub(crate) fn damage(rack: &mut MemRack, shape: &Shape, stripes: u32) -> Result<(), Fail> {
    for row in 0..shape.rows.len() as u64 {
        for stripe in 0..u64::from(shape.stripes) {
            if contains(stripes, stripe) {
                change(rack, shape, row, stripe)?;
            }
        }
    }
    Ok(())
}

/// Opens the images of a shape anew, the last one first.
pub(crate) fn open(rack: &mut MemRack, shape: &Shape) -> Result<(), RackError> {
    rack.close_all();
    for behind in 0..shape.devices {
        rack.open(name_of(shape.devices - 1 - behind), false)?;
    }
    Ok(())
}
