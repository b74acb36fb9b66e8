// Bytes at logical addresses, and the parities of what stands there.
ghost use Rattle.std.specs.Prelude.{◌≡◌, ◌<◌, ◌^◌, length};
ghost use Rattle.btr_chunk.specs.Chunk.{IsChunk};
ghost use Rattle.btr_chunk.specs.Mapping.{IsPosition, HasPart};
ghost use Rattle.btr_make.specs.Shelf.{standing};

use crate::fault::MakeFault;
use crate::plan::{Plan, image_name};
use btr_chunk::{Chunk, ChunkTable, Elements, Part, elements, place_of};
use btr_rack::MemRack;
use std::alloc::Global;

/// Writes bytes at a logical address: onto each of their copies, or onto the slice that they lie in.
pub(crate) fn write(
    rack: &mut MemRack,
    table: &ChunkTable,
    addr: u64,
    bytes: &[u8],
) -> Result<(), MakeFault>
    ensures { standing rack.new ≡ standing rack.old }
{
    let Some(chunk) = table.find(addr) else {
        return Err(MakeFault::Unmapped);
    };
    let Ok(at) = elements(chunk, addr, bytes.len() as u64) else {
        return Err(MakeFault::Unmapped);
    };
    match chunk.mirrors() {
        Some(copies) => {
            for copy in 0..copies {
                write_part(rack, chunk, Part::Mirror(copy), &at, bytes)?;
            }
            Ok(())
        }
        None => write_part(rack, chunk, Part::Slice(at.index), &at, bytes),
    }
}

pub(crate) fn write_part(
    rack: &mut MemRack,
    chunk: &Chunk,
    part: Part,
    at: &Elements,
    bytes: &[u8],
) -> Result<(), MakeFault>
    requires chunk { IsChunk chunk.now }
    requires part { HasPart chunk.now.profile (length chunk.now.stripes) part }
    requires at { IsPosition chunk.now at.now }
    ensures { standing rack.new ≡ standing rack.old }
{
    let place = place_of(chunk, part, at);
    write_at(rack, image_name(place.devid), place.offset, bytes)
}

/// Writes bytes at an offset of an image.
pub(crate) fn write_at(
    rack: &mut MemRack,
    name: &str,
    off: u64,
    bytes: &[u8],
) -> Result<(), MakeFault>
    ensures { standing rack.new ≡ standing rack.old }
{
    rack.poke(name, off, bytes)?;
    Ok(())
}

/// The images of a plan, all zeros.
pub(crate) fn add_images(alloc: Global, plan: &Plan) -> Result<MemRack, MakeFault>
    requires { plan.now.image_len < 2 ^ 63 }
{
    let mut rack = MemRack::new(alloc);
    for devid in 1..=plan.images {
        rack.add(image_name(devid), plan.image_len)?;
    }
    Ok(rack)
}
