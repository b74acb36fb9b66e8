// The parities of chunks.
ghost use Rattle.std.specs.Prelude.{◌≡◌, ◌<◌, length, None};
ghost use Rattle.btr_chunk.specs.Chunk.{IsChunk, mirrors, data_count};
ghost use Rattle.btr_chunk.specs.Mapping.{IsPosition, HasPart};
ghost use Rattle.btr_make.specs.Shelf.{standing};

use crate::disks::write_part;
use crate::fault::MakeFault;
use crate::plan::image_name;
use btr_chunk::{Chunk, Elements, Part, Profile, elements, place_of};
use btr_parity::{double_and_add, fold_p};
use btr_rack::MemRack;

const SECTOR: u64 = 4096;

const ELEMENT: u64 = 65536;

type Sector = [u8; 4096];

/// Writes P and Q of what stands in the rows of a chunk, where its profile has them.
pub(crate) fn put_parities(rack: &mut MemRack, chunk: &Chunk) -> Result<(), MakeFault>
    requires { IsChunk chunk.now }
    ensures { standing rack.new ≡ standing rack.old }
{
    if chunk.mirrors().is_some() {
        return Ok(());
    }
    let row_length = u64::from(slice_count(chunk)).wrapping_mul(ELEMENT);
    for row in 0..chunk.stripe_length() / ELEMENT {
        for column in 0..ELEMENT / SECTOR {
            let offset = row
                .wrapping_mul(row_length)
                .wrapping_add(column.wrapping_mul(SECTOR));
            let Ok(at) = elements(chunk, chunk.start.wrapping_add(offset), SECTOR) else {
                return Err(MakeFault::Unmapped);
            };
            put_column(rack, chunk, &at)?;
        }
    }
    Ok(())
}

// How many data slices a row has.
fn slice_count(chunk: &Chunk) -> u32
    requires chunk { IsChunk chunk.now }
    requires parity { mirrors chunk.now ≡ None }
    ensures { result ≡ data_count chunk.now.profile (length chunk.now.stripes) }
{
    let parities = match chunk.profile {
        Profile::Raid6 => 2,
        _ => 1,
    };
    chunk.stripes.len() as u32 - parities
}

// Writes the parities of the sectors at one place of a row's slices. Where none was written, the parities are zeros too.
fn put_column(rack: &mut MemRack, chunk: &Chunk, at: &Elements) -> Result<(), MakeFault>
    requires chunk { IsChunk chunk.now }
    requires parity { mirrors chunk.now ≡ None }
    requires at { IsPosition chunk.now at.now }
    ensures { standing rack.new ≡ standing rack.old }
{
    let mut p = [0; 4096];
    let mut q = [0; 4096];
    let mut is_written = false;
    for slice in (0..slice_count(chunk)).rev() {
        let sector = read_slice(rack, chunk, slice, at);
        is_written |= sector.is_some();
        let sector = sector.unwrap_or([0; 4096]);
        fold_p(&mut p, &sector);
        double_and_add(&mut q, &sector);
    }
    if !is_written {
        return Ok(());
    }
    write_part(rack, chunk, Part::P, at, &p)?;
    if chunk.profile == Profile::Raid6 {
        write_part(rack, chunk, Part::Q, at, &q)?;
    }
    Ok(())
}

// The sector at a place of a slice, where it was written.
fn read_slice(rack: &MemRack, chunk: &Chunk, slice: u32, at: &Elements) -> Option<Sector>
    requires chunk { IsChunk chunk.now }
    requires part { HasPart chunk.now.profile (length chunk.now.stripes) (Part.Slice slice) }
    requires at { IsPosition chunk.now at.now }
{
    let place = place_of(chunk, Part::Slice(slice), at);
    let page = rack.page(image_name(place.devid), place.offset / SECTOR)?;
    let mut sector = [0; 4096];
    for (to, from) in sector.iter_mut().zip(page) {
        *to = *from;
    }
    Some(sector)
}
