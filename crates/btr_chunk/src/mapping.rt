// From logical addresses to places on devices.
ghost use Rattle.std.specs.Prelude.{◌≡◌, ◌<◌, length, IfOk};
ghost use Rattle.btr_chunk.specs.Chunk.{IsChunk};
ghost use Rattle.btr_chunk.specs.Mapping.{elements_of, stripe_of, place_at, IsPosition, LieInOnePiece, HasPart};

use crate::chunk::ELEMENT;
use crate::{Chunk, Elements, Part, Profile, StripePlace};

/// Why a range has no position in a chunk.
#[derive(Clone, Copy, Debug, PartialEq, Eq)]
pub enum MapFault {
    /// Its address isn't in the chunk.
    Unmapped,
    /// It passes the chunk's end or, where the profile has rows, the end of an element.
    Crosses,
}

/// The position of the `len` bytes from `addr` on in the chunk's stripes. `Unmapped` where the address isn't in
/// the chunk, else `Crosses` where the bytes don't lie in one piece on a stripe.
pub fn elements(chunk: &Chunk, addr: u64, len: u64) -> Result<Elements, MapFault>
    requires { IsChunk chunk.now }
    ensures value { result ≡ elements_of chunk.now addr len }
    ensures position { IfOk result (IsPosition chunk.now) }
    ensures reach { IfOk result (λ at. LieInOnePiece chunk.now at len) }
{
    if addr < chunk.start || addr - chunk.start >= chunk.length {
        return Err(MapFault::Unmapped);
    }
    let offset = addr - chunk.start;
    if len > chunk.length - offset {
        return Err(MapFault::Crosses);
    }
    if !chunk.profile.is_striped() {
        return Ok(Elements {
            row: 0,
            index: 0,
            rest: offset,
        });
    }
    let rest = offset % ELEMENT;
    if len > ELEMENT - rest {
        return Err(MapFault::Crosses);
    }
    let element = offset / ELEMENT;
    let data = chunk.profile.data_count(chunk.stripes.len() as u64);
    Ok(Elements {
        row: element / data,
        index: (element % data) as u32,
        rest,
    })
}

/// Where a part of a position lies.
pub fn place_of(chunk: &Chunk, part: Part, at: &Elements) -> StripePlace
    requires chunk { IsChunk chunk.now }
    requires part { HasPart chunk.now.profile (length chunk.now.stripes) part }
    requires at { IsPosition chunk.now at.now }
    ensures { result ≡ place_at chunk.now part at.now }
{
    let stripe = chunk.stripes.at(stripe_number(chunk, part, at));
    StripePlace {
        devid: stripe.devid,
        offset: stripe.offset + at.row * ELEMENT + at.rest,
    }
}

fn stripe_number(chunk: &Chunk, part: Part, at: &Elements) -> usize
    requires chunk { IsChunk chunk.now }
    requires part { HasPart chunk.now.profile (length chunk.now.stripes) part }
    requires at { IsPosition chunk.now at.now }
    ensures value { result ≡ stripe_of chunk.now.profile (length chunk.now.stripes) part at.now }
    ensures below { result < length chunk.now.stripes }
{
    let count = chunk.stripes.len() as u64;
    let data = chunk.profile.data_count(count);
    let number = match part {
        Part::Mirror(copy) => match chunk.profile {
            Profile::Raid0 => u64::from(at.index),
            Profile::Raid10 => 2 * u64::from(at.index) + u64::from(copy),
            _ => u64::from(copy),
        },
        Part::Slice(slice) => (at.row + u64::from(slice)) % count,
        Part::P => (at.row + data) % count,
        Part::Q => (at.row + data + 1) % count,
    };
    number as usize
}
