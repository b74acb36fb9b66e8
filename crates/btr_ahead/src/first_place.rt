// Where the bytes of a sector are sought first.
ghost use Rattle.std.specs.Prelude.{◌≡◌, ◌≤◌, ◌-◌, if◌then◌else◌, IfSome, List, Ok, Some, length};
ghost use Rattle.btr_read.specs.Layout.{AreOpen};
ghost use Rattle.btr_chunk.specs.Chunk.{IsChunk, is_striped};
ghost use Rattle.btr_chunk.specs.Mapping.{HasPart, elements_of};
ghost use Rattle.btr_chunk.specs.Table.{chunk_at};
ghost use Rattle.btr_read.specs.Fate.{target};
ghost use Rattle.btr_read.specs.declared.want.Want.TheVariants.{Plain};
ghost use Rattle.btr_ahead.specs.Ahead.{IsFirstPlace, IsInSlot, first_part, first_place};
ghost use Rattle.btr_rack.specs.Rack.{Slot};
ghost use Rattle.std.specs.Option.{option_map};

use btr_chunk::{Chunk, ELEMENT, Elements, Part, elements, place_of};
use btr_rack::Place;
use btr_read::{Store, Want, way_at};

/// How many bytes a sector has.
pub(crate) const SECTOR: u64 = 4096;

/// Where the bytes of a sector are sought first.
#[derive(Clone, Copy)]
pub(crate) struct FirstPlace {
    pub(crate) place: Place,
    /// How many bytes of the chunk stand behind one another in the image from there on.
    pub(crate) reach: u64,
}

// The part that is sought first for the sector at an address, if the first candidate reads one as it stands: a copy, or
// the slice itself.
fn first_part(addr: u64, chunk: &Chunk, at: &Elements, store: &Store) -> Option<Part>
    requires rule { IsChunk chunk.now }
    requires chunk { chunk_at store.now.layout.chunks addr ≡ Some chunk.now }
    requires placed { elements_of chunk.now addr 4096 ≡ Ok at.now }
    ensures part { result ≡ first_part (target store.now.layout (Plain addr) chunk.now at.now) }
    ensures there { IfSome result (HasPart chunk.now.profile (length chunk.now.stripes)) }
{
    let way = way_at(&Want::Plain { addr }, 0, store);
    match chunk.mirrors() {
        Some(_) => Some(Part::Mirror(way)),
        None => {
            if way == 0 {
                Some(Part::Slice(at.index))
            } else {
                None
            }
        }
    }
}

// How many bytes from a position on lie in one piece: up to the end of an element where the profile has rows, else of the chunk.
fn reach(chunk: &Chunk, at: &Elements) -> u64
    ensures { result ≡ (if is_striped chunk.now.profile then ELEMENT else chunk.now.length) - at.now.rest }
{
    let end = if chunk.profile.is_striped() {
        ELEMENT
    } else {
        chunk.length
    };
    end.saturating_sub(at.rest)
}

/// The place of the candidate that is sought first for the sector at an address, if it has a position, and stands.
pub(crate) fn first_place(addr: u64, store: &Store) -> Option<FirstPlace>
    ensures place { option_map (λ first. first.place) result ≡ first_place store.now.layout addr }
    ensures first { IfSome result (λ first. IsFirstPlace store.now.layout addr first.place) }
    ensures slot { (slots : List Slot) → AreOpen slots store.now.layout.devices → IfSome result (λ first. IsInSlot slots first.place) }
    ensures reach { IfSome result (λ first. 4096 ≤ first.reach) }
{
    let Some(chunk) = store.chunks().find(addr) else {
        return None;
    };
    let Ok(at) = elements(chunk, addr, SECTOR) else {
        return None;
    };
    let Some(part) = first_part(addr, chunk, &at, store) else {
        return None;
    };
    let place = place_of(chunk, part, &at);
    let Some(device) = store.device(place.devid) else {
        return None;
    };
    if place.offset > device.len || SECTOR > device.len - place.offset {
        return None;
    }
    Some(FirstPlace {
        place: Place {
            slot: device.slot,
            off: place.offset,
            len: SECTOR,
        },
        reach: reach(chunk, &at),
    })
}
