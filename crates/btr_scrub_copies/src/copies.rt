// The copies of a block.
ghost use Rattle.std.specs.Prelude.{◌≡◌, ◌≤◌, Ok, Some};
ghost use Rattle.btr_chunk.specs.Chunk.{mirrors};
ghost use Rattle.btr_chunk.specs.Mapping.{place_at};
ghost use Rattle.btr_chunk.specs.declared.place.Part.TheVariants.{Mirror};
ghost use Rattle.btr_read.specs.Candidates.{Target, range_of};
ghost use Rattle.btr_read.specs.Fate.{sought};
ghost use Rattle.btr_read.specs.Want.{len_of};
ghost use Rattle.btr_read.specs.Mirror.{HasMirror};
ghost use Rattle.btr_scrub_copies.specs.Mending.{IsCopied};

use btr_chunk::{Part, StripePlace, elements, place_of};
use btr_rack::Place;
use btr_read::{Store, Want};

// How many copies a block has.
pub(crate) fn copies_of(want: &Want, store: &Store) -> u32
    requires { IsCopied store.now.layout want.now }
    ensures few { result ≤ 4 }
    ensures copies { (t : Target) → sought store.now.layout want.now ≡ Ok t → mirrors t.chunk ≡ Some result }
{
    let Some(chunk) = store.chunks().find(want.addr()) else {
        unreachable!();
    };
    let Some(copies) = chunk.mirrors() else {
        unreachable!();
    };
    copies
}

// Where a copy of a block begins, which is `len` bytes long.
pub(crate) fn begin_of_copy(want: &Want, mirror: u32, len: u64, store: &Store) -> StripePlace
    requires copied { IsCopied store.now.layout want.now }
    requires mirror { (t : Target) → sought store.now.layout want.now ≡ Ok t → HasMirror mirror t }
    requires len { len ≡ len_of store.now.layout.setting want.now }
    ensures { (t : Target) → sought store.now.layout want.now ≡ Ok t → result ≡ place_at t.chunk (Mirror mirror) t.at }
{
    let Some(chunk) = store.chunks().find(want.addr()) else {
        unreachable!();
    };
    let Ok(at) = elements(chunk, want.addr(), len) else {
        unreachable!();
    };
    place_of(chunk, Part::Mirror(mirror), &at)
}

// Where a copy of a block lies, which is `len` bytes long.
pub(crate) fn place_of_copy(want: &Want, mirror: u32, len: u64, store: &Store) -> Place
    requires copies { IsCopied store.now.layout want.now }
    requires mirror { (t : Target) → sought store.now.layout want.now ≡ Ok t → HasMirror mirror t }
    requires len { len ≡ len_of store.now.layout.setting want.now }
    ensures { (t : Target) → sought store.now.layout want.now ≡ Ok t → range_of t (Mirror mirror) ≡ Some result }
{
    let Some(chunk) = store.chunks().find(want.addr()) else {
        unreachable!();
    };
    let Ok(at) = elements(chunk, want.addr(), len) else {
        unreachable!();
    };
    let place = place_of(chunk, Part::Mirror(mirror), &at);
    let Some(device) = store.device(place.devid) else {
        unreachable!();
    };
    Place {
        slot: device.slot,
        off: place.offset,
        len,
    }
}
