// A full stripe, and where its elements lie.
ghost use Rattle.std.specs.Prelude.{◌≡◌, Some};
ghost use Rattle.btr_scrub_row.specs.Rows.{Row, range_in_element};
ghost use Rattle.btr_scrub_row.specs.Mending.{HasStripe, IsFullStripe};
ghost use Rattle.btr_scrub_row.specs.Memory.{IsPartOf, IsStripe, IsStripeOf, OfRow, devid_at};

use crate::shape::Shape;
use btr_chunk::{Elements, Part, Profile, place_of};
use btr_rack::Place;
use btr_read::Store;

// A row of a chunk with parity.
#[derive(Clone, Copy, Debug, PartialEq, Eq)]
pub(crate) struct FullStripe {
    // The start of the chunk.
    pub(crate) chunk: u64,
    pub(crate) number: u64,
    pub(crate) nodesize: u32,
    pub(crate) shape: Shape,
}

// The row of a number in the chunk that starts at an address.
pub(crate) fn full_stripe(chunk: u64, number: u64, nodesize: u32, store: &Store) -> FullStripe
    requires nodesize { nodesize ≡ store.now.layout.setting.nodesize }
    requires row { HasStripe store.now.layout chunk number }
    ensures { (row : Row) → IsFullStripe store.now.layout chunk number row → IsStripeOf store.now.layout result row }
{
    let Some(found) = store.chunks().find(chunk) else {
        unreachable!();
    };
    let parities = match found.profile {
        Profile::Raid6 => 2,
        _ => 1,
    };
    FullStripe {
        chunk,
        number,
        nodesize,
        shape: Shape {
            profile: found.profile,
            slices: found.stripes.len() as u32 - parities,
        },
    }
}

// The device on which the element of a part lies.
pub(crate) fn devid_of_part(stripe: &FullStripe, part: Part, store: &Store) -> u64
    requires stripe { IsStripe store.now.layout stripe.now }
    requires part { IsPartOf store.now.layout stripe.now part }
    ensures { OfRow store.now.layout stripe.now (λ row. devid_at row part ≡ result) }
{
    let Some(chunk) = store.chunks().find(stripe.chunk) else {
        unreachable!();
    };
    let at = Elements {
        row: stripe.number,
        index: 0,
        rest: 0,
    };
    place_of(chunk, part, &at).devid
}

// Where the element of a part lies.
pub(crate) fn place_of_part(stripe: &FullStripe, part: Part, store: &Store) -> Place
    requires stripe { IsStripe store.now.layout stripe.now }
    requires part { IsPartOf store.now.layout stripe.now part }
    ensures { OfRow store.now.layout stripe.now
        (λ row. range_in_element store.now.layout row part 0 65536 ≡ Some result) }
{
    let Some(chunk) = store.chunks().find(stripe.chunk) else {
        unreachable!();
    };
    let at = Elements {
        row: stripe.number,
        index: 0,
        rest: 0,
    };
    let place = place_of(chunk, part, &at);
    let Some(device) = store.device(place.devid) else {
        unreachable!();
    };
    Place {
        slot: device.slot,
        off: place.offset,
        len: 65536,
    }
}
