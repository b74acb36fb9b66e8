// The ranges of devices that the stripes of a table take up: the length of each by the place of its first byte.
ghost use Rattle.std.specs.Prelude.{◌≡◌, ◌+◌, ◌^◌, ◌<◌, Some, None, OnOk, OnErr, false, if◌then◌else◌};
ghost use Rattle.btr_chunk.specs.Extents.{extent_of, AnswersMeeting, IsSpaced, AreFree, has_stripe_at};
ghost use Rattle.btr_chunk.specs.declared.place.StripePlace.{StripePlace};
ghost use Rattle.btr_chunk.specs.Table.{some_meet};

use crate::{Stripe, StripePlace};
use std::alloc::AllocError;
use std::collections::BTreeMap;

// Whether a stripe of this length shares a byte with one of the ranges, which share none with each other. Only the
// last range that begins below the stripe's end can reach into it.
pub(crate) fn meets(extents: &BTreeMap<StripePlace, u64>, stripe: &Stripe, length: u64) -> bool
    requires spaced { IsSpaced (extent_of extents.now) }
    requires some { 0 < length }
    requires fits { stripe.now.offset + length < 2 ^ 64 }
    ensures { AnswersMeeting (extent_of extents.now) length stripe.now result }
{
    let end = StripePlace {
        devid: stripe.devid,
        offset: stripe.offset + length,
    };
    match extents.range(..end).next_back() {
        None => false,
        Some((place, taken)) => {
            place.devid == stripe.devid
                && (stripe.offset < place.offset || stripe.offset - place.offset < *taken)
        }
    }
}

// Enters the ranges of stripes of this length, or none of them.
pub(crate) fn enter(
    extents: &mut BTreeMap<StripePlace, u64>,
    stripes: &[Stripe],
    length: u64,
) -> Result<(), AllocError>
    requires free { AreFree (extent_of extents.old) stripes.now }
    requires spread { some_meet length stripes.now ≡ false }
    requires some { 0 < length }
    ensures ok { OnOk result ((place : StripePlace) → extent_of extents.new place
        ≡ (if has_stripe_at place stripes.now then Some length else extent_of extents.old place)) }
    ensures err { OnErr result ((place : StripePlace) → extent_of extents.new place ≡ extent_of extents.old place) }
{
    let Some((first, others)) = stripes.split_first() else {
        return Ok(());
    };
    let place = StripePlace {
        devid: first.devid,
        offset: first.offset,
    };
    extents.insert(place, length)?;
    let entered = enter(extents, others, length);
    if entered.is_err() {
        extents.remove(&place);
    }
    entered
}
