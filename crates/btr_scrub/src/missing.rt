// Whether all devices are given.
ghost use Rattle.std.specs.Prelude.{◌≡◌, slice_get};
ghost use Rattle.std.specs.Option.{option_map};
ghost use Rattle.btr_chunk.specs.Chunk.{IsChunk};
ghost use Rattle.btr_chunk.specs.Table.{IsTable};
ghost use Rattle.btr_scrub.specs.Repair.{devid_of, first_missing, is_missing, missing_stripes};

use btr_chunk::{Chunk, Stripe};
use btr_read::Store;

// Whether a stripe of so many bytes has no place on a device that is given.
fn is_missing(stripe: &Stripe, len: u64, store: &Store) -> bool
    ensures { result ≡ is_missing store.now.layout.devices len stripe.now }
{
    match store.device(stripe.devid) {
        None => true,
        Some(device) => device.len < len || device.len - len < stripe.offset,
    }
}

// The device of the first stripe of a chunk that has no place, if there is one.
fn missing_in(chunk: &Chunk, store: &Store) -> Option<u64>
    requires { IsChunk chunk.now }
    ensures { result ≡ option_map devid_of (slice_get (missing_stripes store.now.layout.devices chunk.now) 0) }
{
    let len = chunk.stripe_length();
    for i in 0..chunk.stripes.len() {
        let stripe = chunk.stripes.at(i);
        if is_missing(&stripe, len, store) {
            return Some(stripe.devid);
        }
    }
    None
}

/// The id of the first device that isn't given, or whose image ends before the end of a stripe on it: that of the first such
/// stripe, by chunk and then by its number there (`docs/FORMAT.md`, "Chunks").
pub fn missing_device(store: &Store) -> Option<u64>
    ensures devid { result ≡ option_map devid_of (first_missing store.now.layout) }
    ensures table { IsTable store.now.layout.chunks }
{
    for i in 0..store.chunks().count() {
        if let Some(devid) = missing_in(store.chunks().at(i), store) {
            return Some(devid);
        }
    }
    None
}
