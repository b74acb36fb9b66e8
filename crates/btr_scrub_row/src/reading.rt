// Reading a row whole.
ghost use Rattle.std.specs.Prelude.{◌≡◌, ◌≢◌, ℕ, ◌+◌, ◌*◌, ◌≤◌, length, OnOk};
ghost use Rattle.btr_rack.specs.Rack.{OnlyReads};
ghost use Rattle.btr_read.specs.Layout.{AreOpen};
ghost use Rattle.btr_scrub_row.specs.Memory.{AccountsRow, IsPartOf, IsStripe, OfRow, ReadsElement, ReadsRow, element_in};

use crate::buffer::ELEMENT;
use crate::stripe::{FullStripe, place_of_part};
use btr_chunk::Part;
use btr_rack::{Rack, RackError};
use btr_read::Store;
use btr_scrub_copies::MendFault;

// Reads the element of a part, to the place in memory that its number says.
fn read_element<R: Rack>(
    stripe: &FullStripe,
    part: Part,
    number: u32,
    rack: &mut R,
    store: &Store,
    bytes: &mut [u8],
) -> Result<(), MendFault>
    requires open { AreOpen (R.seen rack.old).slots store.now.layout.devices }
    requires stripe { IsStripe store.now.layout stripe.now }
    requires part { IsPartOf store.now.layout stripe.now part }
    requires few { number ≤ 64 }
    requires room { (number + 1) * 65536 ≤ length bytes.old }
    ensures reads { OnlyReads (R.seen rack.old) (R.seen rack.new) }
    ensures others { (e : ℕ) → e ≢ number → element_in bytes.new e ≡ element_in bytes.old e }
    ensures bytes { OnOk result
        (ReadsElement store.now.layout stripe.now part (element_in bytes.new number) (R.seen rack.old).held) }
    ensures account { AccountsRow store.now.layout stripe.now (R.seen rack.old) (R.seen rack.new) result }
{
    let place = place_of_part(stripe, part, store);
    let start = number as usize * ELEMENT;
    match rack.read_at(place.slot, place.off, &mut bytes[start..start + ELEMENT]) {
        Ok(()) => Ok(()),
        Err(RackError::Failed) => Err(MendFault::Image(place.slot)),
        Err(RackError::Memory) => unreachable!(),
    }
}

// Reads all elements of a row.
pub(crate) fn read_row<R: Rack>(
    stripe: &FullStripe,
    rack: &mut R,
    store: &Store,
    bytes: &mut [u8],
) -> Result<(), MendFault>
    requires open { AreOpen (R.seen rack.old).slots store.now.layout.devices }
    requires stripe { IsStripe store.now.layout stripe.now }
    requires room { OfRow store.now.layout stripe.now (λ row. length row.chunk.stripes * 65536 ≤ length bytes.old) }
    ensures reads { OnlyReads (R.seen rack.old) (R.seen rack.new) }
    ensures bytes { OnOk result (ReadsRow store.now.layout stripe.now bytes.new (R.seen rack.old).held) }
    ensures account { AccountsRow store.now.layout stripe.now (R.seen rack.old) (R.seen rack.new) result }
{
    for number in 0..stripe.shape.elements() {
        let part = stripe.shape.part(number);
        read_element(stripe, part, number, rack, store, bytes)?;
    }
    Ok(())
}
