// The images of a row that are in doubt, and those that are behind.
ghost use Rattle.std.specs.Prelude.{◌≡◌};
ghost use Rattle.btr_scrub_copies.specs.Fresh.{flagged};
ghost use Rattle.btr_scrub_row.specs.Memory.{IsStripe, IsStripeOf, KnowsDoubts, flag_of};
ghost use Rattle.btr_scrub_row.specs.Rows.{Row, has_doubtful};

use crate::stripe::{FullStripe, devid_of_part};
use btr_chunk::Chunk;
use btr_read::Store;
use btr_scrub_copies::{is_behind, is_doubtful};

// What is known of the images of a row. It has at most 64 elements.
#[derive(Clone, Copy, Debug, PartialEq, Eq)]
pub(crate) struct Doubts {
    // By the number of an element, whether its image is in doubt.
    pub(crate) doubtful: [bool; 64],
    // The same for those that are behind.
    pub(crate) behind: [bool; 64],
    // Whether some image of the chunk is in doubt.
    pub(crate) some: bool,
}

/// Whether some image of a chunk is in doubt (`docs/FORMAT.md`, "Full stripes"), where the images on which some checked block doesn't pass are flagged.
pub fn has_doubtful(chunk: &Chunk, failing: &[bool], store: &Store) -> bool
    ensures { result ≡ has_doubtful store.now.layout.devices (flagged failing.now) chunk.now }
{
    for i in 0..chunk.stripes.len() {
        if is_doubtful(chunk.stripes.at(i).devid, failing, store) {
            return true;
        }
    }
    false
}

// The same for the chunk of a row.
fn chunk_is_doubtful(stripe: &FullStripe, failing: &[bool], store: &Store) -> bool
    requires { IsStripe store.now.layout stripe.now }
    ensures { (row : Row) → IsStripeOf store.now.layout stripe.now row
        → result ≡ has_doubtful store.now.layout.devices (flagged failing.now) row.chunk }
{
    let Some(chunk) = store.chunks().find(stripe.chunk) else {
        unreachable!();
    };
    has_doubtful(chunk, failing, store)
}

// What is known of the images of a row, where those on which some checked block doesn't pass are flagged.
pub(crate) fn doubts_of(stripe: &FullStripe, failing: &[bool], store: &Store) -> Doubts
    requires { IsStripe store.now.layout stripe.now }
    ensures { (row : Row) → IsStripeOf store.now.layout stripe.now row → row.failing ≡ flagged failing.now
        → KnowsDoubts store.now.layout row result }
{
    let mut doubtful = [false; 64];
    let mut behind = [false; 64];
    for number in 0..stripe.shape.elements() {
        let devid = devid_of_part(stripe, stripe.shape.part(number), store);
        doubtful[number as usize] = is_doubtful(devid, failing, store);
        behind[number as usize] = is_behind(devid, failing, store);
    }
    Doubts {
        doubtful,
        behind,
        some: chunk_is_doubtful(stripe, failing, store),
    }
}

// What is flagged by the number of an element.
pub(crate) fn flag_of(flags: &[bool; 64], element: u32) -> bool
    ensures { result ≡ flag_of flags.now element }
{
    if element < 64 {
        flags[element as usize]
    } else {
        false
    }
}
