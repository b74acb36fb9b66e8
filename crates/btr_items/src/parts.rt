ghost use Rattle.std.specs.Prelude.{◌≡◌};
ghost use Rattle.btr_items.specs.Parts as spec;

use crate::ItemFault;
use std::marker::{Model, PhantomData};

/// What stands in a body one after another: entries, or references.
pub trait Part: Drop {
    ghost use Rattle.std.specs.Prelude.{ℕ, ◌≡◌, ◌<◌, ◌≤◌, List, length, Result, Ok};
    ghost use Rattle.btr_items.specs.declared.fault.ItemFault.{ItemFault};

    // What stands at a place of a body, or the fault where nothing has the form there.
    ghost part_at: { ℕ → List ℕ → Result Self ItemFault };

    // Where it ends.
    ghost end_of: { Self → ℕ };

    /// The part that begins at `at`.
    fn read_at(body: &[u8], at: usize) -> Result<Self, ItemFault>
        requires { at ≤ length body.now }
        ensures { result ≡ part_at at body.now };

    /// Where the part ends in its body.
    fn end(&self) -> usize
        ensures { result ≡ end_of self.now };

    // It has at least one byte, and ends within its body.
    ghost ends_within: { (at : ℕ) (body : List ℕ) (part : Self) → part_at at body ≡ Ok part → (at < end_of part) × (end_of part ≤ length body) };
}

/// The parts of a body, one after another up to its last byte. The first that breaks its form is the last, and
/// its fault is given.
#[derive(Drop)]
pub struct Parts<'a, P: Part> {
    body: &'a [u8],
    at: usize,
    kind: PhantomData<P>,
}

impl<'a, P: Part> Model for Parts<'a, P> {
    ghost use Rattle.std.specs.Prelude.{◌≤◌, List, length, Result};
    ghost use Rattle.btr_items.specs.declared.fault.ItemFault.{ItemFault};
    ghost use Rattle.btr_items.specs.Parts.{parts_from};

    ghost Value = { List (Result P ItemFault) };

    ghost view = { λ parts. parts_from P.part_at P.end_of parts.at parts.body.now };

    ghost invariant = { λ parts. parts.at ≤ length parts.body.now };
}

impl<'a, P: Part> Parts<'a, P> {
    ghost use Rattle.std.specs.Prelude.{◌≡◌, ◌≤◌, length};
    ghost use Rattle.btr_items.specs.Parts.{parts_from};

    /// The parts from `at` on.
    pub fn new(body: &'a [u8], at: usize) -> Parts<'a, P>
        requires { at ≤ length body.now }
        ensures { result ≡ parts_from P.part_at P.end_of at body.now }
    {
        Parts {
            body,
            at,
            kind: PhantomData,
        }
    }
}

impl<P: Part> Iterator for Parts<'_, P> {
    ghost use Rattle.std.specs.Iterator.{YieldsFirst, item_count};

    type Item = Result<P, ItemFault>;

    ghost next_gives = { YieldsFirst (λ parts. parts) };

    ghost remaining = { item_count (λ parts. parts) };

    fn next(&mut self) -> Option<Result<P, ItemFault>> {
        if self.at == self.body.len() {
            return None;
        }
        let part = P::read_at(self.body, self.at);
        self.at = place_behind(&part, self.body.len());
        Some(part)
    }
}

// Where the parts go on behind what was read: behind a fault there are none.
fn place_behind<P: Part>(part: &Result<P, ItemFault>, size: usize) -> usize
    ensures { result ≡ spec.place_behind P.end_of size part.now }
{
    match part {
        Ok(part) => part.end(),
        Err(_) => size,
    }
}
