use crate::Stripe;
use std::alloc::{AllocError, Global};
use std::marker::Model;

/// The stripes of a chunk in the order of its item, seen as a list.
#[derive(Debug, Drop)]
pub struct Stripes {
    items: Vec<Stripe>,
}

impl Model for Stripes {
    ghost use Rattle.std.specs.Prelude.{List};
    ghost use Rattle.btr_chunk.specs.declared.stripe.Stripe.{Stripe};

    ghost Value = { List Stripe };

    ghost view = { λ s. s.items.items };
}

impl Stripes {
    ghost use Rattle.std.specs.Prelude.{◌≡◌, ◌+◌, ◌*◌, ◌<◌, ◌≤◌, length, slice_get, Some, IfOk};
    ghost use Rattle.std.specs.List.{list_all};
    ghost use Rattle.btr_chunk.specs.Item.{stripes_in};
    ghost use Rattle.std.specs.Cmp.Lexicographic.{pointwise};
    ghost use Rattle.btr_chunk.specs.Chunk.{is_stripe};
    ghost use Rattle.btr_chunk.specs.Table.{some_meet, same_stripe};

    /// How many stripes there are.
    pub fn len(&self) -> usize
        ensures { result ≡ length self.now }
    {
        self.items.len()
    }

    /// The stripe at the place `i`, counted from 0.
    pub fn at(&self, i: usize) -> Stripe
        requires { i < length self.now }
        ensures { slice_get self.now i ≡ Some result }
    {
        self.items[i]
    }

    // The first `count` stripes of an item.
    pub(crate) fn read(alloc: Global, count: u16, bytes: &[u8]) -> Result<Stripes, AllocError>
        requires { 48 + 32 * count ≤ length bytes.now }
        ensures value { IfOk result (λ stripes. stripes ≡ stripes_in count bytes.now) }
        ensures len { IfOk result (λ stripes. length stripes ≡ count) }
    {
        let count = usize::from(count);
        let mut items = Vec::with_capacity(alloc, count)?;
        for i in 0..count {
            items.push(Stripe::read(bytes, 48 + 32 * i))?;
        }
        Ok(Stripes { items })
    }

    // Whether each of them keeps the rule, where they are this long.
    pub(crate) fn keep_rule(&self, length: u64) -> bool
        ensures { result ≡ list_all (is_stripe length) self.now }
    {
        self.items.iter().all(|stripe| stripe.keeps_rule(length))
    }

    // The stripes as a slice.
    pub(crate) fn as_slice(&self) -> &[Stripe]
        ensures { result.now ≡ self.now }
    {
        self.items.as_slice()
    }

    // Whether the stripes are those of the other.
    pub(crate) fn are_same(&self, other: &Stripes) -> bool
        ensures { result ≡ pointwise same_stripe self.now other.now }
    {
        self.items == other.items
    }

    // Whether two of them share a byte of a device, where they are this long.
    pub(crate) fn share(&self, length: u64) -> bool
        ensures { result ≡ some_meet length self.now }
    {
        let mut rest = self.items.as_slice();
        while let Some((first, others)) = rest.split_first() {
            if first.meets_some(others, length) {
                return true;
            }
            rest = others;
        }
        false
    }
}
