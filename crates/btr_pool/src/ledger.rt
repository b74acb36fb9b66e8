ghost use Rattle.std.specs.Prelude.{◌≡◌, ◌+◌, ◌<◌, ◌≤◌, ◌↔◌, true, false, not, length, replicate, if◌then◌else◌, slice_index_or, slice_set, count_by};
ghost use Rattle.std.specs.Prelude.{IsTrue, IsNone, IfSome, IfNone};
ghost use Rattle.std.specs.Int.{bit_at};

use std::marker::Model;

/// Which slots are lent, of at most 64: a bit for each, so that a free one is found in constant time.
///
/// Clauses see a list with, for each slot, whether it is lent.
#[derive(Debug, Drop)]
pub(crate) struct Ledger {
    count: u32,
    /// Bit k is 1 where slot k is free.
    free: u64,
    /// Where the search for a free slot begins. It goes round, so that what was left in a slot stays there for long.
    start: u32,
}

impl Model for Ledger {
    ghost use Rattle.std.specs.Prelude.{List, Bool};

    ghost Value = { List Bool };

    ghost use Rattle.btr_pool.specs.Ledger.{lent_of, IsLedger};

    ghost view = { λ ledger. lent_of ledger.count ledger.free };

    ghost invariant = { IsLedger };
}

impl Ledger {
    /// A ledger of `count` slots, all free.
    pub(crate) fn new(count: u32) -> Ledger
        requires some { 0 < count }
        requires few { count ≤ 64 }
        ensures { result ≡ replicate count false }
    {
        Ledger {
            count,
            free: u64::MAX >> (64 - count),
            start: 0,
        }
    }

    /// The number of free slots.
    pub(crate) fn free(&self) -> usize
        ensures { result ≡ count_by not self.now }
    {
        self.free.count_ones() as usize
    }

    /// Lends a free slot. None: no slot is free.
    pub(crate) fn lend(&mut self) -> Option<usize>
        ensures full { IsNone result ↔ (count_by not self.old ≡ 0) }
        ensures was_free { IfSome result (λ slot. slice_index_or self.old slot true ≡ false) }
        ensures lent { IfSome result (λ slot. self.new ≡ slice_set self.old slot true) }
        ensures unchanged { IfNone result (self.new ≡ self.old) }
    {
        let slot = lowest_one(self.free, self.start)?;
        self.free &= !(1 << slot);
        self.start = (slot + 1) % 64;
        Some(slot as usize)
    }

    /// Whether this slot is there and free.
    pub(crate) fn is_free(&self, slot: usize) -> bool
        ensures { IsTrue result ↔ (slice_index_or self.now slot true ≡ false) }
    {
        if slot >= 64 || self.free & (1 << slot) == 0 {
            return false;
        }
        true
    }

    /// Lends this slot, where it is there and free.
    pub(crate) fn lend_slot(&mut self, slot: usize) -> bool
        ensures was_free { IsTrue result ↔ (slice_index_or self.old slot true ≡ false) }
        ensures lent { self.new ≡ (if result then slice_set self.old slot true else self.old) }
    {
        if slot >= 64 || self.free & (1 << slot) == 0 {
            return false;
        }
        self.free &= !(1 << slot);
        true
    }

    /// Takes this slot back.
    pub(crate) fn release(&mut self, slot: usize)
        requires { slot < length self.old }
        ensures { self.new ≡ slice_set self.old slot false }
    {
        let free = self.free;
        self.free = free | 1 << slot;
    }
}

/// The lowest 1 of `bits` from bit `start` on, or else the lowest of all.
fn lowest_one(bits: u64, start: u32) -> Option<u32>
    requires { start < 64 }
    ensures none { IsNone result ↔ (bits ≡ 0) }
    ensures within { IfSome result (λ k. k < 64) }
    ensures one { IfSome result (λ k. bit_at bits k ≡ 1) }
{
    let ahead = bits & (u64::MAX << start);
    if ahead != 0 {
        Some(ahead.trailing_zeros())
    } else if bits != 0 {
        Some(bits.trailing_zeros())
    } else {
        None
    }
}
