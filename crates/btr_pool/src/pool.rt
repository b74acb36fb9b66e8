ghost use Rattle.std.specs.Prelude.{◌≡◌, ◌+◌, ◌*◌, ◌<◌, ◌≤◌, ◌↔◌, length, slice_range, IsErr, IsSome, IsTrue, IfOk, IfSome, IfNone, OnErr};
ghost use Rattle.std.specs.Borrow.{sem};
ghost use Rattle.btr_pool.specs.Slots.{IsLive, IsFree, free_count, bytes_at, zeroed, with_lent, with_free, FillsAlone};
ghost use Rattle.btr_pool.specs.Lending.{LendsSlot};

use crate::full::Full;
use crate::ledger::Ledger;
use crate::loan::Loan;
use btr_base::Memory;
use std::alloc::Global;
use std::marker::Model;

/// A region of memory that is cut into slots of one size, which are lent out and given back.
///
/// Clauses see the size, and for each slot its bytes and whether it is lent. A loan is live while its slot is lent.
/// Which free slot is lent next is left open: the search goes round, so that what was left in a slot stays there for long.
#[derive(Debug, Drop)]
pub struct Pool {
    region: Vec<u8>,
    size: usize,
    ledger: Ledger,
}

impl Model for Pool {
    ghost use Rattle.btr_pool.specs.Slots.{Slots};

    ghost Value = { Slots };

    ghost use Rattle.btr_pool.specs.Region.{slots_of, IsPool};

    ghost view = { slots_of };

    ghost invariant = { IsPool };
}

impl Pool {
    /// A pool of `count` free slots of `size` bytes, all zero.
    ///
    /// `Memory`: the region couldn't be had. No other call of a pool takes memory.
    pub fn new(alloc: Global, size: usize, count: usize) -> Result<Pool, Memory>
        requires some_bytes { 0 < size }
        requires small { size ≤ 65536 }
        requires some_slots { 0 < count }
        requires few { count ≤ 64 }
        ensures { IfOk result (λ pool. pool ≡ zeroed size count) }
    {
        let Ok(region) = vec![in alloc; 0u8; size * count] else {
            return Err(Memory);
        };
        Ok(Pool {
            region,
            size,
            ledger: Ledger::new(count as u32),
        })
    }

    /// The number of bytes of each slot.
    pub fn size(&self) -> usize
        ensures { result ≡ self.now.size }
    {
        self.size
    }

    /// The number of free slots.
    pub fn free(&self) -> usize
        ensures { result ≡ free_count self.now }
    {
        self.ledger.free()
    }

    /// Whether there is a slot of this number, and it is free, in constant time.
    pub fn is_free(&self, slot: usize) -> bool
        ensures { IsTrue result ↔ IsFree self.now slot }
    {
        self.ledger.is_free(slot)
    }

    /// Lends a free slot, with the bytes that were left in it, in constant time.
    ///
    /// `Full`: no slot is free, and the pool is as before.
    pub fn take(&mut self) -> Result<Loan, Full>
        ensures full { IsErr result ↔ (free_count self.old ≡ 0) }
        ensures was_free { IfOk result (IsFree self.old) }
        ensures lent { IfOk result (λ loan. self.new ≡ with_lent self.old loan) }
        ensures unchanged { OnErr result (self.new ≡ self.old) }
    {
        let Some(slot) = self.ledger.lend() else {
            return Err(Full);
        };
        Ok(Loan { slot })
    }

    /// Lends the slot of this number, with the bytes that were left in it, in constant time.
    ///
    /// `None`: there is no such slot or it is lent, and the pool is as before.
    pub fn take_slot(&mut self, slot: usize) -> Option<Loan>
        ensures was_free { IsSome result ↔ IsFree self.old slot }
        ensures same { IfSome result (λ loan. loan ≡ slot) }
        ensures lent { IfSome result (λ loan. self.new ≡ with_lent self.old loan) }
        ensures unchanged { IfNone result (self.new ≡ self.old) }
    {
        if !self.ledger.lend_slot(slot) {
            return None;
        }
        Some(Loan { slot })
    }

    /// The bytes of a live loan, `size` of them.
    pub fn bytes(&self, loan: &Loan) -> &[u8]
        requires { IsLive self.now loan.now }
        ensures value { result.now ≡ bytes_at self.now loan.now }
        ensures len { length result.now ≡ self.now.size }
    {
        let start = loan.slot * self.size;
        &self.region[start..start + self.size]
    }

    /// The bytes of a live loan, `size` of them, to be written. No other slot changes.
    pub fn bytes_mut(&mut self, loan: &Loan) -> &mut [u8]
        requires { IsLive self.old loan.now }
        ensures* writes_back { sem 𝓛 (LendsSlot self.entry loan.now result) }
        ensures alone { FillsAlone self.old loan.now }
        ensures value { result.now ≡ bytes_at self.old loan.now }
        ensures len { length result.now ≡ self.old.size }
    {
        let start = loan.slot * self.size;
        let end = start + self.size;
        self.region.slice_mut(start..end)
    }

    /// Fills `buf` with the bytes of a live loan from `offset` on.
    pub fn copy_out(&self, loan: &Loan, offset: usize, buf: &mut [u8])
        requires live { IsLive self.now loan.now }
        requires within { offset + length buf.old ≤ self.now.size }
        ensures { buf.new ≡ slice_range (bytes_at self.now loan.now) offset (offset + length buf.old) }
    {
        let bytes = self.bytes(loan);
        buf.copy_from_slice(&bytes[offset..offset + buf.len()]);
    }

    /// Takes a live loan back, in constant time. Its slot is free, and keeps its bytes until they are written under another loan.
    pub fn give(&mut self, loan: Loan)
        requires { IsLive self.old loan }
        ensures { self.new ≡ with_free self.old loan }
    {
        let Loan { slot } = loan;
        self.ledger.release(slot);
    }
}
