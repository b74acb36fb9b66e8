// Which tree blocks stand in the slots, from one loan to the next.
ghost use Rattle.std.specs.Prelude.{◌≡◌, ◌<◌, ℕ, true, false, Some, None, IsSome, IsTrue, IfSome, IfNone, length, replicate, slice_index_or, slice_set};
ghost use Rattle.btr_pool.specs.Slots.{IsFree, free_count, with_lent};
ghost use Rattle.btr_read.specs.Store.{kept_want};
ghost use Rattle.btr_read.specs.Writing.{ComesFirst, IsUsed, NoneKeeps};

use crate::Want;
use btr_pool::{Loan, Pool};

/// How many slots a store has for blocks.
pub(crate) const SLOTS: usize = 24;

/// By slot, the tree block that stands in it, whether it is known to be a good node, and when it was last used.
#[derive(Clone, Copy, Debug)]
pub(crate) struct Kept {
    /// The wants whose blocks stand in the slots.
    pub(crate) wants: [Option<Want>; SLOTS],
    /// Which of these blocks are known to be good nodes.
    pub(crate) nodes: [bool; SLOTS],
    /// When each was last used.
    used: [u64; SLOTS],
    /// What the times have counted up to.
    clock: u64,
}

impl Kept {
    // No block is known to stand in a slot.
    pub(crate) fn new() -> Kept
        ensures { result.wants ≡ replicate 24 None }
    {
        Kept {
            wants: [None; SLOTS],
            nodes: [false; SLOTS],
            used: [0; SLOTS],
            clock: 0,
        }
    }

    // Notes that the block of a want stands in a slot, if it is a tree block. It isn't known to be a good node.
    pub(crate) fn keep(&mut self, slot: usize, want: &Want)
        requires { slot < 24 }
        ensures kept { self.new.wants ≡ slice_set self.old.wants slot (kept_want want.now) }
        ensures nodes { self.new.nodes ≡ slice_set self.old.nodes slot false }
        ensures room { slot < length self.old.wants }
        ensures used { IsUsed self.old.used self.old.clock slot self.new.used self.new.clock }
    {
        self.wants[slot] = match want {
            Want::Tree { .. } => Some(*want),
            Want::Block { .. } => Some(*want),
            Want::Sector { .. } => None,
            Want::Plain { .. } => None,
        };
        self.nodes[slot] = false;
        self.touch(slot);
    }

    // Notes that the block in a slot is a good node.
    pub(crate) fn note_node(&mut self, slot: usize)
        requires { slot < 24 }
        ensures wants { self.new.wants ≡ self.old.wants }
        ensures nodes { self.new.nodes ≡ slice_set self.old.nodes slot true }
    {
        self.nodes[slot] = true;
    }

    // Whether a block stands in a slot that is known to be a good node.
    pub(crate) fn is_node(&self, slot: usize) -> bool
        requires { slot < 24 }
        ensures stands { IsTrue result → IsSome (slice_index_or self.now.wants slot None) }
        ensures node { IsTrue result → slice_index_or self.now.nodes slot false ≡ true }
    {
        self.wants[slot].is_some() && self.nodes[slot]
    }

    // Forgets what stands in a slot, before it is written.
    fn forget(&mut self, slot: usize)
        requires { slot < 24 }
        ensures wants { self.new.wants ≡ slice_set self.old.wants slot None }
        ensures nodes { self.new.nodes ≡ self.old.nodes }
        ensures used { self.new.used ≡ self.old.used }
        ensures clock { self.new.clock ≡ self.old.clock }
    {
        self.wants[slot] = None;
    }

    // Notes that a slot was used.
    fn touch(&mut self, slot: usize)
        requires { slot < 24 }
        ensures wants { self.new.wants ≡ self.old.wants }
        ensures nodes { self.new.nodes ≡ self.old.nodes }
        ensures used { IsUsed self.old.used self.old.clock slot self.new.used self.new.clock }
    {
        self.clock = self.clock.saturating_add(1);
        self.used[slot] = self.clock;
    }

    // The free slot in which the block of a want stands.
    fn find(&self, pool: &Pool, want: &Want) -> Option<usize>
        requires count { length pool.now.bytes ≡ 24 }
        ensures free { IfSome result (IsFree pool.now) }
        ensures there { IfSome result (λ slot. slot < 24) }
        ensures kept { IfSome result (λ slot. slice_index_or self.now.wants slot None ≡ Some want.now) }
        ensures missing { IfNone result (NoneKeeps pool.now self.now.wants want.now) }
    {
        let wanted = Some(*want);
        for slot in 0..SLOTS {
            if pool.is_free(slot) && self.wants[slot] == wanted {
                return Some(slot);
            }
        }
        None
    }

    // Of the free slots the one to be written next: the first one in which no tree block is known to stand, and else the one
    // that was used least lately. So sectors, which aren't kept, go into the same slot, which stays near the processor.
    // `first` is a free slot.
    fn least(&self, pool: &Pool, first: usize) -> usize
        requires free { IsFree pool.now first }
        requires count { length pool.now.bytes ≡ 24 }
        ensures free { IsFree pool.now result }
        ensures least { (k : ℕ) → IsFree pool.now k → ComesFirst self.now.wants self.now.used result k }
    {
        let mut least = first;
        for slot in 0..SLOTS {
            if pool.is_free(slot) {
                if self.wants[slot].is_none() {
                    return slot;
                }
                if self.used[slot] < self.used[least] {
                    least = slot;
                }
            }
        }
        least
    }
}

// A free slot.
fn free_slot(pool: &mut Pool) -> usize
    requires { 0 < free_count pool.old }
    ensures free { IsFree pool.old result }
    ensures same { pool.new ≡ pool.old }
{
    let Ok(loan) = pool.take() else {
        unreachable!();
    };
    let slot = loan.slot();
    pool.give(loan);
    slot
}

// Lends the slot to be written next, and forgets what stands in it.
pub(crate) fn take_least(pool: &mut Pool, kept: &mut Kept) -> Loan
    requires room { 0 < free_count pool.old }
    requires count { length pool.old.bytes ≡ 24 }
    ensures free { IsFree pool.old result }
    ensures lent { pool.new ≡ with_lent pool.old result }
    ensures least { (k : ℕ) → IsFree pool.old k → ComesFirst kept.old.wants kept.old.used result k }
    ensures forgotten { kept.new.wants ≡ slice_set kept.old.wants result None }
    ensures nodes { kept.new.nodes ≡ kept.old.nodes }
    ensures used { kept.new.used ≡ kept.old.used }
    ensures clock { kept.new.clock ≡ kept.old.clock }
{
    let first = free_slot(pool);
    let slot = kept.least(pool, first);
    kept.forget(slot);
    let Some(loan) = pool.take_slot(slot) else {
        unreachable!();
    };
    loan
}

// Lends the slot in which the block of a want stands, if one that is free has it.
pub(crate) fn lend_kept(want: &Want, pool: &mut Pool, kept: &mut Kept) -> Option<Loan>
    requires count { length pool.old.bytes ≡ 24 }
    ensures free { IfSome result (IsFree pool.old) }
    ensures lent { IfSome result (λ slot. pool.new ≡ with_lent pool.old slot) }
    ensures kept { IfSome result (λ slot. slice_index_or kept.old.wants slot None ≡ Some want.now) }
    ensures wants { kept.new.wants ≡ kept.old.wants }
    ensures nodes { kept.new.nodes ≡ kept.old.nodes }
    ensures used { IfSome result (λ slot. IsUsed kept.old.used kept.old.clock slot kept.new.used kept.new.clock) }
    ensures none { IfNone result (pool.new ≡ pool.old) }
    ensures missing { IfNone result (NoneKeeps pool.old kept.old.wants want.now) }
{
    let slot = kept.find(pool, want)?;
    kept.touch(slot);
    pool.take_slot(slot)
}
