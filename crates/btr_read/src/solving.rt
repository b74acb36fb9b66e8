// Lost slices, from what the parities leave of them in slots.
ghost use Rattle.std.specs.Prelude.{◌≡◌, ◌≢◌, ℕ, ◌+◌, ◌≤◌, List, [], ◌∷◌, length, take};
ghost use Rattle.btr_read.specs.declared.parity.Parity.{Parity};
ghost use Rattle.btr_read.specs.Folding.{front_of, AddsTwice, SolvesFront, SolvesWith, SolvesPiece, SolvesRange};
ghost use Rattle.btr_read.specs.Writing.{AreRowSlots, OnlyWritesIn};
ghost use Rattle.btr_parity.specs.Solutions.{IsTheOne, Weighs};
ghost use Rattle.btr_pool.specs.Slots.{IsLive, bytes_at, with_bytes};

use crate::folding::{PIECE, add_slot, copy_slot};
use crate::parity::Parity;
use crate::row_slots::RowSlots;
use btr_parity::{rebuild_pq, rebuild_q};
use btr_pool::{Loan, Pool};

fn divide_front(sum: &mut [u8], len: usize, index: u8)
    requires fits { len ≤ length sum.old }
    requires is_index { index ≤ 62 }
    ensures { IsTheOne len (Weighs index (take len sum.old)) (take len sum.new) }
{
    rebuild_q(&mut sum[..len], index);
}

// Makes a slice of what Q leaves of it, in the front of a slot.
pub(crate) fn divide(pool: &mut Pool, loan: &Loan, len: usize, index: u8)
    requires live { IsLive pool.old loan.now }
    requires fits { len ≤ pool.old.size }
    requires is_index { index ≤ 62 }
    ensures kept { (w : List ℕ) × (pool.new ≡ with_bytes pool.old loan.now w) }
    ensures one { IsTheOne len (Weighs index (front_of pool.old loan.now len)) (front_of pool.new loan.now len) }
{
    let sum = pool.bytes_mut(loan);
    divide_front(sum, len, index);
}

// Makes the first of two slices of what P and Q leave of them, in the front of the slot of P, piece by piece.
pub(crate) fn solve(pool: &mut Pool, p: &Loan, q: &Loan, len: usize, index: u8, other: u8)
    requires live { IsLive pool.old p.now }
    requires other_live { IsLive pool.old q.now }
    requires apart { p.now ≢ q.now }
    requires fits { len ≤ pool.old.size }
    requires is_index { index ≤ 62 }
    requires is_other_index { other ≤ 62 }
    requires differ { index ≢ other }
    ensures kept { (w : List ℕ) × (pool.new ≡ with_bytes pool.old p.now w) }
    ensures one { SolvesFront index other len pool.old pool.new p.now q.now }
{
    let mut buffer = [0; PIECE];
    let mut done = 0;
    while done < len {
        let end = done + PIECE.min(len - done);
        solve_piece(pool, p, q, done, &mut buffer[..end - done], index, other);
        done = end;
    }
}

// Makes the first of two slices in a slot of its own, of what P and Q leave of it in two others and of the second slice as
// it was read in the spare one; what P and Q leave of it stands behind this as before.
pub(crate) fn solve_with(pool: &mut Pool, slots: &RowSlots<'_>, len: usize, index: u8, other: u8)
    requires loans { AreRowSlots pool.old slots.now }
    requires fits { len ≤ pool.old.size }
    requires is_index { index ≤ 62 }
    requires is_other_index { other ≤ 62 }
    requires differ { index ≢ other }
    ensures writes { OnlyWritesIn (slots.now.q.now ∷ slots.now.sought.now ∷ []) pool.old pool.new }
    ensures one { SolvesWith index other len pool.old pool.new slots.now.sought.now slots.now.p.now slots.now.q.now slots.now.spare.now }
    ensures twice { AddsTwice other len pool.old pool.new slots.now.q.now slots.now.spare.now }
{
    let RowSlots {
        sought,
        p,
        q,
        spare,
    } = *slots;
    copy_slot(pool, sought, p, len);
    add_slot(Parity::P, pool, sought, spare, len, other);
    add_slot(Parity::Q, pool, q, spare, len, other);
    solve(pool, sought, q, len, index, other);
    add_slot(Parity::Q, pool, q, spare, len, other);
}

// Solves for the piece from a place on, as long as the buffer that Q's goes through.
fn solve_piece(
    pool: &mut Pool,
    p: &Loan,
    q: &Loan,
    start: usize,
    piece: &mut [u8],
    index: u8,
    other: u8,
)
    requires live { IsLive pool.old p.now }
    requires other_live { IsLive pool.old q.now }
    requires fits { start + length piece.old ≤ pool.old.size }
    requires is_index { index ≤ 62 }
    requires is_other_index { other ≤ 62 }
    requires differ { index ≢ other }
    ensures solved { SolvesPiece index other pool.old pool.new p.now q.now start (length piece.old) }
    ensures long { length (bytes_at pool.old p.now) ≡ pool.old.size }
{
    pool.copy_out(q, start, piece);
    solve_range(pool.bytes_mut(p), start, piece, index, other);
}

// Solves for the range of P where that of Q is given.
fn solve_range(p: &mut [u8], start: usize, q: &[u8], index: u8, other: u8)
    requires fits { start + length q.now ≤ length p.old }
    requires is_index { index ≤ 62 }
    requires is_other_index { other ≤ 62 }
    requires differ { index ≢ other }
    ensures { SolvesRange index other p.old p.new start q.now }
{
    rebuild_pq(&mut p[start..start + q.len()], q, index, other);
}
