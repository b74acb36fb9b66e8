// Slices that are added from slot to slot.
ghost use Rattle.std.specs.Prelude.{◌≡◌, ◌≢◌, ℕ, ◌+◌, ◌≤◌, List, length};
ghost use Rattle.btr_pool.specs.Slots.{IsLive, bytes_at, with_bytes};
ghost use Rattle.btr_rack.specs.Rack.{pasted};
ghost use Rattle.btr_read.specs.Folding.{front_of, piece_of, with_piece, with_added_piece, AddsFront};

use crate::parity::{Parity, add_range};
use btr_pool::{Loan, Pool};

/// How many bytes go from one slot to another at a time.
pub(crate) const PIECE: usize = 4096;

// Adds the slice in the front of a slot to what another has of a parity, piece by piece.
pub(crate) fn add_slot(
    parity: Parity,
    pool: &mut Pool,
    sum: &Loan,
    slice: &Loan,
    len: usize,
    index: u8,
)
    requires live { IsLive pool.old sum.now }
    requires other_live { IsLive pool.old slice.now }
    requires apart { sum.now ≢ slice.now }
    requires fits { len ≤ pool.old.size }
    requires is_index { index ≤ 62 }
    ensures kept { (w : List ℕ) × (pool.new ≡ with_bytes pool.old sum.now w) }
    ensures sum { AddsFront parity index len pool.old pool.new sum.now slice.now }
{
    let mut buffer = [0; PIECE];
    let mut done = 0;
    while done < len {
        let end = done + PIECE.min(len - done);
        add_piece(
            parity,
            pool,
            sum,
            slice,
            done,
            &mut buffer[..end - done],
            index,
        );
        done = end;
    }
}

// Copies the front of a slot to that of another, piece by piece.
pub(crate) fn copy_slot(pool: &mut Pool, to: &Loan, from: &Loan, len: usize)
    requires live { IsLive pool.old to.now }
    requires other_live { IsLive pool.old from.now }
    requires apart { to.now ≢ from.now }
    requires fits { len ≤ pool.old.size }
    ensures kept { (w : List ℕ) × (pool.new ≡ with_bytes pool.old to.now w) }
    ensures copy { front_of pool.new to.now len ≡ front_of pool.old from.now len }
{
    let mut buffer = [0; PIECE];
    let mut done = 0;
    while done < len {
        let end = done + PIECE.min(len - done);
        copy_piece(pool, to, from, done, &mut buffer[..end - done]);
        done = end;
    }
}

// Copies the piece of a slot from a place on, as long as the buffer that it goes through.
fn copy_piece(pool: &mut Pool, to: &Loan, from: &Loan, start: usize, piece: &mut [u8])
    requires live { IsLive pool.old to.now }
    requires other_live { IsLive pool.old from.now }
    requires fits { start + length piece.old ≤ pool.old.size }
    ensures copied { pool.new ≡ with_piece pool.old to.now start (piece_of pool.old from.now start (length piece.old)) }
    ensures long { length (bytes_at pool.old to.now) ≡ pool.old.size }
    ensures whole { length (piece_of pool.old from.now start (length piece.old)) ≡ length piece.old }
{
    pool.copy_out(from, start, piece);
    put_range(pool.bytes_mut(to), start, piece);
}

// Puts a piece into a buffer from a place on.
fn put_range(buffer: &mut [u8], start: usize, piece: &[u8])
    requires { start + length piece.now ≤ length buffer.old }
    ensures { buffer.new ≡ pasted buffer.old start piece.now }
{
    buffer[start..start + piece.len()].copy_from_slice(piece);
}

// Adds the piece of a slice from a place on, as long as the buffer that it goes through.
fn add_piece(
    parity: Parity,
    pool: &mut Pool,
    sum: &Loan,
    slice: &Loan,
    start: usize,
    piece: &mut [u8],
    index: u8,
)
    requires live { IsLive pool.old sum.now }
    requires other_live { IsLive pool.old slice.now }
    requires fits { start + length piece.old ≤ pool.old.size }
    requires is_index { index ≤ 62 }
    ensures added { pool.new ≡ with_added_piece parity index pool.old sum.now slice.now start (length piece.old) }
    ensures long { length (bytes_at pool.old sum.now) ≡ pool.old.size }
    ensures whole { length (piece_of pool.old slice.now start (length piece.old)) ≡ length piece.old }
{
    pool.copy_out(slice, start, piece);
    add_range(parity, pool.bytes_mut(sum), start, piece, index);
}
