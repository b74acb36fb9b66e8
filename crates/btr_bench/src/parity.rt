// The parity of RAID5 and RAID6, in slices as long as the piece.
ghost use Rattle.std.specs.Prelude.{◌≡◌, ◌≤◌, ◌+◌, ◌%◌, length};
ghost use Rattle.btr_parity.specs.Solutions.{IsTheOne, Weighs, WeighsWith};
ghost use Rattle.btr_bench.specs.Parity.{front, index_of};

use btr_base::array_at;
use btr_parity::{LAST_INDEX, rebuild_pq, rebuild_q};
pub use btr_parity::{double_and_add, fold_p as add};

// The index of the lost slice, or of the first of two.
fn index(turn: u64) -> u8
    ensures value { result ≡ index_of turn }
    ensures inside { result + 1 ≤ 62 }
{
    (turn % u64::from(LAST_INDEX)) as u8
}

/// Makes P of two slices the first of them, by their Q.
pub fn rebuild(turn: u64, p: &mut [u8], q: &[u8])
    requires { length p.old ≡ length q.now }
    ensures { IsTheOne (length p.old) (WeighsWith p.old q.now (index_of turn) (index_of turn + 1)) p.new }
{
    let first = index(turn);
    rebuild_pq(p, q, first, first + 1);
}

/// Makes Q of one slice that slice.
pub fn divide(turn: u64, q: &mut [u8])
    ensures { IsTheOne (length q.old) (Weighs (index_of turn) q.old) q.new }
{
    rebuild_q(q, index(turn));
}

/// The first 8 bytes, the first of them highest.
pub fn front(slice: &[u8]) -> u64
    requires { 8 ≤ length slice.now }
    ensures { result ≡ front slice.now }
{
    u64::from_be_bytes(array_at(slice, 0))
}
