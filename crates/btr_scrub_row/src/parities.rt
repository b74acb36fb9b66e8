// P and Q of the new data.
ghost use Rattle.std.specs.Prelude.{◌≡◌, ◌+◌, ◌*◌, ◌<◌, ◌≤◌, length, take};
ghost use Rattle.btr_parity.specs.Slices.{parity_p, parity_q, plus, scaled};
ghost use Rattle.btr_scrub_row.specs.Memory.{piece_at, slices_in};

use crate::buffer::ELEMENT;
use crate::gathering::{add_front, copy_front};
use btr_parity::double_and_add;
use btr_read::Parity;

// Doubles what the front of a buffer has of Q, and adds some bytes of the slice in front.
fn double_front(front: &mut [u8], bytes: &[u8], start: usize, len: usize)
    requires fits { len ≤ length front.old }
    requires within { start + len ≤ length bytes.now }
    ensures { take len front.new ≡ plus (scaled 2 (take len front.old)) (piece_at bytes.now start len) }
{
    double_and_add(&mut front[..len], &bytes[start..start + len]);
}

// Makes P of the first slices in memory, in the front of a buffer.
pub(crate) fn make_p(slices: u32, bytes: &[u8], p: &mut [u8])
    requires fits { 65536 ≤ length p.old }
    requires some { 0 < slices }
    requires few { slices ≤ 63 }
    requires within { slices * 65536 ≤ length bytes.now }
    ensures { take 65536 p.new ≡ parity_p 65536 (slices_in bytes.now slices) }
{
    copy_front(p, bytes, 0, ELEMENT);
    for slice in 1..slices {
        let start = slice as usize * ELEMENT;
        add_front(Parity::P, p, bytes, start, ELEMENT, slice as u8);
    }
}

// Makes Q of the first slices in memory, in the front of a buffer, from the last one down.
pub(crate) fn make_q(slices: u32, bytes: &[u8], q: &mut [u8])
    requires fits { 65536 ≤ length q.old }
    requires some { 0 < slices }
    requires few { slices ≤ 63 }
    requires within { slices * 65536 ≤ length bytes.now }
    ensures { take 65536 q.new ≡ parity_q 65536 (slices_in bytes.now slices) }
{
    let last = (slices - 1) as usize * ELEMENT;
    copy_front(q, bytes, last, ELEMENT);
    for done in 1..slices {
        let start = (slices - 1 - done) as usize * ELEMENT;
        double_front(q, bytes, start, ELEMENT);
    }
}
