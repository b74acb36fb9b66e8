ghost use Rattle.std.specs.Prelude.{◌≢◌, ◌≤◌, length};

mod plain;
mod table;

use super::*;
use table::{BYTES, P, Q, SLICES, WEIGHTED};

const SIZE: usize = 17;

// Slice `index` of a table.
fn row(table: &[u8; 1071], index: u8) -> [u8; SIZE]
    requires { index ≤ 62 }
{
    let mut row = [0; SIZE];
    for j in 0..SIZE {
        row[j] = table[SIZE * index as usize + j];
    }
    row
}

fn slice(index: u8) -> [u8; SIZE]
    requires { index ≤ 62 }
{
    row(&SLICES, index)
}

fn weighted(index: u8) -> [u8; SIZE]
    requires { index ≤ 62 }
{
    row(&WEIGHTED, index)
}

// Slices 01h and 80h: P is 81h, and Q is 01h + 2 * 80h = 1Ch.
#[test]
fn two_bytes(rt: HostRuntime) {
    let mut p = [0];
    fold_p(&mut p, &[0x01]);
    fold_p(&mut p, &[0x80]);
    assert_eq!(rt; p[0], 0x81);

    let mut q = [0];
    fold_q(&mut q, &[0x01], 0);
    fold_q(&mut q, &[0x80], 1);
    assert_eq!(rt; q[0], 0x1c);
    let mut by_doubling = [0];
    double_and_add(&mut by_doubling, &[0x80]);
    double_and_add(&mut by_doubling, &[0x01]);
    assert_eq!(rt; by_doubling[0], 0x1c);

    rebuild_pq(&mut p, &q, 0, 1);
    assert_eq!(rt; p[0], 0x01);
    fold_q(&mut q, &p, 0);
    rebuild_q(&mut q, 1);
    assert_eq!(rt; q[0], 0x80);
    assert_eq!(rt; times(1, 0x80), 0x1d);
}

#[test]
fn parity_of_all_slices(rt: HostRuntime) {
    let mut p = [0; SIZE];
    let mut q = [0; SIZE];
    let mut by_doubling = [0; SIZE];
    for i in 0..=LAST_INDEX {
        fold_p(&mut p, &slice(i));
        fold_q(&mut q, &slice(i), i);
        double_and_add(&mut by_doubling, &slice(LAST_INDEX - i));
    }
    assert_eq!(rt; p.as_slice(), P.as_slice());
    assert_eq!(rt; q.as_slice(), Q.as_slice());
    assert_eq!(rt; by_doubling.as_slice(), Q.as_slice());
}

fn rebuilt_by_p(lost: u8) -> [u8; SIZE] {
    let mut p = P;
    for i in 0..=LAST_INDEX {
        if i != lost {
            fold_p(&mut p, &slice(i));
        }
    }
    p
}

fn rebuilt_by_q(lost: u8) -> [u8; SIZE]
    requires { lost ≤ 62 }
{
    let mut q = Q;
    for i in 0..=LAST_INDEX {
        if i != lost {
            fold_q(&mut q, &slice(i), i);
        }
    }
    rebuild_q(&mut q, lost);
    q
}

#[test]
fn one_slice_lost(rt: HostRuntime) {
    for lost in 0..=LAST_INDEX {
        let want = slice(lost);
        assert_eq!(rt;
            rebuilt_by_p(lost).as_slice(),
            want.as_slice(),
            "slice {lost} by P"
        );
        assert_eq!(rt;
            rebuilt_by_q(lost).as_slice(),
            want.as_slice(),
            "slice {lost} by Q"
        );
    }
}

fn rebuilt_with(x: u8, y: u8) -> [u8; SIZE]
    requires is_index { x ≤ 62 }
    requires is_other_index { y ≤ 62 }
    requires differ { x ≢ y }
{
    let mut p = slice(x);
    fold_p(&mut p, &slice(y));
    let mut q = weighted(x);
    fold_p(&mut q, &weighted(y));
    rebuild_pq(&mut p, &q, x, y);
    p
}

#[test]
fn every_pair_lost(rt: HostRuntime) {
    for x in 0..=LAST_INDEX {
        for y in 0..=LAST_INDEX {
            if x != y {
                assert_eq!(rt;
                    rebuilt_with(x, y).as_slice(),
                    slice(x).as_slice(),
                    "slice {x}, lost with {y}"
                );
            }
        }
    }
}

#[test]
fn every_product(rt: HostRuntime) {
    for i in 0..=LAST_INDEX {
        let bytes = slice(i);
        let want = weighted(i);
        for j in 0..SIZE {
            assert_eq!(rt; times(i, bytes[j]), want[j], "byte {j} of slice {i}");
        }
    }
}

// Sixteen lanes at a time give what one byte after another does, at each length.
#[test]
fn every_length(rt: HostRuntime) {
    let mut fast = [0; 50];
    let mut slow = [0; 50];
    for length in 0..50 {
        let index = length as u8;
        let piece = &BYTES[length..2 * length];
        fold_q(&mut fast[..length], piece, index);
        plain::fold_q(&mut slow[..length], piece, index);
        assert_eq!(rt; fast.as_slice(), slow.as_slice(), "sum, length {length}");
        rebuild_q(&mut slow[..length], index);
        plain::scale(&mut slow[..length], index);
        assert_eq!(rt;
            fast.as_slice(),
            slow.as_slice(),
            "quotient, length {length}"
        );
    }
}
