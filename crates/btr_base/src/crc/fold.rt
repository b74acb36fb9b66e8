// The register of a long piece.
//
// x^561 + x^300 + x^214 + x^198 + x^154 + 1 is a multiple of CRC-32C's generator, and so is the same polynomial in
// x^8. So a byte may be dropped, where it is added to five later bytes. The nearest of these is 261 places away: 64
// bytes are dropped at once, and none of them is read back soon. All bytes go that way but 576, and fewer than 64
// behind these. Of the 576 the first 400 are dropped by another multiple, x^176 + x^144 + x^46 + x^26 + x^18 + x^13 +
// x^4 + 1, which has more terms and reaches less far. The 176 that are left, and those behind the 576, are looked up
// in tables.
ghost use Rattle.std.specs.Prelude.{◌≡◌, ℕ, ◌+◌, ◌*◌, ◌/◌, ◌%◌, ◌^◌, ◌≤◌, ◌<◌};
ghost use Rattle.std.specs.Prelude.{length, take, drop, replicate, slice_index, bit_xor};
ghost use Rattle.std.specs.Simd.Lanes.{chunk, put_chunk};
ghost use Rattle.btr_base.specs.Crc.{register};
ghost use Rattle.btr_base.specs.Fold.{after, far, near, sent, received, register_behind};

use super::words;
use std::simd::prelude::*;

// How many places on a byte is sent from afar at most.
const AHEAD: usize = 561;

// How many bytes are kept till the end, at least.
const KEPT: usize = 576;

// How many bytes are dropped before the last ones move to the front.
const WINDOW: usize = 4096;

// How many bytes are dropped at once.
const BLOCK: usize = 64;

// How far behind the last of the dropped bytes `sent_far` looks.
const REACH: usize = 315;

// The bytes that are dropped till then, the last ones before them, and zeros.
pub(super) const ROOM: usize = WINDOW + AHEAD + REACH;

// How many places on a byte is sent by the nearer multiple at most, and how many bytes are looked up.
const NEAR: usize = 176;

// The kept bytes behind zeros, and as many zeros as `sent_near` looks at.
const NEAR_ROOM: usize = KEPT + 144;

// The bytes from a place on.
#[inline(always)]
fn load<const N: usize>(bytes: &[u8], at: usize) -> Simd<u8, N>
    requires { at + N ≤ length bytes.now }
    ensures { result ≡ chunk at N bytes.now }
{
    Simd::from_slice(&bytes[at..])
}

// Writes bytes from a place on.
#[inline(always)]
fn store<const N: usize>(bytes: &mut [u8], at: usize, block: Simd<u8, N>)
    requires { (at + N ≤ length bytes.old) × (length block ≡ N) }
    ensures { bytes.new ≡ put_chunk at bytes.old block.entry }
{
    block.copy_to_slice(&mut bytes[at..]);
}

// What the dropped bytes have sent to the place `j` and those behind it.
#[inline(always)]
fn sent_far<const N: usize>(dropped: &[u8; ROOM], j: usize) -> Simd<u8, N>
    requires { j + 300 + N ≤ ROOM }
    ensures long { length result ≡ N }
    ensures sums { (i : ℕ) → i < N → slice_index result i ≡ sent far dropped.now (j + i) }
{
    load(dropped, j)
        ^ load(dropped, j + 154)
        ^ load(dropped, j + 198)
        ^ load(dropped, j + 214)
        ^ load(dropped, j + 300)
}

// The byte `j` of the piece and those behind it, with what was sent to them.
#[inline(always)]
fn received_at<const N: usize>(dropped: &[u8; ROOM], bytes: &[u8], j: usize) -> Simd<u8, N>
    requires room { j + 300 + N ≤ ROOM }
    requires bytes { j + N ≤ length bytes.now }
    ensures long { length result ≡ N }
    ensures sums { (i : ℕ) → i < N → slice_index result i ≡ received dropped.now bytes.now (j + i) }
{
    load(bytes, j) ^ sent_far(dropped, j)
}

// A byte of a register, by its number from the lowest on.
fn byte_of(reg: u32, number: u32) -> u8
    requires { number < 4 }
    ensures { result ≡ reg / 256 ^ number % 256 }
{
    ((reg >> (8 * number)) & 255) as u8
}

// Nothing but zeros.
pub(super) fn no_bytes<const N: usize>() -> [u8; N]
    ensures { result ≡ replicate N 0 }
{
    [0; N]
}

// Forgets what was dropped last.
fn forget(dropped: &mut [u8; ROOM])
    ensures { (i : ℕ) → i < AHEAD → slice_index dropped.new i ≡ 0 }
{
    for k in 0..AHEAD {
        dropped[k] = 0;
    }
}

// Nothing was dropped before a piece: only its register, `start`, goes into the first four bytes.
fn begin(dropped: &mut [u8; ROOM], start: u32)
    requires { (i : ℕ) → i < AHEAD → slice_index dropped.old i ≡ 0 }
    ensures start { (i : ℕ) → i < 4 → slice_index dropped.new i ≡ start / 256 ^ i % 256 }
    ensures zeros { (i : ℕ) → 4 ≤ i → i < AHEAD → slice_index dropped.new i ≡ 0 }
{
    for k in 0..4 {
        dropped[k as usize] = byte_of(start, k);
    }
}

// Computes the first bytes of the piece as they are when they are dropped, behind those that were dropped before them.
fn send(dropped: &mut [u8; ROOM], bytes: &[u8], blocks: usize)
    requires room { BLOCK * blocks ≤ WINDOW }
    requires bytes { BLOCK * blocks ≤ length bytes.now }
    ensures kept { take AHEAD dropped.new ≡ take AHEAD dropped.old }
    ensures sent { (j : ℕ) → j < BLOCK * blocks
        → slice_index dropped.new (j + AHEAD) ≡ received dropped.new bytes.now j }
    ensures fits { (i : ℕ) → slice_index dropped.new i < 2 ^ 8 }
{
    for k in 0..blocks {
        let block = received_at::<BLOCK>(dropped, bytes, BLOCK * k);
        store(dropped, AHEAD + BLOCK * k, block);
    }
}

// Keeps the last bytes that were dropped.
fn carry(dropped: &mut [u8; ROOM])
    ensures { take AHEAD dropped.new ≡ take AHEAD (drop WINDOW dropped.old) }
{
    for k in 0..AHEAD {
        dropped[k] = dropped[WINDOW + k];
    }
}

// Drops the first bytes of the piece.
fn drop_window(dropped: &mut [u8; ROOM], bytes: &[u8])
    requires { WINDOW + KEPT ≤ length bytes.now }
    ensures { register_behind (take AHEAD dropped.old) bytes.now
        ≡ register_behind (take AHEAD dropped.new) (drop WINDOW bytes.now) }
{
    send(dropped, bytes, WINDOW / BLOCK);
    carry(dropped);
}

// Forgets what stands behind the first `count` bytes that were dropped, as far as `sent_far` looks at it.
fn clear(dropped: &mut [u8; ROOM], count: usize)
    requires { count ≤ WINDOW }
    ensures kept { take (count + AHEAD) dropped.new ≡ take (count + AHEAD) dropped.old }
    ensures zeros { (i : ℕ) → count + AHEAD ≤ i → i < count + AHEAD + REACH
        → slice_index dropped.new i ≡ 0 }
{
    for k in 0..REACH {
        dropped[count + AHEAD + k] = 0;
    }
}

// What the dropped bytes have sent by the nearer multiple to the place `j` and the 15 behind it.
#[inline(always)]
fn sent_near(dropped: &[u8; NEAR_ROOM], j: usize) -> u8x16
    requires { j + 160 ≤ NEAR_ROOM }
    ensures long { length result ≡ 16 }
    ensures sums { (i : ℕ) → i < 16 → slice_index result i ≡ sent near dropped.now (j + i) }
{
    load(dropped, j)
        ^ load(dropped, j + 4)
        ^ load(dropped, j + 13)
        ^ load(dropped, j + 18)
        ^ load(dropped, j + 26)
        ^ load(dropped, j + 46)
        ^ load(dropped, j + 144)
}

// The byte `j` of the kept ones, which begin at the place `from`, and the 15 behind it, with what both multiples have
// sent to them.
#[inline(always)]
fn kept_at(
    dropped: &[u8; ROOM],
    nearer: &[u8; NEAR_ROOM],
    bytes: &[u8],
    from: usize,
    j: usize,
) -> u8x16
    requires window { from ≤ WINDOW }
    requires bytes { from + KEPT ≤ length bytes.now }
    requires place { j + 16 ≤ KEPT }
    ensures long { length result ≡ 16 }
    ensures sums { (i : ℕ) → i < 16 → slice_index result i
        ≡ bit_xor (received dropped.now bytes.now (from + (j + i))) (sent near nearer.now (j + i)) }
{
    received_at(dropped, bytes, from + j) ^ sent_near(nearer, j)
}

// The kept bytes but for the last ones, as they are when they are dropped, behind zeros.
fn drop_kept(dropped: &[u8; ROOM], bytes: &[u8], from: usize) -> [u8; NEAR_ROOM]
    requires window { from ≤ WINDOW }
    requires bytes { from + KEPT ≤ length bytes.now }
    ensures none { (i : ℕ) → i < NEAR → slice_index result i ≡ 0 }
    ensures sent { (j : ℕ) → j + NEAR < KEPT
        → slice_index result (j + NEAR) ≡ bit_xor (received dropped.now bytes.now (from + j)) (sent near result j) }
    ensures end { (i : ℕ) → KEPT ≤ i → slice_index result i ≡ 0 }
    ensures fits { (i : ℕ) → slice_index result i < 2 ^ 8 }
{
    let mut nearer = no_bytes::<NEAR_ROOM>();
    for k in 0..(KEPT - NEAR) / 16 {
        let block = kept_at(dropped, &nearer, bytes, from, 16 * k);
        store(&mut nearer, NEAR + 16 * k, block);
    }
    nearer
}

// What is left of the kept bytes, which begin at the place `from`.
fn left_of(dropped: &[u8; ROOM], bytes: &[u8], from: usize) -> [u8; NEAR]
    requires window { from ≤ WINDOW }
    requires bytes { from + KEPT ≤ length bytes.now }
    ensures { register 0 result ≡ after 8 0 KEPT (λ j. received dropped.now bytes.now (from + j)) }
{
    let nearer = drop_kept(dropped, bytes, from);
    let mut left = no_bytes::<NEAR>();
    for k in 0..NEAR / 16 {
        let block = kept_at(dropped, &nearer, bytes, from, KEPT - NEAR + 16 * k);
        store(&mut left, 16 * k, block);
    }
    left
}

// The register after the bytes, where nothing was dropped before.
fn register_by(dropped: &mut [u8; ROOM], start: u32, bytes: &[u8]) -> u32
    requires zeros { (i : ℕ) → i < AHEAD → slice_index dropped.old i ≡ 0 }
    requires bytes { KEPT ≤ length bytes.now }
    ensures { result ≡ register start bytes.now }
{
    begin(dropped, start);
    let mut rest = bytes;
    while rest.len() >= WINDOW + KEPT {
        drop_window(dropped, rest);
        rest = &rest[WINDOW..];
    }
    let blocks = (rest.len() - KEPT) / BLOCK;
    send(dropped, rest, blocks);
    clear(dropped, BLOCK * blocks);
    let left = left_of(dropped, rest, BLOCK * blocks);
    let reg = words::register_of(0, &left);
    words::register_of(reg, &rest[BLOCK * blocks + KEPT..])
}

// The register after the bytes.
pub(super) fn register_of(start: u32, bytes: &[u8]) -> u32
    requires { KEPT ≤ length bytes.now }
    ensures { result ≡ register start bytes.now }
{
    let mut dropped = no_bytes::<ROOM>();
    register_by(&mut dropped, start, bytes)
}

// The register after the bytes, by room that may have served other pieces before.
pub(super) fn register_in(dropped: &mut [u8; ROOM], start: u32, bytes: &[u8]) -> u32
    requires { KEPT ≤ length bytes.now }
    ensures { result ≡ register start bytes.now }
{
    forget(dropped);
    register_by(dropped, start, bytes)
}
