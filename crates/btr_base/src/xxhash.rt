// xxhash64 with the seed 0.
ghost use Rattle.std.specs.Prelude.{◌≡◌, ◌-◌, ◌^◌, ◌≤◌, length, fold};
ghost use Rattle.btr_base.specs.Field.{number_at};
ghost use Rattle.btr_base.specs.Xxh64.{prime_1, prime_2, added, rounded, lane_0, lane_1, lane_2, lane_3, merged, joined, front, with_eight};
ghost use Rattle.btr_base.specs.Xxh64.{with_four, with_byte, with_few, with_bytes, spread, hash64};

use crate::field::{u32_at, u64_at};

const PRIME_1: u64 = 0x9E3779B185EBCA87;

const PRIME_2: u64 = 0xC2B2AE3D27D4EB4F;

const PRIME_3: u64 = 0x165667B19E3779F9;

const PRIME_4: u64 = 0x85EBCA77C2B2AE63;

const PRIME_5: u64 = 0x27D4EB2F165667C5;

// The four lanes, of which each takes 8 of 32 bytes.
#[derive(Clone, Copy)]
struct Lanes {
    first: u64,
    second: u64,
    third: u64,
    fourth: u64,
}

#[tactic(auto, unfolding(crate::specs::Xxh64::rounded))]
fn round(lane: u64, number: u64) -> u64
    ensures { result ≡ rounded lane number }
{
    lane.wrapping_add(number.wrapping_mul(PRIME_2))
        .rotate_left(31)
        .wrapping_mul(PRIME_1)
}

impl Lanes {
    fn new() -> Lanes
        ensures { result ≡ record {
          first = added prime_1 prime_2;
          second = prime_2;
          third = 0;
          fourth = 2 ^ 64 - prime_1;
        } }
    {
        Lanes {
            first: PRIME_1.wrapping_add(PRIME_2),
            second: PRIME_2,
            third: 0,
            fourth: 0u64.wrapping_sub(PRIME_1),
        }
    }

    // The lanes with 32 more bytes.
    fn with(self, bytes: &[u8]) -> Lanes
        requires { 32 ≤ length bytes.now }
        ensures { result ≡ record {
          first = rounded self.first (number_at 8 0 bytes.now);
          second = rounded self.second (number_at 8 8 bytes.now);
          third = rounded self.third (number_at 8 16 bytes.now);
          fourth = rounded self.fourth (number_at 8 24 bytes.now);
        } }
    {
        Lanes {
            first: round(self.first, u64_at(bytes, 0)),
            second: round(self.second, u64_at(bytes, 8)),
            third: round(self.third, u64_at(bytes, 16)),
            fourth: round(self.fourth, u64_at(bytes, 24)),
        }
    }

    // What the lanes come to.
    #[tactic(auto, unfolding(crate::specs::Xxh64::joined))]
    fn join(self) -> u64
        ensures { result ≡ joined self.first self.second self.third self.fourth }
    {
        let sum = self
            .first
            .rotate_left(1)
            .wrapping_add(self.second.rotate_left(7))
            .wrapping_add(self.third.rotate_left(12))
            .wrapping_add(self.fourth.rotate_left(18));
        let sum = merge(merge(sum, self.first), self.second);
        merge(merge(sum, self.third), self.fourth)
    }
}

#[tactic(auto, unfolding(crate::specs::Xxh64::merged))]
fn merge(hash: u64, lane: u64) -> u64
    ensures { result ≡ merged hash lane }
{
    (hash ^ round(0, lane))
        .wrapping_mul(PRIME_1)
        .wrapping_add(PRIME_4)
}

// The lanes after each whole 32 bytes.
fn lanes_of(bytes: &[u8]) -> Lanes
    ensures { result ≡ record {
      first = lane_0 bytes.now;
      second = lane_1 bytes.now;
      third = lane_2 bytes.now;
      fourth = lane_3 bytes.now;
    } }
{
    let mut lanes = Lanes::new();
    let mut rest = bytes;
    while rest.len() >= 32 {
        lanes = lanes.with(rest);
        rest = &rest[32..];
    }
    lanes
}

#[tactic(auto, unfolding(crate::specs::Xxh64::front))]
fn hash_front(bytes: &[u8]) -> u64
    ensures { result ≡ front bytes.now }
{
    if bytes.len() < 32 {
        PRIME_5
    } else {
        lanes_of(bytes).join()
    }
}

#[tactic(auto, unfolding(crate::specs::Xxh64::with_eight))]
fn add_eight(hash: u64, number: u64) -> u64
    ensures { result ≡ with_eight hash number }
{
    (hash ^ round(0, number))
        .rotate_left(27)
        .wrapping_mul(PRIME_1)
        .wrapping_add(PRIME_4)
}

#[tactic(auto, unfolding(crate::specs::Xxh64::with_four))]
fn add_four(hash: u64, number: u32) -> u64
    ensures { result ≡ with_four hash number }
{
    (hash ^ u64::from(number).wrapping_mul(PRIME_1))
        .rotate_left(23)
        .wrapping_mul(PRIME_2)
        .wrapping_add(PRIME_3)
}

#[tactic(auto, unfolding(crate::specs::Xxh64::with_byte))]
fn add_byte(hash: u64, byte: u8) -> u64
    ensures { result ≡ with_byte hash byte }
{
    (hash ^ u64::from(byte).wrapping_mul(PRIME_5))
        .rotate_left(11)
        .wrapping_mul(PRIME_1)
}

fn add_each(hash: u64, bytes: &[u8]) -> u64
    ensures { result ≡ fold with_byte hash bytes.now }
{
    let mut hash = hash;
    for byte in bytes {
        hash = add_byte(hash, *byte);
    }
    hash
}

#[tactic(auto, unfolding(crate::specs::Xxh64::with_few))]
fn add_few(hash: u64, bytes: &[u8]) -> u64
    ensures { result ≡ with_few hash bytes.now }
{
    if bytes.len() < 4 {
        add_each(hash, bytes)
    } else {
        add_each(add_four(hash, u32_at(bytes, 0)), &bytes[4..])
    }
}

fn add_bytes(hash: u64, bytes: &[u8]) -> u64
    ensures { result ≡ with_bytes hash bytes.now }
{
    let mut hash = hash;
    let mut rest = bytes;
    while rest.len() >= 8 {
        hash = add_eight(hash, u64_at(rest, 0));
        rest = &rest[8..];
    }
    add_few(hash, rest)
}

#[tactic(auto, unfolding(crate::specs::Xxh64::spread))]
fn avalanche(hash: u64) -> u64
    ensures { result ≡ spread hash }
{
    let high = (hash ^ (hash >> 33)).wrapping_mul(PRIME_2);
    let middle = (high ^ (high >> 29)).wrapping_mul(PRIME_3);
    middle ^ (middle >> 32)
}

/// xxhash64 of the bytes, with the seed 0.
#[tactic(auto, unfolding(crate::specs::Xxh64::hash64))]
pub fn xxh64(bytes: &[u8]) -> u64
    ensures { result ≡ hash64 bytes.now }
{
    let hash = hash_front(bytes).wrapping_add(bytes.len() as u64);
    avalanche(add_bytes(hash, &bytes[bytes.len() / 32 * 32..]))
}
