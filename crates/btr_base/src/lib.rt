//! What everything else stands on: the little-endian fields of Btrfs blocks, the keys of items, the
//! checksums of blocks and sectors, and the header of a tree block.
//!
//! Each function is proved to answer, at all bytes, what its definition in `specs/` says; none takes
//! memory. There `Field` has numbers and bytes at an offset, `Key` the keys and their order, `Poly` and
//! `Crc` CRC-32C as the remainder of a polynomial, `Xxh64` xxhash64, `Sum` the checksums as they are
//! stored, `Header` the header, and `Shown` the text of a byte. `Fold` is of the code alone: it says how
//! the register of a long piece is computed.
#![tactic(auto)]

mod checksum;
mod crc;
mod field;
mod header;
mod key;
mod kind;
mod memory;
mod shown;
mod stored;
mod sum_room;
mod summed;
#[cfg(test)]
mod tests;
mod xxhash;

pub use checksum::sum;
pub use crc::{crc_register, name_hash};
pub use field::{array_at, u16_at, u32_at, u64_at};
pub use header::Header;
pub use key::{FIRST_KEY, Key, LAST_KEY};
pub use kind::SumKind;
pub use memory::Memory;
pub use shown::{Shown, show_byte};
pub use stored::Sum;
pub use sum_room::SumRoom;
pub use summed::is_summed;
pub use xxhash::xxh64;
