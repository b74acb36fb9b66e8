//! Mending one block by its copies.
//!
//! A block of a chunk with copies (single, DUP, RAID0, RAID1 in its three forms, RAID10) is read copy by copy, and each copy that doesn't pass, or isn't
//! the bytes of the first that does, is written over with these. The layer above is promised exactly those writes, one call each, or those up to one
//! that failed. The images that were written are marked, and synced by `sync_marked`.
//!
//! A sector of data without a checksum passes in any case. A copy of it on an image that is behind, as it missed writes and holds blocks that don't pass,
//! is written over with the bytes of the first copy on an image of which neither holds.
//!
//! `specs/Blocks.antt` says which copies are bad and what is written for them, `specs/Fresh.antt` which bytes of a sector without a checksum are fresh
//! and what is stale beside them, `specs/Writes.antt` what writes leave, `specs/Mending.antt` and `specs/Freshening.antt` what a call did,
//! `specs/Syncing.antt` what waits behind syncs, and `specs/Turns.antt` what writes with a sync between them leave wherever they are stopped.
#![tactic(auto)]

mod comparing;
mod copied_block;
mod copies;
mod doubts;
mod finding;
mod fresh;
mod freshening;
mod judged_copies;
mod mended;
mod mending;
mod overwriting;
mod plain_sector;
mod syncing;
#[cfg(test)]
mod tests;

pub use comparing::same_bytes;
pub use doubts::{is_behind, is_doubtful};
pub use freshening::mend_plain;
pub use mended::{MendFault, Mended};
pub use mending::mend_copies;
pub use syncing::{sync_if, sync_marked};
