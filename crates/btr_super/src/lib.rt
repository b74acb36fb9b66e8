//! Superblocks: their fields, the tests that a copy must pass, and the newest valid copy of an image.
//!
//! A superblock has 4096 bytes and up to three copies in an image. `Super::read` reads one copy,
//! `read_slot` answers the newest valid one of an open image, `choose` the newest of several
//! images, and `diverged` the first image that was written without that one. The definitions are
//! `specs/Super.antt`, what a copy is, `specs/Slot.antt`, which one counts, and
//! `specs/Compared.antt`, what is compared.
#![tactic(auto)]

mod compared;
mod fault;
mod features;
mod laws;
mod newest;
mod seen;
mod slot;
mod superblock;

pub use compared::diverged;
pub use fault::{SlotFault, SuperFault};
pub use features::{CompatRo, Incompat};
pub use laws::same_by_bytes;
pub use newest::choose;
pub use slot::read_slot;
pub use superblock::Super;
