//! Volumes in memory, for tests.
//!
//! `row` makes the small ones and `make` those of many directories, of trees that `btr_make_blocks` grows: a `Plan` has the images
//! and chunks, `Files` grows a tree of files name by name, and a `Draft` writes both, and at last the trees that say where
//! everything is. `put_super` writes one superblock, byte for byte what `specs/Copy.antt` says; `seal` writes a checksum anew,
//! and `spoil` makes an image wrong.
#![tactic(auto)]

mod chunks;
mod copy;
mod devices;
mod disks;
mod draft;
mod extents;
mod fault;
mod files;
mod finishing;
mod made;
mod maker;
mod parities;
mod pattern;
mod plan;
mod rows;
mod sealing;
mod spoiling;
mod sums;
mod superblock;

pub use made::make;
pub use maker::{Builder, Given, Maker};
pub use rows::{RowVolume, row};
pub use sealing::seal;
pub use spoiling::spoil;
pub use superblock::put_super;
