//! Scrub: each copy of each checked block is read, and what is bad is written anew where a right copy or enough parity is left.
//! A sector without a checksum gets its newest sure bytes on images that are behind.
//!
//! `scrub` first lists the checked blocks chunk by chunk (`sift_blocks`), which writes nothing: it reads the extent tree and the
//! checksum tree, and judges what it listed of each chunk, by the copies of each block or, with parity, full stripe by full stripe.
//! Of each list it keeps what has something to write (`specs/Sifting.antt`). Then it goes over what was kept, chunk by chunk.
//! The layer above is promised exactly the blocks that `specs/Units.antt` says, in their order, or the first fault; and then
//! exactly the writes that follow from what the images held as it began, or those up to a call that failed (`Whole`,
//! `Scrubbing`). For one block with copies see `btr_scrub_copies`, and for one full stripe `btr_scrub_row`.
//!
//! `Repair` says what all of it comes to, and `Scrubbed` what a call answers and leaves, whatever failed. `Columns`, `Right`,
//! `Survival` and `Staying` say that each block can be had from what is left, whatever bytes stand in the ranges that are
//! written.
#![tactic(auto)]

mod chunks;
mod collecting;
mod copied;
mod doubts;
mod extent;
mod gathered;
mod judging;
mod laws;
mod listed;
mod mending;
mod missing;
mod pages;
mod progress;
mod reader;
mod rowed;
mod rows;
mod run;
mod sectors;
mod sieve;
mod sifted;
mod tally;
mod task;
mod units;
mod whole;

pub use laws::{
    bad_block_is_wrong, block_of_element, differing_parity_is_wrong, elements_apart,
    elements_are_slices, few_are_few_at, few_bytes, first_turn_keeps_blocks, kept_counts,
    kept_writes, listed_counts, listed_writes, part_stands, right_stays, row_gives_blocks,
    row_outlives_writes, row_survives, row_writes_are_wrong, second_turn_keeps_blocks,
    some_candidate_is_right, works_keep_the_rest, writes_keep_the_rest,
};
pub use missing::missing_device;
pub use tally::Tally;
pub use whole::scrub;
