//! Checksums of data: which sectors have one, and which should.
//!
//! The checksum tree has runs of checksums, one for each sector of 4096 bytes; a file whose inode doesn't have the flag 1 has a
//! checksum for each sector that it uses, as far as the sectors lie in the chunk that holds the extent's address. `Runs` collects the
//! runs that a visit of the checksum tree meets, and `Uses` what a visit of a tree of files meets of inodes and extents.
//! `put_missing_sums` puts the sectors of such a tree that should have a checksum and have none into a set of findings, and
//! `put_sum_findings` the sectors that have more than one, or one outside the data extents. It is promised to the layer above that these
//! are exactly the findings of the definitions, whatever the items say: also where runs or extents overlap.
//!
//! The definitions are in `specs/`: `Items` reads the items, `Sums` has the rules, and `Ranks` says what look-ups go by.
#![tactic(auto)]

mod items;
mod laws;
mod missing;
mod overlaps;
mod runs_met;
mod sector_test;
mod strays;
mod sum_places;
mod sums;
mod used_range;
mod uses_met;

pub use laws::keeps_law;
pub use missing::{put_missing_sums, sum_ranges};
pub use runs_met::Runs;
pub use sum_places::SumPlaces;
pub use sums::put_sum_findings;
pub use used_range::UsedRange;
pub use uses_met::Uses;
