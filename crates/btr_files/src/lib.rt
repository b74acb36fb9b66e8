//! Directories and files of a tree: the entries of a directory, the names of an inode and of a subvolume, what the extents of a file come to, the
//! checksum of a sector, and the bytes of a file, piece by piece.
//!
//! It is promised to the layer above that entries come in ascending index, that a lookup answers what stands in the tree, and that the pieces of a file are
//! those of its content, whatever reads failed. Nothing but a list of names takes memory. The definitions are in `specs/`: `Names`, `Entries`, `Extents`
//! and `Sums` are the lookups and the cursor as programs over wants, `Content` has the pieces of a file, and `Listing` and `Streaming` what a directory and
//! a file have still to give. `FileAt` has the byte at a position, and `laws` that the pieces of a file are those bytes.
#![tactic(auto)]

mod clearness;
mod counts;
mod dir;
mod dir_row;
mod extent;
mod file;
mod finding;
mod gathering;
mod laws;
mod lookup;
mod met;
mod name;
mod name_list;
mod naming;
mod piece;
mod plan;
mod progress;
mod reading_ahead;
mod sector;
mod streaming;
mod summed;
mod sums;
mod sums_ahead;
mod surveying;

pub use clearness::Survey;
pub use counts::Counts;
pub use dir::Dir;
pub use dir_row::DirRow;
pub use file::FileBytes;
pub use finding::inode;
pub use gathering::names;
pub use laws::{content_is_file, some_content_is_file};
pub use name::NameBuf;
pub use name_list::{NameList, NameRef};
pub use naming::{linked, mounted};
pub use piece::Piece;
pub use plan::RestorePlan;
pub use streaming::next_piece;
pub use summed::Summed;
pub use sums::{sum_ahead, sums_from};
pub use sums_ahead::SumsAhead;
pub use surveying::survey;
