//! Mending one full stripe of a chunk with parity.
//!
//! A row of a chunk in RAID5 or RAID6 has an element on each stripe: the slices of data, P, and in RAID6 Q. It is read whole, and every choice is made
//! from those bytes: which checked blocks are bad and what is accepted for them, which sectors without a checksum are stale and what their fresh
//! bytes are, and which sectors of P and Q differ from those of the new data.
//! The layer above is promised exactly the writes that follow from them, one call each, or those up to one that failed. `specs/Wanted.antt` and
//! `specs/Rows.antt` say what they are, and `specs/Mending.antt` what a call did.
#![tactic(auto)]

mod accepting;
mod applying;
mod at;
mod blocks;
mod buffer;
mod doubts;
mod freshening;
mod gathering;
mod judged;
mod judging;
mod mended;
mod mending;
mod parities;
mod parity;
mod prepared_row;
mod preparing;
mod reading;
mod row_view;
mod sectors;
mod settling;
mod shape;
mod slice_piece;
mod stripe;
mod wanted_row;
mod work;
mod writing;

pub use at::RowAt;
pub use buffer::RowBuffer;
pub use doubts::has_doubtful;
pub use mended::MendedRow;
pub use mending::mend_row;
pub use settling::is_plain;
pub use work::RowWork;
