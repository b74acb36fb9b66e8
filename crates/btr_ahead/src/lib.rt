//! Data that is read ahead: sectors that lie one behind another, by one read.
//!
//! A reader that goes through data in ascending order asks `DataAhead` first: where the first copy of a sector was read, and passes, the sector comes to
//! those bytes, and no call is needed. Whatever is otherwise, as where a read failed or another copy has to be tried, is left to `fetch`.
//! The layer above is promised that a sector that passes here comes to bytes, over whatever images, and, where no read failed and some
//! sectors are wanted, exactly whether the first copy passes. `specs/Ahead.antt` says what is kept.
//!
//! `AheadRack` is for all other readers: a rack over another one, which meets the same contract with fewer reads (`specs/Reader.antt`). It follows four
//! runs of sectors at once (`Runs`).
#![tactic(auto)]

mod ahead_rack;
mod data_ahead;
mod first_place;
mod kept_bytes;
mod kept_run;
mod runs;
mod sector_run;

pub use ahead_rack::AheadRack;
pub use data_ahead::DataAhead;
