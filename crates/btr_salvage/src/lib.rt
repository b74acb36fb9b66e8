//! `restore -i`: the listing of a subvolume into a sink of folders and files, past blocks that can't be had. It is promised to the layer above that what
//! stands in the sink and in the output, and what is answered, is what the steps of one program say that goes on behind each fault but those of the roots
//! (`specs/Salvaging`), whatever failed. What an entry comes to is that of `btr_listing`, and what is done about it that of `btr_restore`.
//! Over honest images what it leaves of the committed listing is all but the entries that it names (`specs/Left`).
#![tactic(auto)]

mod damage;
mod folder;
mod laws;
mod listing;
mod reading;
mod salvaged;
mod salvaging;
mod telling;
mod treating;

pub use laws::{honest_salvage, one_run, read_twice};
pub use salvaged::Salvaged;
pub use salvaging::salvage;
