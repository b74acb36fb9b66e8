//! `send`: a subvolume as one stream of commands, in one file of the destination. The stream has a header and then one command after another, each with
//! its checksum: the subvolume, each directory and file with its bytes and its size, and the end. Only zeros that stand in no extent are left out, and
//! subvolumes and paths of more than 4095 bytes besides what restore leaves out.
//!
//! It is promised to the layer above that what stands in the sink and in the output is what the steps of `sending` say, up to the first block that can't be
//! had. `specs/Command` has the bytes of the commands, `specs/Source` the subvolume, and `specs/Sending` all that is done.
#![tactic(auto)]

mod buffer;
mod commands;
mod entering;
mod laws;
mod listing;
mod plan;
mod progress;
mod sending;
mod shift;
mod source;
mod treating;
mod writing;

pub use laws::{images_give_sectors, is_of_commands, replays, sends_restored};
pub use plan::{SendPlan, StreamFile};
pub use sending::send;
