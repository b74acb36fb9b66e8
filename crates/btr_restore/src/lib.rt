//! `restore`: the listing of a subvolume into a sink of folders and files. It is promised to the layer above that what stands in the
//! sink and in the output is what the steps of the journey say, up to the first block that can't be had. The definitions are in `specs/`.
//! The calls that do something about one entry are public for other
//! listings: one that goes on after such blocks, and one into a stream.
#![tactic(auto)]

mod endpoints;
mod entering;
mod job;
mod laws;
mod listing;
mod lookups;
mod restoring;
mod rows;
mod telling;
mod treated;
mod treating;
mod writing;

pub use endpoints::Endpoints;
pub use job::{DirJob, Job};
pub use laws::{committed_order, each_told, headline, opened_then, orderly, settled};
pub use listing::{NamedRow, OpenDir};
pub use lookups::find_tree;
pub use restoring::{free_dirs, restore, settle, store_waiting, tell_counts};
pub use rows::{leave_dir, start_in};
pub use telling::{leave_out, more, out_stop, sink_stop, tell_unverified};
pub use treated::Treated;
pub use treating::{carry_out, rules_of};
pub use writing::{has_no_sums, is_plain};
