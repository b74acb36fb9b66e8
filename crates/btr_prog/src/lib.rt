//! Programs over wants, of which each definition that reads blocks is made: a program returns a value, stops with a fault, wants
//! a block or does a step. This crate reads nothing of the format and names no type of the layers above, which bring their own
//! wants, faults and steps. It promises them that one meaning, the run of a program under a block map, is followed through
//! programs put together, maps that lack blocks, and calls that fail. The definitions are in specs/, by subject; docs/PROGRAMS.md
//! explains them with an example. Each function here is a law: its contract is the law, and its body is empty.
#![tactic(auto)]

mod answering;
mod cause;
mod going;
mod mapping;
mod running;
mod staging;
mod trying;

pub use answering::{
    broke_here, follows_halt, follows_quiet, follows_seen, follows_then, held_law, place_law,
    step_broke, step_done, unread_here, want_came, want_faults, want_unread,
};
pub use cause::{Cause, StagedCause};
pub use going::{
    blind_law, goes_bind, goes_halt, goes_held, goes_more, goes_one, goes_some, goes_step,
    goes_then, goes_thread, goes_want,
};
pub use mapping::{cut_law, lost_law, only_needs, well_law, whole_law};
pub use running::{exec_bind, exec_thread, needs_bind, outcome_of_thread};
pub use staging::{exec_renamed, exec_staged, goes_staged, staged_cut, staged_lost, staged_then};
pub use trying::{attempt_law, gathered_law, only_tried, tried_ends, tried_then, try_came};
