//! Findings: what a check finds wrong with a filesystem, in ascending order and each once.
//!
//! A `Finding` is one thing that is wrong: its `Kind`, and the numbers that its line has. `Found` is a set of them, in which sectors of data
//! that break one rule and stand one behind another take the memory of one; `put_unless`, `put_sectors` and `insert` put findings into it. It
//! is promised to the passes of a check that a set has just what was put, in whatever order, and that `Findings` gives those of a set one by
//! one, in ascending order and each once. The passes share `Extent` too, an extent as its item states it, and `push` and `with_room`, by which
//! lists grow.
//!
//! The definitions are in `specs/`: `Findings` for all kinds, `Sectors` for sectors of data, and `Runs` for how both are kept.
#![tactic(auto)]

mod extent;
mod finding;
mod findings;
mod found;
mod growing;
mod kind;
mod sector_rule;
mod sector_run;
mod showing;

pub use extent::Extent;
pub use finding::Finding;
pub use findings::Findings;
pub use found::{Found, insert, put_sectors, put_unless, set_law};
pub use growing::{push, with_room};
pub use kind::Kind;
pub use sector_rule::SectorRule;
pub use showing::shown;
