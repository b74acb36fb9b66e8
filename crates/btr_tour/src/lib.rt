//! A tour through a tree that goes on behind faults.
//!
//! A `Tour` meets the blocks of a tree in preorder: each good block, its pointers with what is below them, and its items, from one
//! key to another. A block that is lost, malformed, at an unmapped address, or that crosses an element is met as a fault, and all
//! that is below it is left out. Its marks are a list (`specs/Tour.antt`), and they are the steps of the run of a program that
//! goes on behind faults (`specs/Program.antt`). A block that could not be read is one that this program wants. Where a tour has
//! no fault, its items are those of the range. Its cursor keeps a path of places and at most one loan. A `Visitor` treats all that is met of a
//! whole tree: what comes of it is one fold over the marks (`specs/Visits.antt`). `Both` is two of them in one visit (`specs/Pairs.antt`).
//! Nothing takes memory, and nothing is written.
#![tactic(auto)]

mod advancing;
mod both;
mod entering;
mod laws;
mod met;
mod rest;
mod scope;
mod step;
mod tour;
mod visiting;
mod visitor;

pub use both::{Both, folds_both};
pub use laws::{faultless, marks_of_run, stops_at_fault};
pub use met::Met;
pub use rest::Rest;
pub use tour::{Tour, next};
pub use visiting::visit;
pub use visitor::Visitor;
