//! Tree blocks in memory, for tests: bodies of items, leaves and nodes, and whole trees.
//!
//! A tree is made of its items: each function of `bodies` writes the body of one type, `Items` keeps them by their keys,
//! and `Tree::grow` lays them out in leaves, with nodes above them, as a `Form` says; `Tree::grow_beside` shares the blocks
//! that say the same with another tree. Each block has its header and its checksum. `Tree::put` writes a tree into an image
//! in memory whose logical addresses are its offsets.
#![tactic(auto)]

mod block;
pub mod bodies;
mod body;
mod fault;
mod form;
mod growth;
mod inner;
mod items;
mod leaf;
mod tree;

pub use block::{Block, Child};
pub use body::Body;
pub use fault::GrowFault;
pub use form::Form;
pub use items::{Item, Items};
pub use tree::Tree;
