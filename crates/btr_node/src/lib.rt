//! One block of a Btrfs tree: a leaf with its items, or an inner node with its pointers.
//!
//! `Node::view` borrows a block of a node's size, and refuses it exactly where it breaks a rule of one block: a level
//! above 7; keys that don't ascend strictly; in a leaf, bytes of items that aren't packed from the block's end down to
//! the table; in an inner node, no pointer, or more than fit. `Leaf` is proved to be the list of its items and `Inner`
//! that of its pointers: each call takes constant time, `seek` and `seek_le` logarithmic time, and nothing is copied or
//! allocated. `specs/Block.antt` has the lists and the rules.
#![tactic(auto)]

mod inner;
mod items;
mod leaf;
mod malformed;
mod node;
mod pointer;
mod table;
#[cfg(test)]
mod tests;

pub use inner::Inner;
pub use items::{Items, LeafItem};
pub use leaf::Leaf;
pub use malformed::Malformed;
pub use node::Node;
pub use pointer::Pointer;
pub use table::level;
