//! `inspect-internal dump-tree`: what stands in the trees of a filesystem, as text.
//!
//! Each text is a program over wants whose steps are pieces of it (`specs/Pieces.antt`), and each call is proved to put what its run
//! says, piece by piece, whatever fails: everything before a block that can't be had stands in the output, and a refusal of the
//! output leaves a first part (`specs/Showing.antt`).
#![tactic(auto)]

mod block;
mod cursor;
mod ending;
mod kind;
mod lines;
mod roots;
mod tree;
mod trees;

pub use block::dump_block;
pub use roots::list_roots;
pub use tree::dump_tree;
pub use trees::dump_all;
