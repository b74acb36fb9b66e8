//! The text of tree blocks, as `inspect-internal dump-tree` shows them.
//!
//! `write_block` writes the text of one block that keeps the rules of one block: a line of its header, and then its items
//! or its pointers, an item with the lines of its body. It takes no memory and is proved to write exactly the text that
//! `specs/Block.antt` says, byte for byte, whatever the bytes are. An item whose form is broken, or whose type isn't read,
//! is shown as it is. `specs/Items.antt` has the lines of an item by its type, and `Files`, `Trees`, `Extents` and `Chunk`
//! have the lines themselves.
#![tactic(auto)]

mod block;
mod chunk;
mod extents;
mod files;
mod items;
mod parts;
#[cfg(test)]
mod tests;
mod trees;

pub use block::write_block;
