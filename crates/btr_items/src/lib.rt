//! The items of trees: what their keys and bodies say, read in place.
//!
//! Each reader is proved to answer what its definition in `specs/` says, at all bytes: the fields where the
//! body has the form of its type, and `ItemFault` exactly where it doesn't. None takes memory or copies a
//! body; a name is given by its place and length. `specs/` has one module a type, named after it, whose
//! definition goes from bytes to fields: `Inode` has `inode_of`, and so on. `Types` has the numbers and names of the
//! types, `Flags` those of the flags, `Key` the rules on keys, `Parts` the list of what stands in a body one after another, which the iterators `entries`,
//! `inode_refs`, `ext_refs` and `inline_refs` go over, and `Item` says when a whole item has its form.
#![tactic(auto)]

mod block_group;
mod dev_extent;
mod dev_item;
mod entry;
mod ext_ref;
mod extent_item;
mod fault;
mod field;
mod file_extent;
mod fits;
mod flags;
mod form;
mod inline_ref;
mod inode;
mod inode_ref;
pub mod item;
mod key;
mod link;
mod loose_ref;
mod name;
mod parts;
mod reference;
mod root_item;
mod root_ref;
mod shape;
mod sum_run;

pub use block_group::BlockGroup;
pub use dev_extent::DevExtent;
pub use dev_item::DevItem;
pub use entry::{Entry, entries};
pub use ext_ref::{ExtRef, ext_refs};
pub use extent_item::ExtentItem;
pub use fault::ItemFault;
pub use file_extent::FileExtent;
pub use fits::item_fits;
pub use flags::{ExtentFlags, InodeFlags, RootFlags};
pub use form::Form;
pub use inline_ref::{InlineRef, inline_refs};
pub use inode::Inode;
pub use inode_ref::{InodeRef, inode_refs};
pub use key::key_fits;
pub use link::Link;
pub use loose_ref::LooseRef;
pub use parts::{Part, Parts};
pub use root_item::RootItem;
pub use root_ref::RootRef;
pub use shape::Shape;
pub use sum_run::SumRun;
