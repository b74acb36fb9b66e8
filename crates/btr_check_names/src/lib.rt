//! Names: what is wrong with the names in trees of files, and with the names of subvolumes.
//!
//! Of a tree of files it reads the entries of directories (DIR_ITEM and DIR_INDEX), the inodes and their references, and the inodes that are
//! kept without a name; of the root tree the references to subvolumes, ROOT_REF and ROOT_BACKREF. `TreeNames` and `SubvolumeNames` are
//! visitors that keep what the items say, with all names of a list in one buffer; their laws say that a visit leaves just what the items
//! hold. It is promised to the layer above that `put_name_findings` adds exactly the findings of kinds 15 to 22 to a set, and
//! `put_subvolume_findings` those of kind 23. Each kind is one pass that looks up in an ordered set or map, which is let go behind it.
//!
//! A tree that is sound needs no such passes: `Unpaired` is a visitor that counts names on two sides (`Halves`) and keeps what has no other
//! side yet. A tree that has most of its items from a settled one (`Settled`) is settled by what differs (`Differences`).
//!
//! The definitions are in `specs/`: `Names` for kinds 15 to 22, `Subvolumes` for kind 23, `Items` for what one item says; `Packed`, `Shown`
//! and `ShownNames` say how names lie in a buffer, and `Sets` what the sets and sums have.
#![tactic(auto)]

mod ascending;
mod claim;
mod current;
mod dir_entry;
mod entry_list;
mod findings;
mod half;
mod inode_at;
mod inode_run;
mod link_list;
mod link_name;
mod mode_at;
mod name_place;
mod pairs;
mod parts;
mod put_entries;
mod put_inodes;
mod put_subvolumes;
mod putting;
mod sets;
mod slot;
mod subvolume_list;
mod subvolume_name;
mod subvolume_names;
mod taking;
mod tree_names;
mod unpaired;
mod waiting;

use dir_entry::{DirEntry, Target};
use entry_list::EntryList;
pub use inode_at::InodeAt;
use link_list::LinkList;
use link_name::LinkName;
pub use put_subvolumes::put_subvolume_findings;
pub use putting::put_name_findings;
use subvolume_list::SubvolumeList;
use subvolume_name::SubvolumeName;
pub use subvolume_names::{SubvolumeNames, subvolumes_law};
pub use tree_names::{TreeNames, names_law};
pub use unpaired::{Unpaired, difference_law, settled_law, unpaired_law};
