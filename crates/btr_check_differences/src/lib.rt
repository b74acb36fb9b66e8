//! By which inodes two trees differ that share blocks.
//!
//! A snapshot has most of its blocks from the subvolume that it was taken of. `find_differences`
//! goes down two trees at once, level by level: blocks that stand at one pointer in both are passed,
//! and only the others are read. What is left are leaves that one tree alone has, and the inodes
//! of which these may have items. It is promised to the layer above that both trees have the same
//! items but for those of the inodes in these ranges (`specs/Differing.antt`), so far as reads
//! were steady, and that the ranges ascend and are apart (`specs/Ranges.antt`). Where many blocks
//! differ, or one can't be had, there is no answer, and the tree is to be visited whole.
//! `visit_ranges` visits the items of these inodes alone.
//!
//! Three laws (`specs/Law.antt`) say what that shows. Tours over ranges meet those items of the
//! whole tree that are theirs, whatever is wrong with its blocks. Where a tree's names are
//! settled, a tour of the other one's own items, and then one of its own, settle the other one
//! too. And nothing is missing of the other one's checksums where nothing is of its own items.
//! `specs/Reading.antt` is what a call that reads blocks has done.
#![tactic(auto)]

mod children;
mod differing;
mod found;
mod inode_range;
mod laws;
mod shared;
mod touring;

pub use differing::find_differences;
pub use inode_range::InodeRange;
pub use laws::{alike_law, missing_law, tours_law};
pub use shared::{same_bound, same_pointer};
pub use touring::visit_ranges;
