//! Trees of blocks: the greatest item at or below a key, and all items from one key to another in order.
//!
//! A tree's blocks are fetched one by one through `btr_read`, each judged by its place: its level, the rules of one block,
//! the key of its parent's pointer, and the bound of the next one (`specs/BlockPointer.antt`). What a call answers follows a
//! program over wants, whatever reads failed: `le` (`specs/Le.antt`) for `find_le`, `range` (`specs/Range.antt`) for a
//! `Scan`, whose cursor keeps a path of places and one leaf's loan. Nothing takes memory, and nothing is written.
#![tactic(auto)]

mod advancing;
mod again;
mod ahead;
mod beginning;
mod block_pointer;
mod block_scan;
mod choice;
mod entering;
mod fault;
mod finding;
mod folder;
mod folding;
mod found;
mod found_block;
mod frame;
mod going;
mod judging;
mod leaf_again;
mod leaf_at;
mod leaving;
mod path;
mod place;
mod preorder;
mod reading;
mod rest;
mod scan;
mod scan_place;

pub use again::read_again;
pub use beginning::begin;
pub use block_pointer::BlockPointer;
pub use block_scan::{BlockScan, next_block};
pub use choice::{Part, choose, frame_of, part_of};
pub use fault::TreeFault;
pub use finding::{child_at, find_le, find_reach, found_at};
pub use folder::{FoldFault, Folder, Took};
pub use folding::fold;
pub use found::{Found, Reach};
pub use found_block::FoundBlock;
pub use frame::{Below, Frame, Todo};
pub use going::Where;
pub use leaf_again::read_leaf;
pub use leaf_at::{LeafAt, behind_next, give_leaf, put_leaf};
pub use path::{AtLevel, HEIGHT, Path, lowest, set_frame};
pub use place::RootPlace;
pub use reading::read_block;
pub use rest::{MetAgain, Rest};
pub use scan::{Scan, next};
