//! Checking a filesystem: all that is wrong with it, and how findings are printed.
//!
//! `check` is the whole. `read_trees` answers the trees that there are, or why a filesystem isn't checked. `walk_trees` goes through all of them,
//! behind faults too: what it finds is what is wrong with the trees themselves, and it keeps where each block stands, once however many
//! trees reach it. A subtree that has nothing wrong is walked once, and passed where another tree reaches it with the same bounds.
//! Where it finds nothing, one pass after another visits trees and puts what is wrong with what they say into one set: `references` for
//! extents and what uses them, which `count_uses` counts block by block; `space` for block groups and devices; `sums` and `readable` for
//! checksums of data and the data itself; and `file_trees` for files and names, which passes a tree that has the same blocks below its root as
//! a sound one (`sound_tree`). What a pass has kept is let go behind it. `put_findings` puts the lines of findings. It is promised to the layer
//! above that, so far as reads were steady, each is what the definitions say of the block map, and that an answer of a block that could not be
//! read has its cause.
//!
//! The definitions are in `specs/`: `Findings` is the list of all findings, and `Families` has what each pass finds. `Trees` and `Filesystem`
//! say what is checked, `Before` why it isn't, `Walks` has what is wrong with the trees, `Passing` what is kept of a subtree, `Uses` what with
//! extents that are used, `Data` what is lost of the data, `FileTrees` what is met of a tree of files, `SoundTrees` what is kept of sound ones,
//! `Wanted` which blocks are wanted, and `Text` the lines; all else has its rules in `btr_check_names`, `btr_check_space` and `btr_check_sums`. `Running` is
//! what each call that reads promises, and `Passes` what a pass puts.
#![tactic(auto)]

mod adding;
mod block_fault;
mod checked;
mod checking;
mod collecting;
mod counting;
mod differing;
mod extent_tree;
mod file_tree;
mod file_trees;
mod form;
mod opening;
mod places;
mod readable;
mod references;
mod refusing;
mod root_walk;
mod sound_tree;
mod space;
mod subtrees;
mod sums;
mod text;
mod trees;
mod visiting;
mod walk;
mod walking;

pub use adding::put_walk_findings;
pub use checking::check;
pub use counting::{count_uses, full_backrefs};
pub use text::put_findings;
pub use trees::{all_trees, read_trees};
pub use walk::Walk;
pub use walking::walk_trees;
