//! `inspect-internal logical-resolve`: whose bytes are at an address of the filesystem.
//!
//! In the tree of each subvolume, by ascending id, the extents of files are read one after another. One that has the address is told with the path
//! of each name of its file, before the next item of the tree is read. The text is a program over wants whose steps are lines
//! (`specs/Resolving.antt`), with the owners in a tree (`specs/Owning.antt`) and the paths of names (`specs/Paths.antt`) as its parts; `resolve` is
//! proved to follow its run, whatever fails (`specs/Running.antt`).
#![tactic(auto)]

mod climbing;
mod extent;
mod laws;
mod lines;
mod owner;
mod owners;
mod path;
mod report;
mod resolving;
mod subvolumes;
mod telling;

pub use laws::owners_linked;
pub use resolving::resolve;
