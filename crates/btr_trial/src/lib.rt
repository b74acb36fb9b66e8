//! The trial of a volume: it is checked, one image is spoiled, all files are restored, the filesystem is scrubbed, another
//! image is spoiled, and all files are restored again, each by the public call of its crate over a rack in memory.
//!
//! `trial` puts four lines and answers how many of them differ from those of a sound volume. It is promised to the layer above that these
//! are the lines of `specs/Trial.antt`, which says what each step comes to over the images as they are found, whatever these hold. `Stated`
//! has the directories and files that a made volume holds, and `Shown` the lines.
#![tactic(auto)]

mod checking;
mod comparing;
mod content;
mod lines;
mod opening;
mod rack;
mod restoring;
mod scrubbing;
mod tried;
mod trying;
mod whole_files;

pub use trying::trial;
