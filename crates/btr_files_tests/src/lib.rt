//! What no clause of `btr_files` says, tested: lookups, directories and the pieces of files in trees in memory.
#![tactic(auto)]

#[cfg(test)]
mod dirs;
#[cfg(test)]
mod files;
#[cfg(test)]
mod lookups;
#[cfg(test)]
mod pieces;
#[cfg(test)]
mod volume;
