//! What no clause of `btr_check_differences` says, tested: that few inodes are found where trees
//! in memory share most of their blocks.
#![tactic(auto)]

#[cfg(test)]
mod differing;
#[cfg(test)]
mod volume;
