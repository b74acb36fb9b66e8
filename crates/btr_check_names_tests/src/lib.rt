//! What no clause of `btr_check_names` says, tested: the findings on small trees of files and of subvolumes' names, in each of which one rule is broken,
//! and visits that meet their items.
#![tactic(auto)]

#[cfg(test)]
mod files;
#[cfg(test)]
mod folder;
#[cfg(test)]
mod removed;
#[cfg(test)]
mod rows;
#[cfg(test)]
mod subvolumes;
#[cfg(test)]
mod trees;
#[cfg(test)]
mod unpaired;
