//! What no clause of `btr_resolve` says, tested: the owners of addresses in volumes in memory.
#![tactic(auto)]

#[cfg(test)]
mod names;
#[cfg(test)]
mod owners;
#[cfg(test)]
mod rows;
#[cfg(test)]
mod scene;
