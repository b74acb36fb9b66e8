//! What no clause of `btr_restore` says, tested: restores of volumes in memory, and those in which something of the outside fails.
#![tactic(auto)]

#[cfg(test)]
mod failing;
#[cfg(test)]
mod lines;
#[cfg(test)]
mod memory;
#[cfg(test)]
mod restoring;
