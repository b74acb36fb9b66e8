//! What no clause of `btr_salvage` says, tested: salvages of volumes in memory with lost blocks, and those in which something of the outside fails.
#![tactic(auto)]

#[cfg(test)]
mod failing;
#[cfg(test)]
mod losses;
#[cfg(test)]
mod made;
#[cfg(test)]
mod memory;
#[cfg(test)]
mod small;
