//! What no clause of `btr_send` says, tested: streams of volumes in memory, read back by a reader of
//! their own, and those in which something of the outside fails.
#![tactic(auto)]

#[cfg(test)]
mod failing;
#[cfg(test)]
mod folders;
#[cfg(test)]
mod holes;
#[cfg(test)]
mod made;
#[cfg(test)]
mod memory;
#[cfg(test)]
mod replay;
#[cfg(test)]
mod scene;
#[cfg(test)]
mod small;
