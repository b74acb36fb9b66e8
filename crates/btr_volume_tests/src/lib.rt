//! What no clause of `btr_volume` says, tested: volumes in memory, opened, and what can't be opened.
#![tactic(auto)]

#[cfg(test)]
mod chunks;
#[cfg(test)]
mod differing;
#[cfg(test)]
mod refusals;
#[cfg(test)]
mod rows;
#[cfg(test)]
mod volume;
