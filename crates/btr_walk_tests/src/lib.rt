//! What no clause of `btr_walk` says, tested: scans, lookups, folds and walks of trees in memory.
#![tactic(auto)]

#[cfg(test)]
mod copies;
#[cfg(test)]
mod folds;
#[cfg(test)]
mod rests;
#[cfg(test)]
mod scans;
#[cfg(test)]
mod volume;
#[cfg(test)]
mod walks;
