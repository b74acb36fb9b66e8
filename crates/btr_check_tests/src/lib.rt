//! What no clause of `btr_check` says, tested: what a check prints of small volumes.
#![tactic(auto)]

#[cfg(test)]
mod shared;
#[cfg(test)]
mod volumes;
