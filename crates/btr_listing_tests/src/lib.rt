//! What no clause of `btr_listing` says, tested: what the entries of volumes in memory come to, by each rule.
#![tactic(auto)]

#[cfg(test)]
mod deciding;
#[cfg(test)]
mod names;
