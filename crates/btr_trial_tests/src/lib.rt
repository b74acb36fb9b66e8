//! What no clause of `btr_trial` says, tested: trials of made volumes, sound and spoiled.
#![tactic(auto)]

#[cfg(test)]
mod trials;
