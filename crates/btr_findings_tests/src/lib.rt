//! What no clause of `btr_findings` says, tested: sectors that are kept as runs, and single findings among them.
#![tactic(auto)]

#[cfg(test)]
mod sectors;
