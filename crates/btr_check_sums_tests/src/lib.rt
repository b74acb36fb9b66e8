//! What no clause of `btr_check_sums` says, tested: the findings on runs of checksums, and what visits meet of them.
#![tactic(auto)]

#[cfg(test)]
mod findings;
#[cfg(test)]
mod visits;
