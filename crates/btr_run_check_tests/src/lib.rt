//! Tests of `run` of `btr_run`: checks, of a volume for each kind of fault and of sound ones.
#![tactic(auto)]

#[cfg(test)]
mod answers;
#[cfg(test)]
mod checking;
#[cfg(test)]
mod kinds;
