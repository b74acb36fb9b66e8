//! Tests of `run` of `btr_run`: the commands that show trees, and the owners of an address.
#![tactic(auto)]

#[cfg(test)]
mod answers;
#[cfg(test)]
mod dumping;
#[cfg(test)]
mod resolving;
