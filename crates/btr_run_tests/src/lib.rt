//! Tests of `run` of `btr_run`: words, `super`, filesystems that aren't opened, `self-test`, and want of memory.
#![tactic(auto)]

#[cfg(test)]
mod answers;
#[cfg(test)]
mod opening;
#[cfg(test)]
mod self_testing;
#[cfg(test)]
mod supers;
#[cfg(test)]
mod wanting;
#[cfg(test)]
mod words;
