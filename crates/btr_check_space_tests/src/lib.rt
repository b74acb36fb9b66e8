//! What no clause of `btr_check_space` says, tested: the findings on a small filesystem's space in which one thing is changed, and what visits collect.
#![tactic(auto)]

#[cfg(test)]
mod collects;
#[cfg(test)]
mod devices;
#[cfg(test)]
mod groups;
#[cfg(test)]
mod space;
