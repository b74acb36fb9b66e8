//! What no clause of `btr_tour` says, tested: tours through trees in memory, with faults and without, and what is visited there.
#![tactic(auto)]

#[cfg(test)]
mod faults;
#[cfg(test)]
mod rests;
#[cfg(test)]
mod tours;
#[cfg(test)]
mod visits;
#[cfg(test)]
mod volume;
