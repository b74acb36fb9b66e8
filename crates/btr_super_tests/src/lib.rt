//! What no clause of `btr_super` says, tested: copies of superblocks in memory, what makes them no superblock, which of several counts, and which
//! of them have diverged.
#![tactic(auto)]

#[cfg(test)]
mod choosing;
#[cfg(test)]
mod comparing;
#[cfg(test)]
mod copies;
#[cfg(test)]
mod faults;
#[cfg(test)]
mod fields;
#[cfg(test)]
mod slots;
