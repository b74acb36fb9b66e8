//! What no clause of `btr_refs` says, tested: the references that items, leaves and small volumes store and use, and where they differ.
#![tactic(auto)]

#[cfg(test)]
mod collects;
#[cfg(test)]
mod rows;
#[cfg(test)]
mod stores;
#[cfg(test)]
mod uses;
