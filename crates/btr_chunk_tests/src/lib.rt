//! What no clause of `btr_chunk` says, tested: items, the table and its refusals, and places worked out by hand.
#![tactic(auto)]

#[cfg(test)]
mod chunks;
#[cfg(test)]
mod table;
