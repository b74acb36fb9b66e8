//! What no clause of `btr_make_blocks` says, tested: bodies of items are read back, and trees have the levels and items that they were grown with.
#![tactic(auto)]

#[cfg(test)]
mod forms;
#[cfg(test)]
mod growth;
