//! What no clause of `btr_items` says, tested: what the readers answer for items of real filesystems, and for items with one byte changed.
#![tactic(auto)]

#[cfg(test)]
mod bodies;
#[cfg(test)]
mod broken;
#[cfg(test)]
mod extents;
#[cfg(test)]
mod files;
#[cfg(test)]
mod keys;
#[cfg(test)]
mod leaves;
#[cfg(test)]
mod reading;
#[cfg(test)]
mod trees;
#[cfg(test)]
mod views;
#[cfg(test)]
mod whole;
