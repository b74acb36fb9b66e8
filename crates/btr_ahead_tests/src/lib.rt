//! What no clause of `btr_ahead` says, tested: by how many reads sectors are had, and which reads and syncs that fail are made again.
#![tactic(auto)]

#[cfg(test)]
mod bounds;
#[cfg(test)]
mod images;
#[cfg(test)]
mod reads;
#[cfg(test)]
mod sectors;
#[cfg(test)]
mod writes;
