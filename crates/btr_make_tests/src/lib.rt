//! What no clause of `btr_make` says, tested: volumes in memory, read back block by block, superblock by superblock and row by row.
#![tactic(auto)]

#[cfg(test)]
mod blocks;
#[cfg(test)]
mod makers;
#[cfg(test)]
mod rows;
#[cfg(test)]
mod sound;
#[cfg(test)]
mod spoiling;
#[cfg(test)]
mod supers;
