//! What no clause of `btr_scrub` says, tested: scrubs of volumes in memory that are damaged, byte by byte.
#![tactic(auto)]

#[cfg(test)]
mod copies;
#[cfg(test)]
mod damage;
#[cfg(test)]
mod differing;
#[cfg(test)]
mod laws;
#[cfg(test)]
mod lists;
#[cfg(test)]
mod one_row;
#[cfg(test)]
mod opened;
#[cfg(test)]
mod shapes;
#[cfg(test)]
mod stale_rows;
#[cfg(test)]
mod stripes;
