//! What no clause of `btr_read` says, tested: that the definitions mean what the format means, and that each call succeeds.
#![tactic(auto)]

#[cfg(test)]
mod blocks;
#[cfg(test)]
mod comparing;
#[cfg(test)]
mod faults;
#[cfg(test)]
mod given;
#[cfg(test)]
mod interrupts;
#[cfg(test)]
mod kept;
#[cfg(test)]
mod mirrors;
#[cfg(test)]
mod older;
#[cfg(test)]
mod profiles;
#[cfg(test)]
mod shape;
#[cfg(test)]
mod stores;
#[cfg(test)]
mod volume;
#[cfg(test)]
mod wants;
