//! Tests of `run` of `btr_run`: restores, of images that somebody damaged too, and such that end before their end.
#![tactic(auto)]

#[cfg(test)]
mod copying;
#[cfg(test)]
mod damaged;
#[cfg(test)]
mod failing;
#[cfg(test)]
mod hostile;
#[cfg(test)]
mod restoring;
#[cfg(test)]
mod sinking;
