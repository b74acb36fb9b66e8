//! Tests of `run` of `btr_run`: scrubs, after which each byte is right again, or none has changed.
#![tactic(auto)]

#[cfg(test)]
mod answers;
#[cfg(test)]
mod counted;
#[cfg(test)]
mod mending;
#[cfg(test)]
mod scrubbing;
#[cfg(test)]
mod turns;
