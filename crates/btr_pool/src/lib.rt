//! Slots for blocks: one region of memory, taken once, that is cut into slots of one size, which are lent out and given back.
//!
//! The layer above reads every block of a filesystem into such a slot, so that after the start no reading takes memory.
//! It is promised that the slots of two loans never overlap, that `take` is refused exactly where no slot is free, and that
//! a slot keeps its bytes from one loan to the next. The definitions are in `specs/Slots.antt`.
#![tactic(auto)]

mod full;
mod ledger;
mod loan;
mod pool;
#[cfg(test)]
mod tests;

pub use full::Full;
pub use loan::Loan;
pub use pool::Pool;
