//! What follows from the contract of `run`: where nothing failed, and all that a command needs is
//! there, it is done.
//!
//! Each function here is a law: its contract is the law, and its body is empty or calls the laws
//! that it rests on. `specs/Complete.antt` says what a command needs, and `specs/Example.antt` is a
//! volume that meets the premises of the clauses.
#![tactic(auto)]

mod laws;

pub use laws::{commands_complete, example_meets, restore_completes, self_test_completes};
