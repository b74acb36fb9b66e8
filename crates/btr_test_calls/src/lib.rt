//! Calls of `run` over images, destinations and outputs in memory, for tests.
//!
//! `call`, `call_where` and `call_making` answer what came of a call as plain bytes. `super_of` reads a superblock of a volume of `btr_make`, and
//! `five_files` are the rows of a restore of one. No public function has an `ensures`: what `run` promises is proved where it stands, and a test looks at
//! what it does, so no test carries those facts.
#![tactic(auto)]

mod calling;
mod failing;
mod fault;
mod files;
mod rows;
mod superblock;
mod told;
mod wording;

pub use calling::{call, call_making, call_where, called};
pub use failing::Failing;
pub use fault::CallFault;
pub use files::five_files;
pub use superblock::super_of;
pub use told::Told;
pub use wording::words;
