//! What every command that lists a subvolume needs, whatever it does about an entry: which names a destination can have, the path of an entry and its bound,
//! the lines and the steps of a listing, and `decide`, which says what an entry comes to by lookups alone.
//!
//! It is promised to the layer above that a decision is that of `decided` (`specs/Deciding`), the first rule that fits, whatever reads failed, and that what
//! isn't left out has a good name and stands in no directory that is too deep. `specs/Lines` and `specs/Causes` have the texts, and `specs/Step` the steps.
#![tactic(auto)]

mod cause;
mod deciding;
mod decision;
mod entry;
mod lines;
mod name;
mod path;
mod rules;

pub use cause::{Cause, cause_text};
pub use deciding::decide;
pub use decision::Decision;
pub use entry::Entry;
pub use lines::{put_counts, put_line, put_skip};
pub use name::good_name;
pub use path::Path;
pub use rules::Rules;
