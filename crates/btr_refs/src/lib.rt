//! References: what refers to each extent, what the extent tree says of it, and where the two differ.
//!
//! An extent is a range of logical addresses: a tree block, or data of files. `Stored` is a visitor that keeps the extents and the references to
//! them that the extent tree stores, in EXTENT_ITEMs, METADATA_ITEMs and items of their own; `Forward` counts the uses by trees, nodes and
//! files, beside the list of the references that are stored, and keeps what is wrong with extents by their uses. It is promised to the layer
//! above that both are maps of what is there, and that `put_total_findings`, `put_count_findings` and `put_use_findings` put exactly the
//! findings by which they differ.
//!
//! The definitions are in `specs/`: `Counts`, `Listed`, `Extents`, `Misusing`, `Forward` and `Differences`.
#![tactic(auto)]

mod comparing;
mod counted;
mod counts;
mod extent_list;
mod forward;
mod misusing;
mod ref_key;
mod ref_list;
mod ref_store;
mod stored;
mod stored_list;
mod used;

pub use comparing::{put_count_findings, put_total_findings, put_use_findings};
pub use counted::Counted;
pub use counts::counts_law;
pub use forward::Forward;
pub use ref_key::RefKey;
pub use stored::{Stored, stored_law};
pub use stored_list::StoredList;
pub use used::Used;
