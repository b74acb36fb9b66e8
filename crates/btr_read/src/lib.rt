//! Reading a block: from a logical address to the bytes of a block that passes its test.
//!
//! A `Want` says which block is sought and how a reading is tested. Its candidates are the copies in the profile of
//! its chunk and, for RAID5 and RAID6, the slices that are computed from the others and the parities; each stands only
//! where the devices that it reads are given and its ranges lie in their images. Those that read an image that is older than
//! the chosen superblock come last, since it missed writes. The layer above is promised a standing
//! candidate that passes, the first one where no read failed, or the reason why none was had. `specs/Want.antt` says
//! what passes, `specs/Candidates.antt` what the candidates are, `specs/Fate.antt` what becomes of a want over the bytes
//! of the images, and `specs/Cause.antt` when a block may be called unread. `try_mirror` looks at one copy by itself, as
//! repairing needs it: `specs/Mirror.antt`.
#![tactic(auto)]

mod attempt;
mod candidate;
mod comparing;
mod device;
mod fault;
mod fetching;
mod folding;
mod gathering;
mod kept;
mod laws;
mod loan;
mod mirror;
mod parity;
mod passing;
mod reading;
mod rebuilding;
mod row_slots;
mod search;
mod setting;
mod solving;
mod store;
mod syndromes;
mod trying;
mod want;
mod ways;

pub use candidate::Candidate;
pub use comparing::compare_candidates;
pub use device::{Device, Member};
pub use fault::ReadFault;
pub use fetching::fetch;
pub use laws::{value_by_ranges, value_is_the_one};
pub use loan::Loan;
pub use mirror::{Tried, TryFault, try_mirror};
pub use parity::Parity;
pub use passing::{passes, passes_in};
pub use setting::Setting;
pub use store::Store;
pub use want::Want;
pub use ways::way_at;
