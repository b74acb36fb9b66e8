//! Chunks: which devices hold the bytes of each range of logical addresses, and where.
//!
//! A filesystem's chunks stand in chunk items, some of which its superblock repeats in the system array. This crate
//! reads both, refuses what breaks the rule of chunks, keeps the chunks in a table in which no two share an address or
//! a byte of a device, and maps an address to its places on the chunk's stripes, in all nine profiles.
//!
//! Each function is proved to answer what its definition in `specs/` says, at all bytes: `Kind` and `Item` read an
//! item, `Chunk` has the rule, `Mapping` the table of the profiles, `Table` what adding and finding come to, and
//! `Array` the system array. `Extents` and `Index` say how the table is kept. `laws` has what follows of places.
#![tactic(auto)]

mod add;
mod array;
mod chunk;
mod extents;
mod fault;
mod index;
mod kind;
mod laws;
mod mapping;
mod place;
mod position;
mod profile;
mod stripe;
mod stripes;
mod table;

pub use add::AddFault;
pub use array::{ArrayFault, read_array};
pub use chunk::{Chunk, ELEMENT};
pub use fault::ChunkFault;
pub use laws::{
    copies_apart, parts_apart, parts_cover, parts_differ, place_inside, places_differ,
    slices_divide, stripes_apart,
};
pub use mapping::{MapFault, elements, place_of};
pub use place::{Part, StripePlace};
pub use position::Elements;
pub use profile::Profile;
pub use stripe::Stripe;
pub use stripes::Stripes;
pub use table::ChunkTable;
