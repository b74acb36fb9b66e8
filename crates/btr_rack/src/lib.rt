//! The outside of the engine: racks of images that are opened by name, read and written, sinks of folders
//! and files, and outputs of text.
//!
//! The engine is generic over `Rack`, `TreeSink` and `Out`. A call that answers a fault of the outside has
//! counted it, so a caller can say which fault stands behind an answer: `specs/Rack.antt`, `specs/Sink.antt`
//! and `specs/Out.antt` have the words. `MemRack`, `MemTree` and `MemOut` are in memory, tell their content,
//! and fail exactly where they are made to. `FileRack`, `FolderTree` and `StdOut` are the real ones. What was
//! asked of a real file is in its history (`specs/History.antt`), and `FolderTree` tells what that came to.
#![tactic(auto)]

mod account;
mod buffer;
mod bytes;
mod calls;
mod destination;
mod entry;
mod error;
mod failing;
mod file;
mod file_id;
mod folder_tree;
mod folders;
mod history;
mod image;
mod images;
mod mem_out;
mod mem_rack;
mod mem_tree;
mod new_file;
mod opened;
mod opening;
mod out;
mod part;
mod place;
mod place_list;
mod rack;
mod raw_call;
mod raw_file;
mod raw_out;
mod room;
mod row;
mod std_out;
mod step;
mod strike;
mod text;
mod trail;
mod transfer;
mod tree_sink;
mod tried;
mod unseen;

pub use account::Ledger;
pub use bytes::Bytes;
pub use error::{AddError, PokeError, RackError, SinkError};
pub use file::FileRack;
pub use folder_tree::FolderTree;
pub use mem_out::MemOut;
pub use mem_rack::MemRack;
pub use mem_tree::MemTree;
pub use opening::Opening;
pub use out::Out;
pub use part::Part;
pub use place::Place;
pub use rack::Rack;
pub use row::Row;
pub use std_out::StdOut;
pub use text::Text;
pub use tree_sink::TreeSink;
