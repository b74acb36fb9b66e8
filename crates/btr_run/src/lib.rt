//! The commands: the words of a command line, the top call and its answers, and their texts.
//!
//! `run` does what the words say over any rack of images, destination and output. Its contract is
//! the program's, which is promised to the layer above: the answer, the text put and what was done
//! in the destination are those of the words and the images (`specs/Effects.antt`), and a fault of
//! the outside is answered only with its cause (`specs/Causes.antt`). `specs/Words.antt` has the
//! sentences, `specs/Text.antt` the texts.
#![tactic(auto)]

mod answer;
mod checking;
mod command_line;
mod commands;
mod filesystem;
mod laws;
mod newest;
mod opening;
mod options;
mod part;
mod place;
mod plan;
mod query;
mod refusal;
mod running;
mod scrubbing;
mod self_testing;
mod sentence;
mod starting;
mod text;

pub use answer::Answer;
pub use command_line::CommandLine;
pub use laws::{mending_keeps_restores, owners_counted, salvage_is_committed, send_is_stream};
pub use running::run;
pub use starting::program;
