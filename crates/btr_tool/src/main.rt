//! The program: `btr_run::program` over the words of the command line and the real images, destination and output.
//!
//! It ends without a line in two ways, both with the status of a failed output: where a standard descriptor that was closed can't be held, and where the
//! output refuses the line.
#![tactic(auto)]

mod standard;
mod words;

use crate::words::SystemWords;
use btr_ahead::AheadRack;
use btr_make::Builder;
use btr_rack::{FileRack, FolderTree, StdOut};
use btr_run::{Answer, program};
use std::process::ExitCode;

fn main(rt: HostRuntime) -> ExitCode {
    let Ok(_held) = standard::hold(&rt) else {
        return ExitCode::from(Answer::OutFault.code());
    };
    let alloc = rt.alloc();
    let mut rack = AheadRack::new(FileRack::new(&rt, alloc), alloc);
    let mut tree = FolderTree::new(&rt, alloc);
    let mut out = StdOut::new(&rt);
    let words = SystemWords { system: &rt };
    ExitCode::from(program(alloc, &words, &mut rack, &mut tree, &mut out, Builder))
}
