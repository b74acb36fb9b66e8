// The queries: what is asked of the filesystem of the open images.
ghost use Rattle.std.specs.Prelude.{◌≡◌, ◌<◌, length, map};
ghost use Rattle.std.specs.String.{string_bytes};
ghost use Rattle.btr_rack.specs.Sink.{NotStarted};
ghost use Rattle.btr_run.specs.Answers.{answer_of};
ghost use Rattle.btr_run.specs.Queries.{IsQueryFit};
ghost use Rattle.btr_run.specs.Run.{IsAsked, eyes, ran};

mod resolving;
mod restoring;
mod salvaging;
mod sending;
mod trees;

use crate::answer::Answer;
use btr_files::RestorePlan;
use btr_rack::{Out, Rack, TreeSink};
use btr_send::SendPlan;
use resolving::show_owners;
use restoring::restore_files;
use salvaging::salvage_files;
use sending::send_files;
use std::alloc::Global;
use trees::show_trees;

/// What is asked of the filesystem of the open images, which are only read for it.
#[derive(Clone, Copy, Debug, PartialEq, Eq)]
pub enum Query {
    /// `inspect-internal dump-tree`, and `restore -l`: print trees.
    Dump(DumpChoice),
    /// `inspect-internal logical-resolve`: print whose bytes are at this logical address.
    Resolve(u64),
    /// `restore`: write the directories and files of a subvolume into the destination that the
    /// word of this number names.
    Restore {
        dest: usize,
        plan: RestorePlan,
    },
    /// `restore -i`: the same, on after blocks that can't be had, which are named.
    Salvage {
        dest: usize,
        plan: RestorePlan,
    },
    /// `send`: write a subvolume as one stream, into the file that the word of the second number
    /// names, in the folder of that of the first.
    Send {
        dest: usize,
        file: usize,
        plan: SendPlan,
    },
}

/// Which trees are printed.
#[derive(Clone, Copy, Debug, PartialEq, Eq)]
pub enum DumpChoice {
    /// The root tree, the chunk tree, and the tree of each ROOT_ITEM.
    All,
    /// `-b`: the block at this logical address.
    Block(u64),
    /// `-t`: the tree of this id.
    Tree(u64),
    /// `-r`, and `restore -l`: a line for each tree.
    RootLines,
}

/// Puts, or writes into the sink, what a query of some words asks of the filesystem of the open
/// images.
///
/// An error is the answer of what stopped it; the line of that answer isn't put here.
pub(crate) fn ask<R: Rack, T: TreeSink, O: Out>(
    alloc: Global,
    query: Query,
    words: &[String],
    rack: &mut R,
    tree: &mut T,
    out: &mut O,
) -> Result<Answer, Answer>
    requires open { 0 < length (R.seen rack.old).slots }
    requires fit { IsQueryFit query (map string_bytes words.now) }
    requires fresh { (T.sink tree.old).stage ≡ NotStarted }
    ensures { IsAsked (ran (eyes R.seen T.sink T.account T.waits O.text O.account)
        words.now rack.old tree.old out.old rack.new tree.new out.new (answer_of result)) query }
{
    match query {
        Query::Dump(choice) => show_trees(alloc, choice, rack, out),
        Query::Resolve(addr) => show_owners(alloc, addr, rack, out),
        Query::Restore { dest, plan } => {
            restore_files(alloc, &plan, words[dest].as_str(), rack, tree, out)
        }
        Query::Salvage { dest, plan } => {
            salvage_files(alloc, &plan, words[dest].as_str(), rack, tree, out)
        }
        Query::Send { dest, file, plan } => {
            let (dest, name) = (words[dest].as_str(), words[file].as_str());
            send_files(alloc, &plan, dest, name, rack, tree, out)
        }
    }
}
