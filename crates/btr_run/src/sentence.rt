// The sentences of the command line.
ghost use Rattle.std.specs.Prelude.{◌≡◌, map, IfErr, IfOk};
ghost use Rattle.std.specs.String.{string_bytes};
ghost use Rattle.btr_run.specs.Restores.{plan_by};
ghost use Rattle.btr_run.specs.Words.{IsRead, IsShort, command_of, nothing_of, part_of, parts_of};
ghost use Rattle.btr_run.specs.Words.{restore_of};

use crate::options::Options;
use crate::part::Part;
use crate::place::{Next, Read, SentencePlace};
use crate::plan::Command;
use crate::query::{DumpChoice, Query};
use btr_files::RestorePlan;

/// A form of sentences.
#[derive(Clone, Copy)]
pub(crate) enum Sentence {
    Super,
    DumpAll,
    DumpBlock,
    DumpTree,
    DumpRoots,
    Resolve,
    Check,
    CheckData,
    Scrub,
    ScrubRead,
    Roots,
    Restore,
    Send,
    SelfTest,
}

impl Sentence {
    /// All of them.
    pub(crate) const ALL: [Sentence; 14] = [
        Sentence::Super,
        Sentence::DumpAll,
        Sentence::DumpBlock,
        Sentence::DumpTree,
        Sentence::DumpRoots,
        Sentence::Resolve,
        Sentence::Check,
        Sentence::CheckData,
        Sentence::Scrub,
        Sentence::ScrubRead,
        Sentence::Roots,
        Sentence::Restore,
        Sentence::Send,
        Sentence::SelfTest,
    ];

    /// What stands at its places.
    pub(crate) fn parts(self) -> &'static [Part]
        ensures { map part_of result.now ≡ parts_of self }
    {
        match self {
            Sentence::Super => &[Part::Word("super")],
            Sentence::DumpAll => &[Part::Word("inspect-internal"), Part::Word("dump-tree")],
            Sentence::DumpBlock => &[
                Part::Word("inspect-internal"),
                Part::Word("dump-tree"),
                Part::Word("-b"),
                Part::Number,
            ],
            Sentence::DumpTree => &[
                Part::Word("inspect-internal"),
                Part::Word("dump-tree"),
                Part::Word("-t"),
                Part::Number,
            ],
            Sentence::DumpRoots => &[
                Part::Word("inspect-internal"),
                Part::Word("dump-tree"),
                Part::Word("-r"),
            ],
            Sentence::Resolve => &[
                Part::Word("inspect-internal"),
                Part::Word("logical-resolve"),
                Part::Number,
            ],
            Sentence::Check => &[Part::Word("check")],
            Sentence::CheckData => &[Part::Word("check"), Part::Word("--check-data-csum")],
            Sentence::Scrub => &[Part::Word("scrub"), Part::Word("start")],
            Sentence::ScrubRead => &[Part::Word("scrub"), Part::Word("start"), Part::Word("-r")],
            Sentence::Roots => &[Part::Word("restore"), Part::Word("-l")],
            Sentence::Restore => &[Part::Word("restore"), Part::Destination],
            Sentence::Send => &[Part::Word("send"), Part::Destination, Part::File],
            Sentence::SelfTest => &[Part::Word("self-test"), Part::Volume],
        }
    }

    /// What is read before its first word: nothing, but that a send takes no option but an id.
    pub(crate) fn nothing(self) -> Read
        ensures { result ≡ nothing_of self }
    {
        match self {
            Sentence::Send => Read {
                options: Options::id_alone(),
                ..Read::nothing()
            },
            _ => Read::nothing(),
        }
    }

    /// What it asks for, by what was read of its words.
    pub(crate) fn command(self, read: &Read) -> Command
        ensures { result ≡ command_of self read.now }
    {
        match self {
            Sentence::Super => Command::Super,
            Sentence::DumpAll => Command::Ask(Query::Dump(DumpChoice::All)),
            Sentence::DumpBlock => Command::Ask(Query::Dump(DumpChoice::Block(read.number))),
            Sentence::DumpTree => Command::Ask(Query::Dump(DumpChoice::Tree(read.number))),
            Sentence::DumpRoots => Command::Ask(Query::Dump(DumpChoice::RootLines)),
            Sentence::Resolve => Command::Ask(Query::Resolve(read.number)),
            Sentence::Check => Command::Check { read_data: false },
            Sentence::CheckData => Command::Check { read_data: true },
            Sentence::Scrub => Command::Scrub { write: true },
            Sentence::ScrubRead => Command::Scrub { write: false },
            Sentence::Roots => Command::Ask(Query::Dump(DumpChoice::RootLines)),
            Sentence::Restore => Command::Ask(restore_by(read)),
            Sentence::Send => Command::Ask(Query::Send {
                dest: read.name,
                file: read.file,
                plan: read.options.send_plan(),
            }),
            Sentence::SelfTest => Command::SelfTest(read.number),
        }
    }

    /// What is read of words that are a sentence of this form. The error is how many of them begin
    /// one, where they are none.
    pub(crate) fn read(self, words: &[String]) -> Result<Read, usize>
        ensures whole { IfOk result (λ read. IsRead self (map string_bytes words.now) read) }
        ensures short { IfErr result (λ at. IsShort self (map string_bytes words.now) at) }
    {
        let mut place = SentencePlace {
            left: self.parts(),
            next: Next::Part,
            read: self.nothing(),
        };
        for (at, word) in words.iter().enumerate() {
            place = match place.behind(at, word.as_str()) {
                Some(next) => next,
                None => return Err(at),
            };
        }
        match place.read() {
            Some(read) => Ok(read),
            None => Err(words.len()),
        }
    }
}

// A restore, which may go on after blocks that can't be had.
fn restore_by(read: &Read) -> Query
    ensures { result
        ≡ restore_of read.now.options.salvage read.now.name (plan_by read.now.options) }
{
    let dest = read.name;
    let plan = read.options.plan();
    if read.options.salvage {
        Query::Salvage {
            dest,
            plan: RestorePlan { dry: false, ..plan },
        }
    } else {
        Query::Restore { dest, plan }
    }
}
