// The words of the command line, as a plan.
ghost use Rattle.std.specs.Prelude.{◌≡◌, IfOk, IfErr, map};
ghost use Rattle.std.specs.String.{string_bytes};
ghost use Rattle.btr_run.specs.Commands.{opens_to_write};
ghost use Rattle.btr_run.specs.Words.{IsSentence, IsUsageAt};

use crate::query::Query;
use crate::sentence::Sentence;

/// What the program is to do.
#[derive(Clone, Copy, Debug, PartialEq, Eq)]
pub enum Command {
    /// `super`: print the newest valid superblock.
    Super,
    /// A query: puts or writes out what the filesystem of the open images holds.
    Ask(Query),
    /// `check`: print what is wrong with the filesystem; with `read_data`, the sectors that have a
    /// checksum are read too.
    Check { read_data: bool },
    /// `scrub start`: read each copy of each checked block, and with `write` write the bad ones
    /// anew; without it, `-r`, images are only read.
    Scrub { write: bool },
    /// `self-test`: make a volume of so many directories in memory, from 1 to 1000, and try the
    /// other commands on it.
    SelfTest(u64),
}

impl Command {
    /// Whether it writes into the images, which are opened for it then.
    pub fn writes(&self) -> bool
        ensures { result ≡ opens_to_write self.now }
    {
        match self {
            Command::Scrub { write } => *write,
            _ => false,
        }
    }
}

/// A command, and the number of the first word that names an image, or of words where none is
/// named.
#[derive(Clone, Copy, Debug, PartialEq, Eq)]
pub struct Plan {
    /// What is to be done.
    pub command: Command,
    /// The number of the first word that names an image.
    pub images: usize,
}

impl Plan {
    /// The plan of a sentence. The error is the number of the first word that no sentence has at
    /// its place behind the words before it, or the number of words where more are missing.
    pub fn parse(words: &[String]) -> Result<Plan, usize>
        ensures sentence { IfOk result (λ plan. IsSentence plan (map string_bytes words.now)) }
        ensures usage { IfErr result (λ at. IsUsageAt (map string_bytes words.now) at) }
    {
        let mut longest = 0;
        for sentence in Sentence::ALL.iter() {
            match sentence.read(words) {
                Ok(read) => {
                    return Ok(Plan {
                        command: sentence.command(&read),
                        images: read.images,
                    });
                }
                Err(at) => longest = longest.max(at),
            }
        }
        Err(longest)
    }
}
