// A reader of the list of blocks.
ghost use Rattle.std.specs.Prelude.{◌≡◌, ◌<◌};
ghost use Rattle.btr_scrub.specs.Listed.{PassesNext, IsList, kept_wants};

use crate::listed::Listed;
use crate::run::RunKind;
use btr_read::Want;
use std::marker::Model;

/// A place in a list of blocks (`docs/FORMAT.md`, "Checked blocks"), seen as those that come behind it.
#[derive(Drop)]
pub(crate) struct Reader<'a> {
    listed: &'a Listed,
    // The run, and how many of its sectors are past.
    run: usize,
    past: u32,
    // The places of the next checksum and of the next mark.
    sum: usize,
    mark: usize,
}

impl<'a> Model for Reader<'a> {
    ghost use Rattle.std.specs.Prelude.{List};
    ghost use Rattle.btr_scrub.specs.Listed.{left_in, StandsIn};
    ghost use Rattle.btr_read.specs.declared.want.Want.{Want};

    ghost Value = { List Want };

    ghost view = { λ r. left_in r.listed.now r.run r.past r.sum r.mark };

    ghost invariant = { λ r. StandsIn r.listed.now r.run r.past r.sum r.mark };
}

// How many sectors of a run are past behind the next one, if that isn't the last.
fn behind(past: u32, count: u32) -> Option<u32>
    requires { past < count }
    ensures { PassesNext past count result }
{
    if count - past == 1 {
        None
    } else {
        Some(past + 1)
    }
}

/// A reader before all blocks of a list.
pub(crate) fn read_all(listed: &Listed) -> Reader<'_>
    requires { IsList listed.now }
    ensures { result ≡ kept_wants listed.now }
{
    Reader {
        listed,
        run: 0,
        past: 0,
        sum: 0,
        mark: 0,
    }
}

impl<'a> Reader<'a> {
    ghost use Rattle.std.specs.Prelude.{◌≡◌, IfSome};
    ghost use Rattle.btr_scrub.specs.Listed.{GivesNext, IsNextPlain, PassesFrom, PassesPlain};

    /// Another reader at the same place.
    pub fn again(&self) -> Reader<'a>
        ensures { result ≡ self.now }
    {
        Reader {
            listed: self.listed,
            run: self.run,
            past: self.past,
            sum: self.sum,
            mark: self.mark,
        }
    }

    /// The next block, if there is one.
    pub fn next(&mut self) -> Option<Want>
        ensures { GivesNext self.old result self.new }
    {
        let run = self.listed.run_at(self.run)?;
        match run.kind {
            RunKind::TreeBlock => {
                let mark = self.listed.mark_at(self.mark)?;
                self.run += 1;
                self.mark += 1;
                Some(Want::Tree {
                    addr: run.addr,
                    generation: mark.generation,
                    level: mark.level,
                })
            }
            RunKind::Sectors(count) => {
                let sum = self.listed.sum_at(self.sum);
                let addr = run.addr + u64::from(self.past) * 4096;
                self.sum += self.listed.kind().size();
                match behind(self.past, count) {
                    None => {
                        self.run += 1;
                        self.past = 0;
                    }
                    Some(past) => self.past = past,
                }
                Some(Want::Sector { addr, sum })
            }
            RunKind::Unsummed(count) => {
                let addr = run.addr + u64::from(self.past) * 4096;
                match behind(self.past, count) {
                    None => {
                        self.run += 1;
                        self.past = 0;
                    }
                    Some(past) => self.past = past,
                }
                Some(Want::Plain { addr })
            }
        }
    }

    /// The address of the sector that comes next, if that has no checksum.
    pub(crate) fn plain_at(&self) -> Option<u64>
        ensures { IfSome result (IsNextPlain self.now) }
    {
        let run = self.listed.run_at(self.run)?;
        match run.kind {
            RunKind::TreeBlock | RunKind::Sectors(_) => None,
            RunKind::Unsummed(_) => Some(run.addr + u64::from(self.past) * 4096),
        }
    }

    /// Passes over the sectors without a checksum that come next one behind another from an address
    /// on, as far as they begin before a bound; answers where the last one ends.
    pub(crate) fn pass_from(&mut self, from: u64, bound: u64) -> u64
        ensures { PassesFrom self.old from bound result self.new }
    {
        let Some(run) = self.listed.run_at(self.run) else {
            return from;
        };
        let RunKind::Unsummed(count) = run.kind else {
            return from;
        };
        if run.addr + u64::from(self.past) * 4096 != from || from >= bound {
            return from;
        }
        let below = (bound - from - 1) / 4096 + 1;
        let left = u64::from(count - self.past);
        if below >= left {
            self.run += 1;
            self.past = 0;
            return from + left * 4096;
        }
        self.past += below as u32;
        from + below * 4096
    }

    /// Passes over the sectors without a checksum that come next and follow each other, as far as
    /// they begin before an address.
    pub(crate) fn pass_plain(&mut self, end: u64)
        ensures { PassesPlain self.old end self.new }
    {
        if let Some(addr) = self.plain_at() {
            self.pass_from(addr, end);
        }
    }
}
