// Several runs of sectors, each read ahead by itself.
ghost use Rattle.std.specs.Prelude.{◌≡◌, ℕ, List, Option, All, length, IsTrue};
ghost use Rattle.btr_rack.specs.Rack.{AreBytesOf, OnlyReads};
ghost use Rattle.btr_ahead.specs.Ahead.{IsInSlot};
ghost use Rattle.btr_ahead.specs.Reader.{HasRead, HaveRead, MayFailAhead};

use crate::kept_run::KeptRun;
use btr_rack::{Place, Rack};
use std::alloc::Global;
use std::mem::swap;

/// Four runs of sectors, one for each copy that a profile has at most.
#[derive(Drop)]
pub(crate) struct Runs {
    /// The one in use.
    pub(crate) current: KeptRun,
    /// The others, from the one that was in use last to the one that was unused longest.
    pub(crate) others: [KeptRun; 3],
}

// Takes the run that has the sector of a place, else the one that was unused longest.
fn turn_to(current: &mut KeptRun, others: &mut [KeptRun], place: Place)
    ensures { (held : Option (List (List ℕ))) → HaveRead held current.old others.old → HaveRead held current.new others.new }
{
    for i in 0..others.len() {
        if current.has(place) {
            return;
        }
        swap(current, &mut others[i]);
    }
}

// Keeps nothing any more in any of these.
fn clear_all(runs: &mut [KeptRun])
    ensures { (held : Option (List (List ℕ))) → All (HasRead held) runs.new }
{
    for i in 0..runs.len() {
        runs[i].clear();
    }
}

impl Runs {
    /// Runs of no sector yet.
    pub(crate) fn new() -> Runs
        ensures { (held : Option (List (List ℕ))) → HaveRead held result.current result.others }
    {
        Runs {
            current: KeptRun::new(),
            others: [KeptRun::new(), KeptRun::new(), KeptRun::new()],
        }
    }

    /// Fills `buf` with the sector of a place, if a run keeps it, or it is the next one of a run and comes with those behind it, at most `most` in all.
    pub(crate) fn fill<R: Rack>(
        &mut self,
        place: Place,
        most: u64,
        alloc: Global,
        rack: &mut R,
        buf: &mut [u8],
    ) -> bool
        requires slot { IsInSlot (R.seen rack.old).slots place }
        requires size { length buf.old ≡ 4096 }
        requires ahead { HaveRead (R.seen rack.old).held self.old.current self.old.others }
        ensures reads { OnlyReads (R.seen rack.old) (R.seen rack.new) }
        ensures ahead { HaveRead (R.seen rack.new).held self.new.current self.new.others }
        ensures below { MayFailAhead place (R.seen rack.old).account (R.seen rack.new).account }
        ensures bytes { IsTrue result → AreBytesOf (R.seen rack.old).held place.slot place.off 4096 buf.new }
    {
        turn_to(&mut self.current, &mut self.others, place);
        self.current.fill(place, most, alloc, rack, buf)
    }

    /// Nothing is kept any more.
    pub(crate) fn clear(&mut self)
        ensures { (held : Option (List (List ℕ))) → HaveRead held self.new.current self.new.others }
    {
        self.current.clear();
        clear_all(&mut self.others);
    }
}
