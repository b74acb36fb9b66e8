ghost use Rattle.std.specs.Prelude.{◌≡◌};
ghost use Rattle.btr_read.specs.Trial.{passed_outcome, ended_outcome};

use crate::ReadFault;
use btr_chunk::Part;

/// What came of one candidate.
#[derive(Clone, Copy, Debug, PartialEq, Eq)]
pub(crate) enum Attempt {
    /// It passes, and its bytes stand in the slot.
    Passed,
    /// It stands, and doesn't pass.
    Differs,
    /// It doesn't stand.
    Absent,
    /// The read of this slot failed.
    Failed(usize),
}

/// A part whose read failed.
#[derive(Clone, Copy, Debug, PartialEq, Eq)]
pub(crate) struct Unread {
    /// The part.
    pub(crate) part: Part,
    /// The slot of the rack whose read failed.
    pub(crate) slot: usize,
}

/// How far the candidates by parities were tried.
#[derive(Clone, Copy, Debug, PartialEq, Eq)]
pub(crate) enum Trial {
    /// To the end, or to one that passes.
    Ended(TrialOutcome),
    /// So many of all candidates, in their order, then a read failed.
    Stopped(u32, Unread),
}

/// What came of all candidates.
#[derive(Clone, Copy, Debug, PartialEq, Eq)]
pub(crate) enum TrialOutcome {
    /// One passes, no read failed, and its bytes stand in the slot.
    First,
    /// One passes after a read that failed, and its bytes stand in the slot.
    Later,
    /// None passes, and no read failed.
    Lost,
    /// None that was read passes, and the last read that failed was of this slot.
    Unread(usize),
}

/// Why no candidate of a block was had.
#[derive(Clone, Copy, Debug, PartialEq, Eq)]
pub(crate) enum Missed {
    /// None passes, and no read failed.
    Lost,
    /// None that was read passes, and the last read that failed was of this slot.
    Unread(usize),
}

impl Missed {
    ghost use Rattle.std.specs.Prelude.{◌≡◌};
    ghost use Rattle.btr_read.specs.Finding.{fault_of};

    // Why the block at an address can't be read.
    pub(crate) fn fault(self, addr: u64) -> ReadFault
        ensures { result ≡ fault_of addr self }
    {
        match self {
            Missed::Lost => ReadFault::Lost(addr),
            Missed::Unread(image) => ReadFault::Unread(addr, image),
        }
    }
}

// What it is that one passes, after the reads that failed.
pub(crate) fn passed_after(failed: Option<usize>) -> TrialOutcome
    ensures { result ≡ passed_outcome failed }
{
    match failed {
        None => TrialOutcome::First,
        Some(_) => TrialOutcome::Later,
    }
}

// What it is that none passes, after the reads that failed.
pub(crate) fn ended_after(failed: Option<usize>) -> TrialOutcome
    ensures { result ≡ ended_outcome failed }
{
    match failed {
        None => TrialOutcome::Lost,
        Some(slot) => TrialOutcome::Unread(slot),
    }
}
