// How a run ended, and its exit status.
ghost use Rattle.std.specs.Prelude.{◌≡◌};
ghost use Rattle.btr_run.specs.Answers.{code_of};

use btr_rack::SinkError;
use btr_volume::{OpenFault, Stop, Which};
use btr_walk::TreeFault;

/// How a run ended. Addresses are logical, in bytes.
#[derive(Clone, Copy, Debug, PartialEq, Eq)]
pub enum Answer {
    /// The command was done. `skipped` counts entries that were left out and named.
    Done { skipped: u64 },
    /// So many things are wrong with the filesystem; more than 0.
    Found(u64),
    /// No copy of the block at this address passes, and no read failed.
    Lost(u64),
    /// The block at this address breaks a rule of the format.
    Malformed(u64),
    /// No chunk holds this address.
    Unmapped(u64),
    /// The block at this address passes the end of its chunk or of a stripe element.
    Crosses(u64),
    /// The number, from 0, of the first word that no sentence has at its place, or the number of words
    /// where more are missing.
    Usage(usize),
    /// The image in this slot has no valid superblock.
    NoSuper(usize),
    /// The checksum type of the first superblock copy whose type isn't supported, where none is valid.
    SumKind(u16),
    /// The image in this slot belongs to another filesystem than the one with the newest superblock.
    Foreign(usize),
    /// The image in this slot repeats the device of an earlier one.
    Twin(usize),
    /// The image in this slot and the newest one were each written without the other.
    Diverged(usize),
    /// These incompatible features aren't supported.
    Unsupported(u64),
    /// The sizes of sectors or nodes, or a level, aren't supported.
    Geometry,
    /// A log tree waits to be replayed.
    LogPending,
    /// The superblock's system array is damaged.
    BadArray,
    /// The chunk that starts at this address breaks a rule, or overlaps another one.
    BadChunk(u64),
    /// There is more of something than is read, and this much.
    Limit(Which, u64),
    /// There is no tree of this id.
    NoTree(u64),
    /// The deletion of the tree of this id has begun.
    DeletionPending(u64),
    /// A balance has begun.
    BalancePending,
    /// The device of this id isn't given, or its image is too short.
    MissingDevice(u64),
    /// No copy of the block at this address that could be read passes; the last read that failed was of this slot.
    Unread(u64, usize),
    /// The image in this slot couldn't be opened, or a call on it failed.
    ImageFault(usize),
    /// The destination failed.
    SinkFault,
    /// The output failed.
    OutFault,
    /// Memory was wanted.
    Memory,
}

impl Answer {
    /// The exit status: 0 where all was done, 1 where something was left out or found or a block is damaged, 2 for words that are
    /// no sentence, 3 for images that can't be read here, 4 where the outside failed, 5 for want of memory.
    pub fn code(&self) -> u8
        ensures { result ≡ code_of self.now }
    {
        match self {
            Answer::Done { skipped } => { if *skipped == 0 { 0 } else { 1 } }
            Answer::Found(_) => 1,
            Answer::Lost(_) => 1,
            Answer::Malformed(_) => 1,
            Answer::Unmapped(_) => 1,
            Answer::Crosses(_) => 1,
            Answer::Usage(_) => 2,
            Answer::NoSuper(_) => 3,
            Answer::SumKind(_) => 3,
            Answer::Foreign(_) => 3,
            Answer::Twin(_) => 3,
            Answer::Diverged(_) => 3,
            Answer::Unsupported(_) => 3,
            Answer::Geometry => 3,
            Answer::LogPending => 3,
            Answer::BadArray => 3,
            Answer::BadChunk(_) => 3,
            Answer::Limit(_, _) => 3,
            Answer::NoTree(_) => 3,
            Answer::DeletionPending(_) => 3,
            Answer::BalancePending => 3,
            Answer::MissingDevice(_) => 3,
            Answer::Unread(_, _) => 4,
            Answer::ImageFault(_) => 4,
            Answer::SinkFault => 4,
            Answer::OutFault => 4,
            Answer::Memory => 5,
        }
    }
}

/// The answer where the output refused a text.
impl From<SinkError> for Answer {
    ghost use Rattle.std.specs.Prelude.{◌≡◌};
    ghost use Rattle.btr_run.specs.Answers.{output_answer};

    ghost from_gives = { λ fault answer. answer ≡ output_answer fault };

    fn from(fault: SinkError) -> Answer {
        match fault {
            SinkError::Failed => Answer::OutFault,
            SinkError::Memory => Answer::Memory,
        }
    }
}

/// The answer where a tree can't be read on.
impl From<TreeFault> for Answer {
    ghost use Rattle.std.specs.Prelude.{◌≡◌};
    ghost use Rattle.btr_run.specs.Faults.{tree_answer};

    ghost from_gives = { λ fault answer. answer ≡ tree_answer fault };

    fn from(fault: TreeFault) -> Answer {
        match fault {
            TreeFault::Lost(addr) => Answer::Lost(addr),
            TreeFault::Unread(addr, slot) => Answer::Unread(addr, slot),
            TreeFault::Unmapped(addr) => Answer::Unmapped(addr),
            TreeFault::Crosses(addr) => Answer::Crosses(addr),
            TreeFault::Malformed(addr) => Answer::Malformed(addr),
        }
    }
}

/// The answer where the images are no filesystem that can be read.
impl From<OpenFault> for Answer {
    ghost use Rattle.std.specs.Prelude.{◌≡◌};
    ghost use Rattle.btr_run.specs.Faults.{open_answer};

    ghost from_gives = { λ fault answer. answer ≡ open_answer fault };

    fn from(fault: OpenFault) -> Answer {
        match fault {
            OpenFault::ImageFault(slot) => Answer::ImageFault(slot),
            OpenFault::NoSuper(slot) => Answer::NoSuper(slot),
            OpenFault::SumKind(kind) => Answer::SumKind(kind),
            OpenFault::Foreign(slot) => Answer::Foreign(slot),
            OpenFault::Twin(slot) => Answer::Twin(slot),
            OpenFault::Diverged(slot) => Answer::Diverged(slot),
            OpenFault::Unsupported(bits) => Answer::Unsupported(bits),
            OpenFault::Geometry => Answer::Geometry,
            OpenFault::LogPending => Answer::LogPending,
            OpenFault::BadArray => Answer::BadArray,
            OpenFault::BadChunk(start) => Answer::BadChunk(start),
            OpenFault::Limit(which, count) => Answer::Limit(which, count),
            OpenFault::Tree(fault) => Answer::from(fault),
            OpenFault::Memory => Answer::Memory,
        }
    }
}

/// The answer where a command over an opened filesystem ended before its end.
impl From<Stop> for Answer {
    ghost use Rattle.std.specs.Prelude.{◌≡◌};
    ghost use Rattle.btr_run.specs.Faults.{stop_answer};

    ghost from_gives = { λ stop answer. answer ≡ stop_answer stop };

    fn from(stop: Stop) -> Answer {
        match stop {
            Stop::NoTree(id) => Answer::NoTree(id),
            Stop::Tree(fault) => Answer::from(fault),
            Stop::Deletion(id) => Answer::DeletionPending(id),
            Stop::Balance => Answer::BalancePending,
            Stop::Missing(devid) => Answer::MissingDevice(devid),
            Stop::Image(slot) => Answer::ImageFault(slot),
            Stop::Sink => Answer::SinkFault,
            Stop::Out => Answer::OutFault,
            Stop::Memory => Answer::Memory,
        }
    }
}
