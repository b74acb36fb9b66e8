ghost use Rattle.std.specs.Prelude.{◌≡◌};
ghost use Rattle.btr_volume.specs.Table.{refusal_of};

use crate::which::Which;
use btr_walk::TreeFault;

// A table has at most 65536 chunks.
const TOO_MANY: u64 = 65537;

/// Why a chunk of the chunk tree isn't added to the table.
#[derive(Clone, Copy, Debug, PartialEq, Eq)]
pub enum TableFault {
    /// Its item has this number of stripes, more than 64.
    Stripes(u16),
    /// The chunk that starts at this address breaks a rule, or overlaps another one.
    BadChunk(u64),
    /// The table has 65536 chunks.
    Chunks,
}

/// Why the open images are no volume that can be read: the first reason of these.
#[derive(Clone, Copy, Debug, PartialEq, Eq)]
pub enum OpenFault {
    /// A read of the image in this slot failed.
    ImageFault(usize),
    /// The image in this slot has no valid superblock.
    NoSuper(usize),
    /// The checksum type of a superblock copy, which isn't supported, where none is valid.
    SumKind(u16),
    /// The image in this slot belongs to another filesystem.
    Foreign(usize),
    /// The image in this slot repeats a device.
    Twin(usize),
    /// The image in this slot holds something else of the newest generation than another: each was written without the other.
    Diverged(usize),
    /// These incompatible features aren't supported.
    Unsupported(u64),
    /// The sizes of sectors or nodes, or a level, aren't supported.
    Geometry,
    /// A log tree waits to be replayed.
    LogPending,
    /// The superblock's system array is damaged.
    BadArray,
    /// The chunk that starts at this address breaks a rule, or overlaps another one.
    BadChunk(u64),
    /// There is more of something than is read, and this much.
    Limit(Which, u64),
    /// The chunk tree can't be read.
    Tree(TreeFault),
    /// There is no memory.
    Memory,
}

impl From<TableFault> for OpenFault {
    ghost from_gives = { λ fault refusal. refusal ≡ refusal_of fault };

    fn from(fault: TableFault) -> OpenFault {
        match fault {
            TableFault::Stripes(n) => OpenFault::Limit(Which::Stripes, u64::from(n)),
            TableFault::BadChunk(start) => OpenFault::BadChunk(start),
            TableFault::Chunks => OpenFault::Limit(Which::Chunks, TOO_MANY),
        }
    }
}
