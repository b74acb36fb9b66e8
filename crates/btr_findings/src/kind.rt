ghost use Rattle.std.proofs.Common.{rules};
ghost use Rattle.std.specs.Cmp.{partial_order_from_own_ties};
ghost use Rattle.std.specs.Cmp.Rules.{comparing};
ghost use Rattle.std.specs.Ordering.{as_partial_cmp, eq_by_cmp, nat_cmp, on};
ghost use Rattle.btr_findings.specs.Findings.{number_of};

use std::cmp::Ordering;

/// What is wrong, by the word that its lines begin with. Kinds are ordered by their numbers, as lines are.
#[derive(Clone, Copy, Debug)]
pub enum Kind {
    /// No copy of a tree block is left.
    Lost = 1,
    /// A tree block breaks a rule of tree blocks, or an item in it has not its form, or begins, as an extent of a file, before the end of the one
    /// before it.
    Malformed,
    /// No chunk holds a tree block.
    Unmapped,
    /// A tree block passes the end of its chunk, or of a stripe's element.
    Crosses,
    /// An extent doesn't lie in one block group.
    OutsideGroup,
    /// An extent begins before the end of the one before it.
    Overlap,
    /// A reference to an extent is made another number of times than it is stored.
    RefCount,
    /// An extent states another number of references than are stored, or there is no extent where some are.
    RefTotal,
    /// A tree refers to a data extent, or a file to a tree block.
    ExtentKind,
    /// What refers to an extent has it of another length.
    ExtentLength,
    /// What refers to a tree block has it at another level.
    ExtentLevel,
    /// A sector that a file uses has no checksum.
    SumMissing,
    /// A sector has more than one checksum.
    SumOverlap,
    /// A sector has a checksum, and lies in no data extent.
    SumStray,
    /// A DIR_INDEX has no DIR_ITEM entry that is equal.
    EntryItem,
    /// A DIR_ITEM entry's name has another hash, or no DIR_INDEX is equal to it.
    EntryIndex,
    /// The inode of an entry has no reference with its parent, index and name.
    EntryRef,
    /// A reference has no entry.
    RefEntry,
    /// The inode of an entry isn't there, or its mode is of another type.
    EntryMode,
    /// An inode has another number of references than it states links.
    LinkCount,
    /// A directory's size isn't twice the length of its names.
    DirSize,
    /// An inode has no links and no ORPHAN_ITEM.
    Orphan,
    /// A ROOT_REF or ROOT_BACKREF of a subvolume has no equal, or the parent has not the entry.
    RootRef,
    /// A chunk has no block group with its length and type.
    ChunkGroup,
    /// A block group has no chunk at its start with its length.
    GroupChunk,
    /// A stripe has no device extent.
    ChunkDevice,
    /// A device extent has no stripe.
    DeviceChunk,
    /// A block group states another number of used bytes than the extents in it have.
    GroupUsed,
    /// A device states another number of used bytes than its device extents have.
    DeviceUsed,
    /// The superblock states another number of used bytes than the block groups.
    TotalUsed,
    /// No copy of a sector that has a checksum is left.
    DataLost,
}

impl Kind {
    ghost use Rattle.std.specs.Prelude.{◌≡◌};
    ghost use Rattle.btr_findings.specs.Findings.{number_of};

    // Its number, from 1 to 31.
    fn number(self) -> u8
        ensures { result ≡ number_of self }
    {
        self as u8
    }
}

impl PartialEq for Kind {
    ghost eq = { eq_by_cmp (on number_of nat_cmp) };

    ghost laws = { Prim.search (comparing, rules) };

    fn eq(&self, other: &Kind) -> bool {
        self.number() == other.number()
    }
}

impl Eq for Kind {
    ghost laws = { Prim.search (comparing, rules) };
}

impl PartialOrd for Kind {
    ghost partial_cmp = { as_partial_cmp (on number_of nat_cmp) };

    ghost laws = { partial_order_from_own_ties (Prim.search (comparing, rules)) (Prim.search (comparing, rules)) };

    fn partial_cmp(&self, other: &Kind) -> Option<Ordering> {
        Some(self.cmp(other))
    }
}

impl Ord for Kind {
    ghost cmp = { on number_of nat_cmp };

    ghost total = { Prim.search (comparing, rules) };

    ghost matches_partial_cmp = { Prim.search (comparing, rules) };

    ghost matches_eq = { Prim.search (comparing, rules) };

    fn cmp(&self, other: &Kind) -> Ordering {
        self.number().cmp(&other.number())
    }
}
