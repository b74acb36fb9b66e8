use crate::{Finding, Kind};

/// Which rule a sector of data breaks.
#[derive(Clone, Copy, Debug, PartialEq, Eq)]
pub enum SectorRule {
    /// An inode of a tree uses it, and it has no checksum.
    Missing {
        /// The tree.
        tree: u64,
        /// The inode.
        inode: u64,
    },
    /// It has more than one checksum.
    Overlap,
    /// It has a checksum, and lies in no data extent.
    Stray,
    /// It has a checksum, and is lost.
    Lost,
}

impl SectorRule {
    ghost use Rattle.std.specs.Prelude.{◌≡◌};
    ghost use Rattle.btr_findings.specs.Runs.{is_rule};
    ghost use Rattle.btr_findings.specs.Sectors.{sector_finding};

    /// The finding on the sector at an address.
    pub fn finding(self, addr: u64) -> Finding
        ensures { result ≡ sector_finding self addr }
    {
        match self {
            SectorRule::Missing { tree, inode } => Finding::new(
                Kind::SumMissing,
                [tree, inode, addr],
            ),
            SectorRule::Overlap => Finding::new(Kind::SumOverlap, [addr]),
            SectorRule::Stray => Finding::new(Kind::SumStray, [addr]),
            SectorRule::Lost => Finding::new(Kind::DataLost, [addr]),
        }
    }

    /// Whether the two are one rule.
    pub(crate) fn is(self, other: SectorRule) -> bool
        ensures { result ≡ is_rule self other }
    {
        match (self, other) {
            (
                SectorRule::Missing { tree, inode },
                SectorRule::Missing {
                    tree: other_tree,
                    inode: other_inode,
                },
            ) => tree == other_tree && inode == other_inode,
            (SectorRule::Overlap, SectorRule::Overlap)
            | (SectorRule::Stray, SectorRule::Stray)
            | (SectorRule::Lost, SectorRule::Lost) => true,
            _ => false,
        }
    }
}
