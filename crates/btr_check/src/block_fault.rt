use btr_findings::{Finding, Kind};
use btr_volume::Stop;
use btr_walk::TreeFault;

/// What is wrong with a block of a tree, by its address. It is never that the block could not be read.
#[derive(Clone, Copy, Debug, PartialEq, Eq)]
pub(crate) enum BlockFault {
    Lost(u64),
    Malformed(u64),
    Unmapped(u64),
    Crosses(u64),
}

impl BlockFault {
    ghost use Rattle.std.specs.Prelude.{◌≡◌};
    ghost use Rattle.btr_check.specs.Before.{block_fault, fault_stop};
    ghost use Rattle.btr_check.specs.Walks.{fault_finding};

    /// Why a block is left out, unless it could not be read.
    pub(crate) fn of(fault: TreeFault) -> Option<BlockFault>
        ensures { result ≡ block_fault fault }
    {
        match fault {
            TreeFault::Lost(addr) => Some(BlockFault::Lost(addr)),
            TreeFault::Malformed(addr) => Some(BlockFault::Malformed(addr)),
            TreeFault::Unmapped(addr) => Some(BlockFault::Unmapped(addr)),
            TreeFault::Crosses(addr) => Some(BlockFault::Crosses(addr)),
            TreeFault::Unread(_, _) => None,
        }
    }

    /// The same as the end of a check.
    pub(crate) fn stop(self) -> Stop
        ensures { result ≡ fault_stop self }
    {
        match self {
            BlockFault::Lost(addr) => Stop::Tree(TreeFault::Lost(addr)),
            BlockFault::Malformed(addr) => Stop::Tree(TreeFault::Malformed(addr)),
            BlockFault::Unmapped(addr) => Stop::Tree(TreeFault::Unmapped(addr)),
            BlockFault::Crosses(addr) => Stop::Tree(TreeFault::Crosses(addr)),
        }
    }

    /// The same as a finding.
    pub(crate) fn finding(self) -> Finding
        ensures { result ≡ fault_finding self }
    {
        match self {
            BlockFault::Lost(addr) => Finding::new(Kind::Lost, [addr]),
            BlockFault::Malformed(addr) => Finding::new(Kind::Malformed, [addr]),
            BlockFault::Unmapped(addr) => Finding::new(Kind::Unmapped, [addr]),
            BlockFault::Crosses(addr) => Finding::new(Kind::Crosses, [addr]),
        }
    }
}
