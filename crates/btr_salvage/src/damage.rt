// Blocks that can't be had.
ghost use Rattle.std.specs.Prelude.{◌≡◌};
ghost use Rattle.btr_tour.specs.Steps.{reason};
ghost use Rattle.btr_salvage.specs.Damages.{fault_by, fault_in};
ghost use Rattle.btr_salvage.specs.Lines.{fault_addr, fault_text};

use btr_walk::TreeFault;

/// A block that can't be had: why, and its address.
#[derive(Clone, Copy, Debug, PartialEq, Eq)]
pub(crate) enum Damage {
    Lost(u64),
    Unmapped(u64),
    Crosses(u64),
    Malformed(u64),
}

/// What a fault says of a block; `None` exactly where one could not be read.
pub(crate) fn damage_of(fault: TreeFault) -> Option<Damage>
    ensures { fault_in result ≡ reason fault }
{
    match fault {
        TreeFault::Lost(addr) => Some(Damage::Lost(addr)),
        TreeFault::Unread(_, _) => None,
        TreeFault::Unmapped(addr) => Some(Damage::Unmapped(addr)),
        TreeFault::Crosses(addr) => Some(Damage::Crosses(addr)),
        TreeFault::Malformed(addr) => Some(Damage::Malformed(addr)),
    }
}

impl Damage {
    // The word for it.
    pub(crate) fn text(self) -> &'static [u8]
        ensures { result.now ≡ fault_text (fault_by self) }
    {
        match self {
            Damage::Lost(_) => b"lost",
            Damage::Unmapped(_) => b"unmapped",
            Damage::Crosses(_) => b"crosses",
            Damage::Malformed(_) => b"malformed",
        }
    }

    // The address of the block.
    pub(crate) fn addr(self) -> u64
        ensures { result ≡ fault_addr (fault_by self) }
    {
        match self {
            Damage::Lost(addr) => addr,
            Damage::Unmapped(addr) => addr,
            Damage::Crosses(addr) => addr,
            Damage::Malformed(addr) => addr,
        }
    }
}
