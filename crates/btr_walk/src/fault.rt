use btr_read::ReadFault;

/// Why a tree can't be read on.
#[derive(Clone, Copy, Debug, PartialEq, Eq)]
pub enum TreeFault {
    /// No candidate of the block at this address passes, and no read failed.
    Lost(u64),
    /// Of the block at this address no candidate that could be read passes. The last read that failed was of this slot.
    Unread(u64, usize),
    /// No chunk holds the address.
    Unmapped(u64),
    /// The block at this address passes the end of its chunk or of an element.
    Crosses(u64),
    /// The block at this address breaks a rule of one block, or doesn't fit its place in the tree.
    Malformed(u64),
}

impl From<ReadFault> for TreeFault {
    ghost use Rattle.std.specs.Prelude.{◌≡◌};
    ghost use Rattle.btr_walk.specs.Reading.{tree_fault};

    ghost from_gives = { λ fault result. result ≡ tree_fault fault };

    fn from(fault: ReadFault) -> TreeFault {
        match fault {
            ReadFault::Lost(addr) => TreeFault::Lost(addr),
            ReadFault::Unread(addr, slot) => TreeFault::Unread(addr, slot),
            ReadFault::Unmapped(addr) => TreeFault::Unmapped(addr),
            ReadFault::Crosses(addr) => TreeFault::Crosses(addr),
        }
    }
}
