ghost use Rattle.std.specs.Prelude.{◌≡◌};
ghost use Rattle.btr_read.specs.Want.{addr_of};

use btr_base::Sum;

/// Which block is sought, and how a reading of it is tested. Addresses are logical, in bytes.
#[derive(Clone, Copy, Debug, PartialEq, Eq)]
pub enum Want {
    /// The tree block at an address, of this generation and level. It is as long as a node.
    Tree {
        addr: u64,
        generation: u64,
        level: u8,
    },
    /// The tree block at an address, of any generation and level. It is as long as a node.
    Block {
        addr: u64,
    },
    /// The 4096 bytes of data at an address, which have this checksum, of the store's kind; its unused bytes are zero.
    Sector {
        addr: u64,
        sum: Sum,
    },
    /// The 4096 bytes of data at an address, which aren't tested.
    Plain {
        addr: u64,
    },
}

impl Want {
    /// The logical address of the first byte.
    pub fn addr(&self) -> u64
        ensures { result ≡ addr_of self.now }
    {
        match self {
            Want::Tree { addr, .. } => *addr,
            Want::Block { addr } => *addr,
            Want::Sector { addr, .. } => *addr,
            Want::Plain { addr } => *addr,
        }
    }
}
