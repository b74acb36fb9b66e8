use crate::{InodeFlags, ItemFault};
use btr_base::{u32_at, u64_at};

/// An inode: what an INODE_ITEM says of a file or directory.
#[derive(Clone, Copy, Debug, PartialEq, Eq)]
pub struct Inode {
    /// In bytes; of a directory, twice the sum of the lengths of its names.
    pub size: u64,
    /// How many names it has.
    pub nlink: u32,
    /// The kind of file and its permissions, as `st_mode` has them.
    pub mode: u32,
    /// The [`InodeFlags`].
    pub flags: u64,
}

impl Inode {
    ghost use Rattle.std.specs.Prelude.{◌≡◌};
    ghost use Rattle.btr_items.specs.Inode.{inode_of};

    /// Reads the body of an INODE_ITEM; `ItemFault` exactly where it hasn't 160 bytes.
    pub fn read(body: &[u8]) -> Result<Inode, ItemFault>
        ensures { result ≡ inode_of body.now }
    {
        if body.len() != 160 {
            return Err(ItemFault);
        }
        Ok(Inode {
            size: u64_at(body, 16),
            nlink: u32_at(body, 40),
            mode: u32_at(body, 52),
            flags: u64_at(body, 64),
        })
    }

    /// The inode's flags.
    pub fn flags(&self) -> InodeFlags
        ensures { result.0 ≡ self.now.flags }
    {
        InodeFlags(self.flags)
    }
}
