ghost use Rattle.std.specs.Prelude.{◌≡◌};
ghost use Rattle.btr_items.specs.RootItem as spec;

use crate::{ItemFault, RootFlags};
use btr_base::{u32_at, u64_at};

/// The root of a tree: the body of a ROOT_ITEM.
#[derive(Clone, Copy, Debug, PartialEq, Eq)]
pub struct RootItem {
    /// The transaction that wrote the tree's root block.
    pub generation: u64,
    /// The inode of the tree's top directory, for a subvolume.
    pub dirid: u64,
    /// The logical address of the tree's root block.
    pub bytenr: u64,
    /// The [`RootFlags`].
    pub flags: u64,
    /// 0 where the tree is about to be deleted, or isn't a subvolume.
    pub refs: u32,
    /// The level of the tree's root block.
    pub level: u64,
}

impl RootItem {
    ghost use Rattle.std.specs.Prelude.{◌≡◌};
    ghost use Rattle.btr_items.specs.RootItem.{root_item_of};

    /// Reads the body of a ROOT_ITEM, in its present form or the old one; `ItemFault` exactly where it has neither 439 bytes nor 239.
    pub fn read(body: &[u8]) -> Result<RootItem, ItemFault>
        ensures { result ≡ root_item_of body.now }
    {
        if !is_root_size(body.len()) {
            return Err(ItemFault);
        }
        Ok(RootItem {
            generation: u64_at(body, 160),
            dirid: u64_at(body, 168),
            bytenr: u64_at(body, 176),
            flags: u64_at(body, 208),
            refs: u32_at(body, 216),
            level: u64::from(body[238]),
        })
    }

    /// The tree's flags.
    pub fn flags(&self) -> RootFlags
        ensures { result.0 ≡ self.now.flags }
    {
        RootFlags(self.flags)
    }
}

// The present form has 439 bytes, the old one 239.
fn is_root_size(size: usize) -> bool
    ensures { result ≡ spec.is_root_size size }
{
    size == 439 || size == 239
}
