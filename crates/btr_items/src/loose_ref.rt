use crate::reference::{count_at, data_size, link_at};
use crate::{ItemFault, Link, key_fits};
use btr_base::Key;

/// A reference to an extent in an item of its own: a TREE_BLOCK_REF, SHARED_BLOCK_REF, EXTENT_DATA_REF or
/// SHARED_DATA_REF.
#[derive(Clone, Copy, Debug, PartialEq, Eq)]
pub struct LooseRef {
    /// What refers to the extent.
    pub link: Link,
    /// How often it does; 1 for a tree block.
    pub count: u32,
}

impl LooseRef {
    ghost use Rattle.std.specs.Prelude.{◌≡◌};
    ghost use Rattle.btr_items.specs.LooseRef.{loose_ref_of};

    /// Reads a reference in an item of its own, with this key; `ItemFault` exactly where the key is of another type or breaks
    /// its rules, or the body hasn't just the bytes of that type.
    pub fn read(key: Key, body: &[u8]) -> Result<LooseRef, ItemFault>
        ensures { result ≡ loose_ref_of key body.now }
    {
        let Some(size) = data_size(key.kind) else {
            return Err(ItemFault);
        };
        if !key_fits(key) || body.len() != size {
            return Err(ItemFault);
        }
        Ok(LooseRef {
            link: link_at(key.kind, key.offset, body, 0),
            count: count_at(key.kind, body, 0),
        })
    }
}
