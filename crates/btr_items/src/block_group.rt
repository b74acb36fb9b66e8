use crate::ItemFault;
use btr_base::u64_at;

/// A block group: the body of a BLOCK_GROUP_ITEM, whose key has its logical address and its length.
#[derive(Clone, Copy, Debug, PartialEq, Eq)]
pub struct BlockGroup {
    /// How many of its bytes lie in extents.
    pub used: u64,
    /// The objectid of the chunks: 256.
    pub owner: u64,
    /// Its type and profile, as its chunk has them.
    pub flags: u64,
}

impl BlockGroup {
    ghost use Rattle.std.specs.Prelude.{◌≡◌};
    ghost use Rattle.btr_items.specs.BlockGroup.{block_group_of};

    /// Reads the body of a BLOCK_GROUP_ITEM; `ItemFault` exactly where it hasn't 24 bytes.
    pub fn read(body: &[u8]) -> Result<BlockGroup, ItemFault>
        ensures { result ≡ block_group_of body.now }
    {
        if body.len() != 24 {
            return Err(ItemFault);
        }
        Ok(BlockGroup {
            used: u64_at(body, 0),
            owner: u64_at(body, 8),
            flags: u64_at(body, 16),
        })
    }
}
