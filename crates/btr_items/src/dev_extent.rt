use crate::ItemFault;
use btr_base::u64_at;

/// A range of a device that a chunk has: the body of a DEV_EXTENT, whose key has the device and where on it
/// the range begins.
#[derive(Clone, Copy, Debug, PartialEq, Eq)]
pub struct DevExtent {
    /// The logical address of the chunk.
    pub chunk: u64,
    /// How many bytes of the device the range has.
    pub length: u64,
}

impl DevExtent {
    ghost use Rattle.std.specs.Prelude.{◌≡◌};
    ghost use Rattle.btr_items.specs.DevExtent.{dev_extent_of};

    /// Reads the body of a DEV_EXTENT; `ItemFault` exactly where it hasn't 48 bytes.
    pub fn read(body: &[u8]) -> Result<DevExtent, ItemFault>
        ensures { result ≡ dev_extent_of body.now }
    {
        if body.len() != 48 {
            return Err(ItemFault);
        }
        Ok(DevExtent {
            chunk: u64_at(body, 16),
            length: u64_at(body, 24),
        })
    }
}
