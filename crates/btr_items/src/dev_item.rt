use crate::ItemFault;
use btr_base::{array_at, u64_at};

/// A device of the filesystem: the body of a DEV_ITEM.
#[derive(Clone, Copy, Debug, PartialEq, Eq)]
pub struct DevItem {
    /// The device's number in the filesystem.
    pub devid: u64,
    /// The device's size in bytes.
    pub total: u64,
    /// How many of its bytes chunks have.
    pub used: u64,
    /// The device's own id.
    pub uuid: [u8; 16],
}

impl DevItem {
    ghost use Rattle.std.specs.Prelude.{◌≡◌};
    ghost use Rattle.btr_items.specs.DevItem.{dev_item_of};

    /// Reads the body of a DEV_ITEM; `ItemFault` exactly where it hasn't 98 bytes.
    pub fn read(body: &[u8]) -> Result<DevItem, ItemFault>
        ensures { result ≡ dev_item_of body.now }
    {
        if body.len() != 98 {
            return Err(ItemFault);
        }
        Ok(DevItem {
            devid: u64_at(body, 0),
            total: u64_at(body, 8),
            used: u64_at(body, 16),
            uuid: array_at(body, 66),
        })
    }
}
