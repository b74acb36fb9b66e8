// What items say of space.
ghost use Rattle.std.specs.Prelude.{◌≡◌};
ghost use Rattle.btr_check_space.specs.Items as words;
ghost use Rattle.btr_walk.specs.Showing.{item_of};

use crate::{DeviceExtent, Group, StatedDevice};
use btr_items::{BlockGroup, DevExtent, DevItem, item};
use btr_walk::Found;

// The block group that an item describes, if it does.
pub(crate) fn group_in(found: &Found<'_>) -> Option<Group>
    ensures { result ≡ words.group_in (item_of found.now) }
{
    if found.key.kind != item::BLOCK_GROUP_ITEM {
        return None;
    }
    match BlockGroup::read(found.body) {
        Ok(fields) => Some(Group {
            start: found.key.objectid,
            len: found.key.offset,
            used: fields.used,
            flags: fields.flags,
        }),
        Err(_) => None,
    }
}

// The device extent that an item describes, if it does.
pub(crate) fn device_extent_in(found: &Found<'_>) -> Option<DeviceExtent>
    ensures { result ≡ words.device_extent_in (item_of found.now) }
{
    if found.key.kind != item::DEV_EXTENT {
        return None;
    }
    match DevExtent::read(found.body) {
        Ok(fields) => Some(DeviceExtent {
            devid: found.key.objectid,
            offset: found.key.offset,
            chunk: fields.chunk,
            len: fields.length,
        }),
        Err(_) => None,
    }
}

// The device that an item describes, if it does.
pub(crate) fn device_in(found: &Found<'_>) -> Option<StatedDevice>
    ensures { result ≡ words.device_in (item_of found.now) }
{
    if found.key.kind != item::DEV_ITEM {
        return None;
    }
    match DevItem::read(found.body) {
        Ok(fields) => Some(StatedDevice {
            devid: found.key.offset,
            used: fields.used,
        }),
        Err(_) => None,
    }
}
