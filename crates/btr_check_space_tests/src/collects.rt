// What a visit collects.
use btr_base::{Key, Memory};
use btr_check_space::{DeviceExtent, DeviceExtents, Devices, Group, Groups, StatedDevice};
use btr_items::item;
use btr_make_blocks::Body;
use btr_tour::{Met, Visitor};
use btr_walk::{Found, TreeFault};
use std::alloc::Global;
use std::test::Fail;

fn meet_all<V: Visitor<Memory>>(visitor: &mut V, kind: u8, body: &[u8]) -> Result<(), Memory> {
    for kind in [kind, item::ROOT_ITEM] {
        let key = Key {
            objectid: 7,
            kind,
            offset: 8,
        };
        let found = Found {
            key,
            block: 4096,
            body,
        };
        visitor.meet(&Met::Item(found))?;
    }
    visitor.meet(&Met::Fault(TreeFault::Malformed(4096)))
}

fn met_groups(alloc: Global) -> Result<Groups, Fail> {
    let mut groups = Groups::new(alloc);
    let body = Body::new(alloc).zeros(16)?.u64(9)?;
    meet_all(&mut groups, item::BLOCK_GROUP_ITEM, body.as_slice())?;
    Ok(groups)
}

fn met_extents(alloc: Global) -> Result<DeviceExtents, Fail> {
    let mut extents = DeviceExtents::new(alloc);
    let body = Body::new(alloc).zeros(24)?.u64(9)?.zeros(16)?;
    meet_all(&mut extents, item::DEV_EXTENT, body.as_slice())?;
    Ok(extents)
}

fn met_devices(alloc: Global) -> Result<Devices, Fail> {
    let mut devices = Devices::new(alloc);
    let body = Body::new(alloc).zeros(16)?.u64(9)?.zeros(74)?;
    meet_all(&mut devices, item::DEV_ITEM, body.as_slice())?;
    Ok(devices)
}

#[test]
fn items_of_their_types_alone(rt: HostRuntime) -> Result<(), Fail> {
    let alloc = rt.alloc();
    let groups = met_groups(alloc)?;
    let group = Group {
        start: 7,
        len: 8,
        used: 0,
        flags: 9,
    };
    assert_eq!(rt; groups.as_slice(), [group].as_slice());
    let extents = met_extents(alloc)?;
    let extent = DeviceExtent {
        devid: 7,
        offset: 8,
        chunk: 0,
        len: 9,
    };
    assert_eq!(rt; extents.as_slice(), [extent].as_slice());
    let devices = met_devices(alloc)?;
    let device = StatedDevice { devid: 8, used: 9 };
    assert_eq!(rt; devices.as_slice(), [device].as_slice());
    Ok(())
}
