// Chunks, device extents and devices.
use super::space::{MIB, device_extent, finds, sound};
use btr_findings::Kind;
use std::test::Fail;

#[test]
fn device_extents_are_those_of_stripes(rt: HostRuntime) -> Result<(), Fail> {
    let alloc = rt.alloc();
    let mut shorter = sound(alloc)?;
    if let Some(last) = shorter.device_extents.get_mut(2) {
        last.len = 2 * MIB;
    }
    if let Some(device) = shorter.devices.get_mut(0) {
        device.used = 14 * MIB;
    }
    finds(
        &rt,
        alloc,
        &shorter,
        &[(Kind::ChunkDevice, 16 * MIB, 1, 24 * MIB)],
    )?;
    let mut without_stripe = sound(alloc)?;
    without_stripe
        .device_extents
        .push(device_extent(1, 64 * MIB, MIB, 0))?;
    finds(
        &rt,
        alloc,
        &without_stripe,
        &[(Kind::DeviceChunk, 1, 64 * MIB, 0)],
    )
}

#[test]
fn devices_state_their_device_extents(rt: HostRuntime) -> Result<(), Fail> {
    let alloc = rt.alloc();
    let mut other_used = sound(alloc)?;
    if let Some(device) = other_used.devices.get_mut(0) {
        device.used = 0;
    }
    finds(
        &rt,
        alloc,
        &other_used,
        &[(Kind::DeviceUsed, 1, 0, 16 * MIB)],
    )?;
    let mut without_item = sound(alloc)?;
    without_item
        .device_extents
        .push(device_extent(2, MIB, MIB, u64::MAX))?;
    without_item
        .device_extents
        .push(device_extent(2, 2 * MIB, MIB, MIB))?;
    let wanted = [
        (Kind::DeviceChunk, 2, MIB, 0),
        (Kind::DeviceChunk, 2, 2 * MIB, 0),
        (Kind::DeviceUsed, 2, 0, u64::MAX),
    ];
    finds(&rt, alloc, &without_item, &wanted)
}
