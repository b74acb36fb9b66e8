// Chunks, device extents and devices that don't agree.
ghost use Rattle.std.specs.Prelude.{◌≡◌, ℕ, ◌+◌, ◌==◌, ◌||◌, cond, OnOk, IfOk, filter_map};
ghost use Rattle.btr_check_space.specs.declared.device_extent.DeviceExtent.{DeviceExtent};
ghost use Rattle.btr_check_space.specs.declared.stated_device.StatedDevice.{StatedDevice};
ghost use Rattle.std.specs.BTreeSet.{contains};
ghost use Rattle.std.specs.Ordering.{nat_cmp};
ghost use Rattle.btr_findings.specs.Findings.{Adds};
ghost use Rattle.btr_check_space.specs.Devices.{chunk_device, device_chunk, device_findings};
ghost use Rattle.btr_check_space.specs.Given.{HasAllocated, Devids, PutsUnstated, PutsUsed, given_in};

use crate::chunks::ranges_of;
use crate::growing::put_key;
use crate::keys::{extent_places, extent_set};
use crate::{DeviceExtent, StatedDevice};
use btr_base::Memory;
use btr_chunk::{ChunkTable, StripePlace};
use btr_findings::{Finding, Found, Kind, put_unless, shown};
use std::alloc::Global;
use std::collections::{BTreeMap, BTreeSet};

// 26: ranges of chunks without a device extent.
fn put_chunk_devices(
    alloc: Global,
    found: &mut Found,
    ranges: &[DeviceExtent],
    extents: &[DeviceExtent],
) -> Result<(), Memory>
    ensures { OnOk result (Adds (filter_map (chunk_device extents.now) ranges.now) found.old found.new) }
{
    let set = extent_set(alloc, extents)?;
    for range in ranges {
        let is_kept = set.contains(range);
        put_unless(
            found,
            is_kept,
            Finding::new(Kind::ChunkDevice, [range.chunk, range.devid, range.offset]),
        )?;
    }
    Ok(())
}

// 27: device extents without a stripe.
fn put_device_chunks(
    alloc: Global,
    found: &mut Found,
    ranges: &[DeviceExtent],
    extents: &[DeviceExtent],
) -> Result<(), Memory>
    ensures { OnOk result (Adds (filter_map (device_chunk ranges.now) extents.now) found.old found.new) }
{
    let places = extent_places(alloc, ranges)?;
    for extent in extents {
        let place = StripePlace {
            devid: extent.devid,
            offset: extent.offset,
        };
        let is_kept = places.contains(&place);
        put_unless(
            found,
            is_kept,
            Finding::new(Kind::DeviceChunk, [extent.devid, extent.offset]),
        )?;
    }
    Ok(())
}

// The bytes that a device has in device extents.
fn given_at(given: &BTreeMap<u64, u128>, devid: u64) -> u128
    ensures { result ≡ given_in given.now devid }
{
    match given.get(&devid) {
        Some(sum) => *sum,
        None => 0,
    }
}

// Adds to the bytes of a device. Where the sum would pass the greatest number there is, that is want of memory too.
fn add_given(given: &mut BTreeMap<u64, u128>, devid: u64, len: u64) -> Result<(), Memory>
    ensures { OnOk result ((one : ℕ) → given_in given.new one ≡ given_in given.old one + cond (devid == one) len 0) }
{
    let Some(sum) = given_at(given, devid).checked_add(u128::from(len)) else {
        return Err(Memory);
    };
    match given.insert(devid, sum) {
        Ok(_) => Ok(()),
        Err(_) => Err(Memory),
    }
}

// The bytes that each device has in device extents.
fn given_of(alloc: Global, extents: &[DeviceExtent]) -> Result<BTreeMap<u64, u128>, Memory>
    ensures { IfOk result (HasAllocated extents.now) }
{
    let mut given = BTreeMap::new(alloc);
    for extent in extents {
        add_given(&mut given, extent.devid, extent.len)?;
    }
    Ok(given)
}

// The ids of devices.
fn devids_of(alloc: Global, devices: &[StatedDevice]) -> Result<BTreeSet<u64>, Memory>
    ensures { IfOk result (Devids devices.now) }
{
    let mut devids = BTreeSet::new(alloc);
    for device in devices {
        put_key(&mut devids, device.devid)?;
    }
    Ok(devids)
}

// 29: devices that state another number of bytes.
fn put_device_used(
    found: &mut Found,
    given: &BTreeMap<u64, u128>,
    devices: &[StatedDevice],
) -> Result<(), Memory>
    ensures { PutsUsed devices.now given.now found.old found.new result }
{
    for device in devices {
        let sum = given_at(given, device.devid);
        let is_kept = u128::from(device.used) == sum;
        put_unless(
            found,
            is_kept,
            Finding::new(Kind::DeviceUsed, [device.devid, device.used, shown(sum)]),
        )?;
    }
    Ok(())
}

// Whether a device has an item, or needs none for this many bytes.
fn is_free(devids: &BTreeSet<u64>, devid: u64, sum: u128) -> bool
    ensures { result ≡ (contains nat_cmp devids.now devid || (sum == 0)) }
{
    devids.contains(&devid) || sum == 0
}

// 29: device extents of a device without an item, which states 0.
fn put_unstated_used(
    found: &mut Found,
    given: &BTreeMap<u64, u128>,
    devids: &BTreeSet<u64>,
    extents: &[DeviceExtent],
) -> Result<(), Memory>
    ensures { PutsUnstated extents.now devids.now given.now found.old found.new result }
{
    for extent in extents {
        let sum = given_at(given, extent.devid);
        let is_kept = is_free(devids, extent.devid, sum);
        put_unless(
            found,
            is_kept,
            Finding::new(Kind::DeviceUsed, [extent.devid, 0, shown(sum)]),
        )?;
    }
    Ok(())
}

/// Puts the findings on chunks, device extents and devices into a set: stripes of chunks and device extents
/// without one another, and devices that state another number of bytes in device extents; one without an item states 0. `Memory`:
/// there is no memory for this.
pub fn put_device_findings(
    alloc: Global,
    found: &mut Found,
    chunks: &ChunkTable,
    extents: &[DeviceExtent],
    devices: &[StatedDevice],
) -> Result<(), Memory>
    ensures { OnOk result (Adds (device_findings chunks.now extents.now devices.now) found.old found.new) }
{
    let ranges = ranges_of(alloc, chunks)?;
    put_chunk_devices(alloc, found, &ranges, extents)?;
    put_device_chunks(alloc, found, &ranges, extents)?;
    let given = given_of(alloc, extents)?;
    put_device_used(found, &given, devices)?;
    let devids = devids_of(alloc, devices)?;
    put_unstated_used(found, &given, &devids, extents)
}
