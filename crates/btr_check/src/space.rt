// What is wrong with block groups and devices.
ghost use Rattle.std.specs.Prelude.{OnOk};
ghost use Rattle.btr_check_space.specs.Groups.{group_findings};
ghost use Rattle.btr_findings.specs.Findings.{Adds};
ghost use Rattle.btr_check.specs.Families.{found_on_devices};
ghost use Rattle.btr_check.specs.Passes.{Lists, AddsFindings};
ghost use Rattle.btr_check.specs.Running.{world, CanCheck, Ran};
ghost use Rattle.btr_check.specs.Wanted.{IfKnown, OfAllTrees};

use crate::collecting::{collect, or_memory};
use crate::refusing::{DEVICE_TREE, last_of};
use crate::trees::CHUNK_TREE;
use btr_base::Memory;
use btr_check_space::{
    DeviceExtents, Devices, Groups, collects_law, put_device_findings, put_group_findings,
};
use btr_findings::{Extent, Finding, Found};
use btr_rack::Rack;
use btr_volume::{Stop, TreeRoot, Volume, chunk_root, named_root};
use std::alloc::Global;

/// Puts what is wrong with extents, block groups and chunks. `Memory`: there is no memory for this; then nothing is said of the set.
pub(crate) fn put_groups(
    alloc: Global,
    found: &mut Found,
    extents: &[Extent],
    groups: &Groups,
    vol: &Volume,
) -> Result<(), Memory>
    ensures { OnOk result (Adds (group_findings vol.now.store.layout.chunks extents.now groups.now vol.now.sup.bytes_used) found.old found.new) }
{
    let chunks = vol.store.chunks();
    let groups = groups.as_slice();
    put_group_findings(alloc, found, chunks, extents, groups, vol.sup.bytes_used)
}

/// Puts what is wrong with chunks, device extents and devices. It visits the device tree and the chunk tree.
///
/// `Tree`: a block could not be read, which is `Unread`. `Memory`: there is no memory for what is kept.
pub(crate) fn put_devices<R: Rack>(
    alloc: Global,
    found: &mut Found,
    listed: &[TreeRoot],
    rack: &mut R,
    vol: &mut Volume,
) -> Result<(), Stop>
    requires ready { CanCheck (world (R.seen rack.old) vol.old) }
    ensures ran { Ran (IfKnown (Lists listed.now) OfAllTrees)
        (AddsFindings (Lists listed.now) found_on_devices found.old found.new result)
        (world (R.seen rack.old) vol.old) (world (R.seen rack.new) vol.new) result }
{
    collects_law();
    let device_tree = last_of(listed, DEVICE_TREE);
    let extents = collect(device_tree, DeviceExtents::new(alloc), rack, vol)?;
    let chunk_tree = named_root(CHUNK_TREE, chunk_root(&vol.sup));
    let devices = collect(Some(chunk_tree), Devices::new(alloc), rack, vol)?;
    or_memory(put_device_findings(
        alloc,
        found,
        vol.store.chunks(),
        extents.as_slice(),
        devices.as_slice(),
    ))
}
