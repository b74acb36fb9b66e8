// A volume of a rack in memory.
ghost use Rattle.std.specs.Prelude.{◌<◌, ◌≤◌, length, IfOk};
ghost use Rattle.btr_rack.specs.Memory.{seen_of, slots_of};
ghost use Rattle.btr_read.specs.Serves.{Serves};
ghost use Rattle.btr_read.specs.Store.{free_count};
ghost use Rattle.btr_volume.specs.Opening.{IsFresh};

use super::refusals::Edit;
use btr_make::{RowVolume, put_super, row};
use btr_rack::{MemRack, Rack, RackError};
use btr_super::{Super, read_slot};
use btr_volume::{OpenFault, Volume};
use btr_walk::TreeFault;
use std::alloc::Global;
use std::test::Fail;

/// Opens one more image.
pub(super) fn open(rack: &mut MemRack, name: &str) -> Result<(), Fail> {
    rack.open(name, false)?;
    Ok(())
}

/// The images of these names, opened in this order.
pub(super) fn rack_of(alloc: Global, which: RowVolume, names: &[&str]) -> Result<MemRack, Fail> {
    let mut rack = row(alloc, which)?;
    for name in names {
        open(&mut rack, name)?;
    }
    Ok(rack)
}

/// What there is in a volume: how many chunks, how many free slots, and where the roots of the trees 1, 3, 5 and 300 stand.
#[derive(Clone, Copy)]
pub(super) struct Contents {
    pub(super) chunks: usize,
    pub(super) free: usize,
    pub(super) roots: [Result<Option<u64>, TreeFault>; 4],
}

// Where the root of a tree stands.
fn root(volume: &mut Volume, id: u64, rack: &mut MemRack) -> Result<Option<u64>, TreeFault>
    requires serves { Serves (seen_of rack.old) volume.old.store }
    requires room { 4 ≤ free_count volume.old.store }
    ensures serves { Serves (seen_of rack.new) volume.new.store }
    ensures room { 4 ≤ free_count volume.new.store }
{
    match volume.tree(id, rack) {
        Err(fault) => Err(fault),
        Ok(None) => Ok(None),
        Ok(Some(root)) => Ok(Some(root.place.addr)),
    }
}

fn look_into(volume: &mut Volume, rack: &mut MemRack) -> Contents
    requires serves { Serves (seen_of rack.old) volume.old.store }
    requires room { 4 ≤ free_count volume.old.store }
{
    let roots = [
        root(volume, 1, rack),
        root(volume, 3, rack),
        root(volume, 5, rack),
        root(volume, 300, rack),
    ];
    Contents {
        chunks: volume.store.chunks().count(),
        free: volume.store.free(),
        roots,
    }
}

fn opened(alloc: Global, rack: &mut MemRack) -> Result<Volume, OpenFault>
    requires { 0 < length (slots_of rack.old) }
    ensures { IfOk result (IsFresh (seen_of rack.new)) }
{
    Volume::open(alloc, rack)
}

/// Opens the volume of a rack whose images are open.
pub(super) fn summary(alloc: Global, rack: &mut MemRack) -> Result<Contents, OpenFault> {
    if rack.count() == 0 {
        return Err(OpenFault::NoSuper(0));
    }
    match opened(alloc, rack) {
        Ok(mut volume) => Ok(look_into(&mut volume, rack)),
        Err(refusal) => Err(refusal),
    }
}

fn is_older(volume: &Volume, devid: u64) -> bool {
    match volume.store.device(devid) {
        Some(device) => device.older,
        None => false,
    }
}

/// Whether the images of the devices 1 and 2 are older than the chosen superblock.
pub(super) fn older(alloc: Global, rack: &mut MemRack) -> Result<[bool; 2], OpenFault> {
    if rack.count() == 0 {
        return Err(OpenFault::NoSuper(0));
    }
    match opened(alloc, rack) {
        Ok(volume) => Ok([is_older(&volume, 1), is_older(&volume, 2)]),
        Err(refusal) => Err(refusal),
    }
}

/// The refusal of a rack's open images.
pub(super) fn refusal(alloc: Global, rack: &mut MemRack) -> Option<OpenFault> {
    match summary(alloc, rack) {
        Ok(_) => None,
        Err(refusal) => Some(refusal),
    }
}

/// The superblock of the first open image.
pub(super) fn first_super(rack: &mut MemRack) -> Result<Super, Fail> {
    if rack.count() == 0 {
        Err(RackError::Failed)?;
    }
    Ok(read_slot(rack, 0)?)
}

/// Writes a superblock into an image.
pub(super) fn put(rack: &mut MemRack, name: &str, sup: &Super) -> Result<(), Fail> {
    Ok(put_super(rack, name, 65536, sup)?)
}

/// What opening the first small volume comes to, with another superblock in place of the image's own.
pub(super) fn edited(alloc: Global, edit: Edit) -> Result<Option<OpenFault>, Fail> {
    let mut rack = rack_of(alloc, RowVolume::V1, &["a"])?;
    let mut sup = first_super(&mut rack)?;
    edit.apply(&mut sup);
    put(&mut rack, "a", &sup)?;
    Ok(refusal(alloc, &mut rack))
}
