// Stores, and what is fetched from them.
ghost use Rattle.std.specs.Prelude.{◌≡◌, ◌==◌, ◌≤◌, IsTrue};
ghost use Rattle.std.specs.List.{list_any};
ghost use Rattle.btr_rack.specs.Memory.{seen_of, slots_of};
ghost use Rattle.btr_read.specs.Layout.{AreOpen, HaveOwnSlots};
ghost use Rattle.btr_read.specs.Serves.{Serves};
ghost use Rattle.btr_read.specs.Store.{IsLiveIn, SameLoans, free_count};

use crate::shape::{Shape, contains, set_of};
use crate::volume::{devid_of, table};
use btr_base::SumKind;
use btr_rack::{MemRack, Rack};
use btr_read::{Device, Loan, Member, ReadFault, Store, Want, fetch};
use std::alloc::Global;
use std::process::Abort;
use std::test::Fail;

pub(crate) const HEADER_ID: [u8; 16] = *b"the header's id.";

pub(crate) const NODE: u32 = 16384;

/// A store, and the devices that it was given.
#[derive(Drop)]
pub(crate) struct Given {
    pub(crate) store: Store,
    pub(crate) devices: Vec<Member>,
    ghost same: { store.layout.devices ≡ devices.items },
}

/// A store of the chunk of a shape, without devices, whose checksums are of a kind.
pub(crate) fn empty_store(alloc: Global, shape: &Shape, kind: SumKind) -> Result<Given, Fail> {
    let table = table(alloc, shape)?;
    let store = Store::new(alloc, kind, HEADER_ID, NODE, table)?;
    Ok(Given {
        store,
        devices: Vec::new(alloc),
    })
}

/// Gives a store the device that is open in a slot, whose image is older or not.
pub(crate) fn with_device(
    rt: &impl Abort,
    given: Given,
    rack: &MemRack,
    devid: u64,
    slot: usize,
    older: bool,
) -> Result<Given, Fail> {
    let Given {
        mut store,
        mut devices,
    } = given;
    assert!(rt; slot < rack.count() && store.device(devid).is_none());
    let len = rack.len(slot);
    store.add_device(devid, slot, len, older)?;
    devices.push(Member {
        devid,
        device: Device { slot, len, older },
    })?;
    Ok(Given { store, devices })
}

/// A store of the devices of a shape, whose images are open, but for a set of them.
pub(crate) fn store_without(
    rt: &impl Abort,
    alloc: Global,
    rack: &MemRack,
    shape: &Shape,
    missing: u32,
) -> Result<Given, Fail> {
    store_behind(rt, alloc, rack, shape, missing, 0)
}

/// The same, where the images of a set of devices are older.
pub(crate) fn store_behind(
    rt: &impl Abort,
    alloc: Global,
    rack: &MemRack,
    shape: &Shape,
    missing: u32,
    older: u32,
) -> Result<Given, Fail> {
    let mut given = empty_store(alloc, shape, SumKind::Crc32c)?;
    for behind in 0..shape.devices {
        let device = shape.devices - 1 - behind;
        if !contains(missing, device) {
            let is_older = contains(older, device);
            given = with_device(rt, given, rack, devid_of(device), behind as usize, is_older)?;
        }
    }
    Ok(given)
}

/// The stripes that lie on the device in a slot.
pub(crate) fn stripes_in(shape: &Shape, slot: usize) -> u32 {
    let device = shape.devices.wrapping_sub(1).wrapping_sub(slot as u64);
    shape.stripes_on(set_of(device))
}

fn are_open(rack: &MemRack, members: &[Member]) -> bool
    ensures { IsTrue result → AreOpen (slots_of rack.now) members.now }
{
    for member in members {
        let device = member.device;
        if device.slot >= rack.count() || rack.len(device.slot) != device.len {
            return false;
        }
    }
    true
}

fn has_slot(members: &[Member], slot: usize) -> bool
    ensures { result ≡ list_any (λ member. member.device.slot == slot) members.now }
{
    members.iter().any(|member| member.device.slot == slot)
}

fn have_own_slots(members: &[Member]) -> bool
    ensures { IsTrue result → HaveOwnSlots members.now }
{
    let Some((first, others)) = members.split_first() else {
        return true;
    };
    !has_slot(others, first.device.slot) && have_own_slots(others)
}

// Forgets what the store keeps, where each device is open in a slot of its own and a fetch has room.
fn is_ready(rack: &MemRack, given: &mut Given) -> bool
    ensures serves { IsTrue result → Serves (seen_of rack.now) given.new.store }
    ensures room { IsTrue result → 4 ≤ free_count given.new.store }
    ensures same { SameLoans given.old.store given.new.store }
{
    let devices = given.devices.as_slice();
    if !are_open(rack, devices) || !have_own_slots(devices) {
        return false;
    }
    given.store.forget_kept();
    given.store.free() >= 4
}

/// Makes a store forget what it keeps, where a fetch may follow.
pub(crate) fn ready(rt: &impl Abort, rack: &MemRack, given: &mut Given)
    ensures serves { Serves (seen_of rack.now) given.new.store }
    ensures room { 4 ≤ free_count given.new.store }
    ensures same { SameLoans given.old.store given.new.store }
{
    assert!(rt; is_ready(rack, given));
}

/// Whether a loan has these bytes. It is given back.
pub(crate) fn had(given: &mut Given, loan: Loan, bytes: &[u8]) -> bool
    requires { IsLiveIn given.old.store loan }
{
    let same = given.store.bytes(&loan) == bytes;
    given.store.give(loan);
    same
}

/// Asserts that no loan is live.
pub(crate) fn be_idle(rt: &impl Abort, given: &Given) {
    assert!(rt; given.store.free() == 24);
}

// Whether the block that is fetched has these bytes. Its loan is given back.
fn asked(
    rt: &impl Abort,
    want: &Want,
    rack: &mut MemRack,
    given: &mut Given,
    bytes: &[u8],
) -> Result<bool, ReadFault> {
    ready(rt, rack, given);
    match fetch(want, rack, &mut given.store) {
        Ok(loan) => Ok(had(given, loan, bytes)),
        Err(fault) => Err(fault),
    }
}

/// Whether the block that is fetched has these bytes. Its loan is given back, and no other is live.
pub(crate) fn fetches(
    rt: &impl Abort,
    want: &Want,
    rack: &mut MemRack,
    given: &mut Given,
    bytes: &[u8],
) -> Result<bool, ReadFault> {
    be_idle(rt, given);
    let answer = asked(rt, want, rack, given, bytes);
    be_idle(rt, given);
    answer
}
