// A full stripe of RAID6 both of whose slices of data are bad, stopped at each call: what is rebuilt is stored before the parities that it was rebuilt by
// are written.
use crate::mending::{differing_page, restores_all, scrub};
use btr_make::{RowVolume, row};
use btr_rack::MemRack;
use btr_test_calls::{CallFault, Told};
use std::alloc::Global;
use std::process::Abort;

const NAMES: &[&str] = &["a", "b", "c", "d"];

// The sector of the first slice, by its offset and by its page; P and Q of its column stand at the same place of the third and the fourth image.
const SECTOR: u64 = 10485760;

const PAGE: u64 = 2560;

// Adds a number to each byte of the sector of an image, bit by bit.
fn add(rack: &mut MemRack, name: &str, number: u8) -> Result<(), CallFault> {
    let mut sum = [number; 4096];
    if let Some(page) = rack.page(name, PAGE) {
        for (to, from) in sum.iter_mut().zip(page) {
            *to ^= *from;
        }
    }
    rack.poke(name, SECTOR, &sum)?;
    Ok(())
}

// A volume in which the sector of the second slice, which has no checksum, was full of ones, and reads as zeros now; the one of the first is bad.
fn without_both(alloc: Global) -> Result<MemRack, CallFault> {
    let mut rack = row(alloc, RowVolume::Raid6)?;
    add(&mut rack, "a", 255)?;
    add(&mut rack, "c", 1)?;
    add(&mut rack, "d", 2)?;
    Ok(rack)
}

const TEXT: &[u8] = b"blocks 8 bad 1 repaired 1 lost 0 parity 2 unchecked 0\n";

// The sector is rebuilt by both parities, which then follow the second slice as it reads now.
#[test]
fn both_slices_are_bad(rt: HostRuntime) -> Result<(), CallFault> {
    let alloc = rt.alloc();
    let mut rack = without_both(alloc)?;
    let told = scrub(alloc, &mut rack, NAMES)?;
    assert_eq!(rt; told.text.as_slice(), TEXT);
    let right = row(alloc, RowVolume::Raid6)?;
    for name in NAMES {
        assert_eq!(rt; differing_page(&right, &rack, name), None);
    }
    Ok(())
}

// Scrubs the volume, where a call fails. A write that does fills its range with a byte.
fn stopped_at(alloc: Global, rack: &mut MemRack, n: u64) -> Result<Told, CallFault> {
    rack.tear(165);
    rack.fail_call(n)?;
    scrub(alloc, rack, NAMES)
}

// Whether the sector of an image is that of a volume.
fn is_as_in(volume: &MemRack, rack: &MemRack, name: &str) -> bool {
    volume.page(name, PAGE) == rack.page(name, PAGE)
}

// Whether no byte of a parity was written.
fn has_old_parities(alloc: Global, rack: &MemRack) -> Result<bool, CallFault> {
    let old = without_both(alloc)?;
    Ok(is_as_in(&old, rack, "c") && is_as_in(&old, rack, "d"))
}

// Whether the scrub stopped as the first image was synced: its sector is right, and no parity was written.
fn stopped_between(alloc: Global, rack: &MemRack, told: &Told) -> Result<bool, CallFault> {
    let right = row(alloc, RowVolume::Raid6)?;
    let is_written = is_as_in(&right, rack, "a");
    let is_at_fault = told.text.as_slice() == b"error: image 0 failed\n".as_slice();
    Ok(is_at_fault && is_written && has_old_parities(alloc, rack)?)
}

// A call of a scrub fails. All files can be restored then, and where no parity was written also if what was written of the sector isn't stored. It is true
// where it stopped between the sector and the parities.
fn stop_at(rt: &impl Abort, alloc: Global, n: u64) -> Result<bool, CallFault> {
    let mut rack = without_both(alloc)?;
    let told = stopped_at(alloc, &mut rack, n)?;
    let is_between = stopped_between(alloc, &rack, &told)?;
    restores_all(rt, alloc, &mut rack, NAMES)?;
    if has_old_parities(alloc, &rack)? {
        rack.poke("a", SECTOR, &[165; 4096])?;
        restores_all(rt, alloc, &mut rack, NAMES)?;
    }
    Ok(is_between)
}

// More calls than a scrub of the volume makes.
const CALLS: u64 = 200;

#[test]
fn stopped_at_each_call(rt: HostRuntime) -> Result<(), CallFault> {
    let mut between = 0;
    for n in 1..CALLS {
        if stop_at(&rt, rt.alloc(), n)? {
            between = 1;
        }
    }
    assert_eq!(rt; between, 1);
    Ok(())
}
