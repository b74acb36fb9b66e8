// Images in memory whose sectors are numbered.
use btr_rack::{MemRack, Rack};
use std::alloc::Global;
use std::test::Fail;

pub(crate) const MIB: u64 = 0x100000;

/// The bytes of a sector, by its number.
pub(crate) fn sector(k: u64) -> [u8; 4096] {
    [(k % 251) as u8; 4096]
}

/// Opens a new image of 3 MiB whose 128 sectors from 1 MiB on are numbered.
pub(crate) fn add_image(rack: &mut MemRack, name: &str) -> Result<(), Fail> {
    rack.add(name, 3 * MIB)?;
    for k in 0..128u64 {
        rack.poke(name, MIB + 4096 * k, &sector(k))?;
    }
    rack.open(name, false)?;
    Ok(())
}

/// A rack of one such image, of whose calls one fails, by its number. The opening is the first.
pub(crate) fn image(alloc: Global, failing: u64) -> Result<MemRack, Fail> {
    let mut rack = MemRack::new(alloc);
    rack.fail_call(failing)?;
    add_image(&mut rack, "disk")?;
    Ok(rack)
}

/// A rack of two such images. The openings are the first two calls.
pub(crate) fn two_images(alloc: Global, failing: u64) -> Result<MemRack, Fail> {
    let mut rack = image(alloc, failing)?;
    add_image(&mut rack, "other")?;
    Ok(rack)
}
