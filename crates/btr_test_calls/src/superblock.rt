use crate::fault::CallFault;
use btr_make::{RowVolume, row};
use btr_rack::Rack;
use btr_super::{Super, read_slot};
use std::alloc::Global;

/// The superblock of an image of a small volume. `Image`: no image of it has that name, or this one has no
/// superblock. `Memory`: want of memory.
pub fn super_of(alloc: Global, which: RowVolume, name: &str) -> Result<Super, CallFault> {
    let mut rack = row(alloc, which)?;
    let Ok(_) = rack.open(name, false) else {
        return Err(CallFault::Image);
    };
    if rack.count() == 0 {
        return Err(CallFault::Image);
    }
    match read_slot(&mut rack, 0) {
        Ok(sup) => Ok(sup),
        Err(_) => Err(CallFault::Image),
    }
}
