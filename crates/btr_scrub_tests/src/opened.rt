// Images that are opened to be written, and a scrub of them.
ghost use Rattle.std.specs.Prelude.{◌<◌, length, OnOk};
ghost use Rattle.btr_scrub_copies.specs.Writes.{AreWritable};
ghost use Rattle.btr_rack.specs.Memory.{slots_of};

use btr_rack::{MemRack, Rack};
use btr_scrub::{Tally, scrub};
use btr_volume::Volume;
use std::alloc::Global;
use std::test::Fail;

/// Opens an image more, to be written.
pub(super) fn open_to_write(rack: &mut MemRack, name: &str) -> Result<(), Fail>
    requires { AreWritable (slots_of rack.old) }
    ensures writable { OnOk result (AreWritable (slots_of rack.new)) }
    ensures some { OnOk result (0 < length (slots_of rack.new)) }
{
    rack.open(name, true)?;
    Ok(())
}

/// What scrub of the images of a rack comes to.
pub(super) fn scrubbed(alloc: Global, write: bool, rack: &mut MemRack) -> Option<Tally>
    requires some { 0 < length (slots_of rack.old) }
    requires writable { AreWritable (slots_of rack.old) }
    ensures some { 0 < length (slots_of rack.new) }
    ensures writable { AreWritable (slots_of rack.new) }
{
    let Ok(mut volume) = Volume::open(alloc, rack) else {
        return None;
    };
    if volume.sup.nodesize < 4096 {
        return None;
    }
    match scrub(alloc, write, rack, &mut volume) {
        Ok(tally) => Some(tally),
        Err(_) => None,
    }
}
