// Opening the filesystem of the open images.
ghost use Rattle.std.specs.Prelude.{◌≡◌, IfOk, OnOk};
ghost use Rattle.btr_trial.specs.Opening.{OpensOrRefuses};
ghost use Rattle.btr_trial.specs.Sure.{HasImages, KeepsOpen};
ghost use Rattle.btr_volume.specs.declared.fault.OpenFault.TheVariants as opening;
ghost use Rattle.btr_volume.specs.declared.stop.Stop.TheVariants as stops;

use crate::rack::SureRack;
use btr_base::Memory;
use btr_volume::{OpenFault, Stop, Volume};
use std::alloc::Global;

/// The filesystem of the open images; `None` where it is refused.
pub(crate) fn open_filesystem(alloc: Global, rack: &mut SureRack) -> Result<Option<Volume>, Memory>
    requires { HasImages rack.old }
    ensures kept { KeepsOpen rack.old rack.new }
    ensures opened { IfOk result (OpensOrRefuses rack.new) }
{
    match Volume::open(alloc, rack) {
        Ok(volume) => Ok(Some(volume)),
        Err(fault) => {
            unless_memory(fault)?;
            Ok(None)
        }
    }
}

// Want of memory ends a trial, and no other refusal does.
fn unless_memory(fault: OpenFault) -> Result<(), Memory>
    ensures { OnOk result (fault ≡ opening.Memory → ⊥) }
{
    match fault {
        OpenFault::Memory => Err(Memory),
        _ => Ok(()),
    }
}

/// The same of a command over an opened filesystem.
pub(crate) fn unless_wanted(stop: Stop) -> Result<(), Memory>
    ensures { OnOk result (stop ≡ stops.Memory → ⊥) }
{
    match stop {
        Stop::Memory => Err(Memory),
        _ => Ok(()),
    }
}
