// The scrub of a trial.
ghost use Rattle.std.specs.Prelude.{◌≡◌, IfOk, OnOk};
ghost use Rattle.btr_make.specs.Shelf.{IsShelved};
ghost use Rattle.btr_scrub_copies.specs.Writes.{AreWritable};
ghost use Rattle.btr_rack.specs.Memory.{held_of, slots_of};
ghost use Rattle.btr_trial.specs.Sure.{CameTo, HasImages};
ghost use Rattle.btr_trial.specs.Trial.{lost_of, scrubbed};

use crate::opening::{open_filesystem, unless_wanted};
use crate::rack::SureRack;
use btr_base::Memory;
use btr_scrub::scrub;
use std::alloc::Global;

/// Scrubs a volume, writing, and answers how many blocks are lost; `None` where it is refused.
pub(crate) fn try_scrub(alloc: Global, rack: &mut SureRack) -> Result<Option<u64>, Memory>
    requires { IsShelved rack.old }
    ensures { CameTo lost_of scrubbed rack.old rack.new result }
{
    rack.open_all(true)?;
    let lost = count_lost(alloc, rack)?;
    rack.close();
    Ok(lost)
}

// How many blocks a scrub of the open images leaves lost.
fn count_lost(alloc: Global, rack: &mut SureRack) -> Result<Option<u64>, Memory>
    requires images { HasImages rack.old }
    requires writable { AreWritable (slots_of rack.old) }
    ensures slots { slots_of rack.new ≡ slots_of rack.old }
    ensures lost { IfOk result (λ lost. lost ≡ lost_of (held_of rack.old)) }
    ensures left { OnOk result (held_of rack.new ≡ scrubbed (held_of rack.old)) }
{
    let Some(mut volume) = open_filesystem(alloc, rack)? else {
        return Ok(None);
    };
    match scrub(alloc, true, rack, &mut volume) {
        Ok(tally) => Ok(Some(tally.lost)),
        Err(stop) => {
            unless_wanted(stop)?;
            Ok(None)
        }
    }
}
