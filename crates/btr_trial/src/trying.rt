// The whole trial.
ghost use Rattle.std.specs.Prelude.{◌≡◌, ◌≤◌, IfOk};
ghost use Rattle.btr_make.specs.Shelf.{IsShelved, volume_of};
ghost use Rattle.btr_trial.specs.Shown.{EndsTrial};
ghost use Rattle.btr_trial.specs.Trial.{trial_of};

use crate::checking::try_check;
use crate::lines::put_lines;
use crate::rack::SureRack;
use crate::restoring::try_restore;
use crate::scrubbing::try_scrub;
use crate::tried::Tried;
use btr_base::Memory;
use btr_rack::{MemRack, Out};
use btr_volume::Stop;
use std::alloc::Global;
use std::mem::replace;

/// Tries the volume of so many directories, from 1 to 1000, whose images `a`, `b` and `c` stand on the shelf of a rack in which no slot is open and
/// nothing is to fail: checks it, spoils image number `number` mod 3, restores, scrubs with writing, spoils the next image and restores again. Then
/// it puts a line for the check, the two restores and the scrub, and answers how many of the four aren't those of a sound volume. A step that is
/// refused has `failed` in its line, and the next one is tried.
///
/// `Out`: the output failed, and a first part of the lines stands there. `Memory`: there was none, for a step, before anything is put, or for the
/// output. No other stop comes.
#[tactic(auto, using(crate::proofs::Shelves::ready_sure))]
pub fn trial<O: Out>(
    alloc: Global,
    number: u64,
    rack: &mut MemRack,
    out: &mut O,
) -> Result<u64, Stop>
    requires least { 1 ≤ number }
    requires most { number ≤ 1000 }
    requires ready { IsShelved rack.old }
    ensures { EndsTrial (trial_of (volume_of rack.old) number)
        (O.text out.old) (O.text out.new) (O.account out.old) (O.account out.new) result }
{
    let mut sure = SureRack::new(replace(rack, MemRack::new(alloc)));
    let tried = try_all(alloc, number, &mut sure);
    *rack = sure.into_rack();
    match tried {
        Ok(tried) => put_lines(&tried, out),
        Err(Memory) => Err(Stop::Memory),
    }
}

// All steps, one behind another.
fn try_all(alloc: Global, number: u64, rack: &mut SureRack) -> Result<Tried, Memory>
    requires most { number ≤ 1000 }
    requires ready { IsShelved rack.old }
    ensures { IfOk result (λ tried. tried ≡ trial_of (volume_of rack.old) number) }
{
    let findings = try_check(alloc, rack)?;
    rack.spoil(number % 3)?;
    let first = try_restore(alloc, number, rack)?;
    let lost = try_scrub(alloc, rack)?;
    rack.spoil((number + 1) % 3)?;
    let second = try_restore(alloc, number, rack)?;
    Ok(Tried {
        findings,
        first,
        lost,
        second,
    })
}
