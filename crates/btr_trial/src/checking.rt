// The check of a trial.
ghost use Rattle.std.specs.Prelude.{◌≡◌, length, IfOk};
ghost use Rattle.btr_make.specs.Shelf.{IsShelved};
ghost use Rattle.btr_rack.specs.Memory.{held_of};
ghost use Rattle.btr_trial.specs.Sure.{CameTo, HasImages, KeepsOpen};
ghost use Rattle.btr_trial.specs.Trial.{findings_of};

use crate::opening::{open_filesystem, unless_wanted};
use crate::rack::SureRack;
use btr_base::Memory;
use btr_check::check;
use btr_findings::Findings;
use std::alloc::Global;

/// Checks a volume, and answers how many findings there are; `None` where it is refused.
pub(crate) fn try_check(alloc: Global, rack: &mut SureRack) -> Result<Option<u64>, Memory>
    requires { IsShelved rack.old }
    ensures { CameTo findings_of (λ images. images) rack.old rack.new result }
{
    rack.open_all(false)?;
    let findings = count_findings(alloc, rack)?;
    rack.close();
    Ok(findings)
}

// How many findings a check of the open images has.
fn count_findings(alloc: Global, rack: &mut SureRack) -> Result<Option<u64>, Memory>
    requires { HasImages rack.old }
    ensures kept { KeepsOpen rack.old rack.new }
    ensures count { IfOk result (λ count. count ≡ findings_of (held_of rack.old)) }
{
    let Some(mut volume) = open_filesystem(alloc, rack)? else {
        return Ok(None);
    };
    match check(alloc, false, rack, &mut volume) {
        Ok(findings) => Ok(Some(count_all(findings))),
        Err(stop) => {
            unless_wanted(stop)?;
            Ok(None)
        }
    }
}

// How many findings there are.
fn count_all(mut findings: Findings) -> u64
    ensures { result ≡ length findings }
{
    findings.few_law();
    let mut count = 0;
    while let Some(_) = findings.next() {
        count += 1;
    }
    count
}
