// Findings of a walk, as a set.
ghost use Rattle.std.specs.Prelude.{◌++◌, OnOk};
ghost use Rattle.btr_findings.specs.Findings.{Adds};

use crate::walk::Walk;
use btr_base::Memory;
use btr_findings::{Finding, Found, put_unless};

/// Puts findings into a set. `Memory`: there is no memory; then nothing is said of the set.
pub(crate) fn put_all(found: &mut Found, list: &[Finding]) -> Result<(), Memory>
    ensures { OnOk result (Adds list.now found.old found.new) }
{
    for finding in list {
        put_unless(found, false, *finding)?;
    }
    Ok(())
}

/// Puts all that was found on a walk into a set. `Memory`: there is no memory; then nothing is said of the set.
pub fn put_walk_findings(found: &mut Found, walk: &Walk) -> Result<(), Memory>
    ensures { OnOk result (Adds (walk.now.broken ++ walk.now.overlapping) found.old found.new) }
{
    put_all(found, walk.broken())?;
    put_all(found, walk.overlapping())
}
