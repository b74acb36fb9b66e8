// The restores of a trial.
ghost use Rattle.std.specs.Prelude.{◌≡◌, ◌≤◌, IfOk};
ghost use Rattle.btr_make.specs.Shelf.{IsShelved};
ghost use Rattle.btr_rack.specs.Memory.{held_of};
ghost use Rattle.btr_trial.specs.Sure.{CameTo, HasImages, KeepsOpen};
ghost use Rattle.btr_trial.specs.Trial.{restored_same};

use crate::comparing::are_made;
use crate::opening::{open_filesystem, unless_wanted};
use crate::rack::SureRack;
use crate::whole_files::WholeFiles;
use btr_base::Memory;
use btr_files::RestorePlan;
use btr_rack::MemOut;
use btr_restore::restore;
use std::alloc::Global;

// All files of the top subvolume.
const WHOLE: RestorePlan = RestorePlan {
    root: 5,
    snapshots: false,
    verbose: false,
    dry: false,
};

/// Restores all files of a volume, and answers whether they are those of so many made directories; `None` where it is refused.
pub(crate) fn try_restore(
    alloc: Global,
    number: u64,
    rack: &mut SureRack,
) -> Result<Option<bool>, Memory>
    requires most { number ≤ 1000 }
    requires ready { IsShelved rack.old }
    ensures { CameTo (restored_same number) (λ images. images) rack.old rack.new result }
{
    rack.open_all(false)?;
    let same = compare_files(alloc, number, rack)?;
    rack.close();
    Ok(same)
}

// Whether a restore from the open images has the files of so many made directories.
fn compare_files(alloc: Global, number: u64, rack: &mut SureRack) -> Result<Option<bool>, Memory>
    requires most { number ≤ 1000 }
    requires images { HasImages rack.old }
    ensures kept { KeepsOpen rack.old rack.new }
    ensures same { IfOk result (λ same. same ≡ restored_same number (held_of rack.old)) }
{
    let Some(mut volume) = open_filesystem(alloc, rack)? else {
        return Ok(None);
    };
    let mut tree = WholeFiles::new(alloc);
    let mut out = MemOut::new(alloc);
    match restore(alloc, &WHOLE, "out", rack, &mut volume, &mut tree, &mut out) {
        Ok(_) => Ok(Some(are_made(tree.rows(), number))),
        Err(stop) => {
            unless_wanted(stop)?;
            Ok(None)
        }
    }
}
