// Trees that are visited.
ghost use Rattle.std.specs.Prelude.{◌≡◌, fold, OnOk};
ghost use Rattle.btr_tour.specs.Tour.{whole};
ghost use Rattle.btr_check.specs.Running.{world, CanCheck, Ran, StopsOutside};
ghost use Rattle.btr_check.specs.Wanted.{OfTree};

use crate::form::kind_of;
use btr_base::Memory;
use btr_rack::Rack;
use btr_tour::{Visitor, visit};
use btr_volume::{Stop, Volume};
use btr_walk::{FoldFault, RootPlace};

/// Visits all of a tree. It stops where a block could not be read, and for want of memory of the visitor's.
pub(crate) fn visit_tree<R: Rack, V: Visitor<Memory>>(
    place: &RootPlace,
    visitor: &mut V,
    rack: &mut R,
    vol: &mut Volume,
) -> Result<(), Stop>
    requires ready { CanCheck (world (R.seen rack.old) vol.old) }
    ensures outside { StopsOutside result }
    ensures ran { Ran (OfTree place.now)
        (λ fs. OnOk result (visitor.new ≡ fold V.step visitor.old (whole fs.blocks place.now)))
        (world (R.seen rack.old) vol.old) (world (R.seen rack.new) vol.new) result }
{
    let kind = kind_of(&vol.sup);
    match visit(place, kind, rack, &mut vol.store, visitor) {
        Ok(()) => Ok(()),
        Err(FoldFault::Tree(fault)) => Err(Stop::Tree(fault)),
        Err(FoldFault::Own(Memory)) => Err(Stop::Memory),
    }
}
