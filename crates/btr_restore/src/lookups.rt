// The lookups of a listing, whose fault ends it.
ghost use Rattle.btr_volume.specs.Tree.{tree_of};
ghost use Rattle.btr_restore.specs.Journey.{sums_lookup};
ghost use Rattle.btr_volume.specs.Readable.{CanRead};
ghost use Rattle.btr_restore.specs.Running.{LookedFor};

use btr_files::RestorePlan;
use btr_rack::Rack;
use btr_volume::{Stop, TreeRoot, Volume};

// The tree of the checksums of data.
const SUM_TREE: u64 = 7;

/// The root of the tree of an id, if there is one.
pub fn find_tree<R: Rack>(id: u64, rack: &mut R, vol: &mut Volume) -> Result<Option<TreeRoot>, Stop>
    requires { CanRead 6 (R.seen rack.old) vol.old }
    ensures { LookedFor (λ s. tree_of s id) (R.seen rack.old) vol.old (R.seen rack.new) vol.new result }
{
    match vol.tree(id, rack) {
        Ok(found) => Ok(found),
        Err(fault) => Err(Stop::Tree(fault)),
    }
}

/// The checksum tree, if there is one; a dry run reads no bytes of files.
pub(crate) fn find_sums<R: Rack>(
    plan: &RestorePlan,
    rack: &mut R,
    vol: &mut Volume,
) -> Result<Option<TreeRoot>, Stop>
    requires { CanRead 6 (R.seen rack.old) vol.old }
    ensures { LookedFor (sums_lookup plan.now) (R.seen rack.old) vol.old (R.seen rack.new) vol.new result }
{
    if plan.dry {
        return Ok(None);
    }
    find_tree(SUM_TREE, rack, vol)
}
