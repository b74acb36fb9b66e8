// The way from a directory up to the top directory of its tree.
ghost use Rattle.std.specs.Prelude.{◌≡◌};
ghost use Rattle.btr_files.specs.Names.{links};
ghost use Rattle.btr_resolve.specs.Climbing.{led, step_up};
ghost use Rattle.btr_volume.specs.Readable.{CanRead};
ghost use Rattle.btr_resolve.specs.Running.{RanBeside, listed, pathed, stepped};

use crate::path::Path;
use btr_files::{NameList, names};
use btr_rack::Rack;
use btr_volume::{Stop, TreeRoot, Volume};
use btr_walk::FoldFault;

// So many steps from a directory to its parent give a path.
const MOST_STEPS: u32 = 512;

/// Puts all names of an inode into a list.
pub(crate) fn find_names<R: Rack>(
    tree: &TreeRoot,
    ino: u64,
    list: &mut NameList,
    rack: &mut R,
    vol: &mut Volume,
) -> Result<(), Stop>
    requires { CanRead 4 (R.seen rack.old) vol.old }
    ensures { RanBeside (links tree.now ino) (R.seen rack.old) vol.old (R.seen rack.new) vol.new
        (listed list.new result) }
{
    match names(tree, ino, list, rack, vol) {
        Ok(()) => Ok(()),
        Err(FoldFault::Tree(fault)) => Err(Stop::Tree(fault)),
        Err(FoldFault::Own(_)) => Err(Stop::Memory),
    }
}

// Goes from a directory to its parent, and puts its name in front of the path; `None` where it has not exactly one name.
fn go_up<R: Rack>(
    tree: &TreeRoot,
    dir: u64,
    above: &mut NameList,
    path: &mut Path,
    rack: &mut R,
    vol: &mut Volume,
) -> Result<Option<u64>, Stop>
    requires { CanRead 4 (R.seen rack.old) vol.old }
    ensures { RanBeside (step_up tree.now dir path.old) (R.seen rack.old) vol.old (R.seen rack.new) vol.new
        (stepped path.new result) }
{
    if let Err(stop) = find_names(tree, dir, above, rack, vol) {
        return Err(stop);
    }
    if above.len() != 1 {
        return Ok(None);
    }
    let name = above.get(0);
    match path.enter(name.name) {
        Ok(()) => Ok(Some(name.parent)),
        Err(_) => Err(Stop::Memory),
    }
}

/// Puts the names of the directories from the top directory of a tree down to `dir` in front of a path, whose names are below `dir`; `false` where one
/// of them has not exactly one name, or there are more than 512. Then nothing is said of the path.
pub(crate) fn climb<R: Rack>(
    tree: &TreeRoot,
    dir: u64,
    above: &mut NameList,
    path: &mut Path,
    rack: &mut R,
    vol: &mut Volume,
) -> Result<bool, Stop>
    requires { CanRead 4 (R.seen rack.old) vol.old }
    ensures { RanBeside (led 512 tree.now dir path.old) (R.seen rack.old) vol.old (R.seen rack.new) vol.new
        (pathed path.new result) }
{
    let mut dir = dir;
    let mut left = MOST_STEPS;
    loop {
        if dir == tree.dirid {
            return Ok(true);
        }
        if left == 0 {
            return Ok(false);
        }
        match go_up(tree, dir, above, path, rack, vol)? {
            None => return Ok(false),
            Some(parent) => dir = parent,
        }
        left -= 1;
    }
}
