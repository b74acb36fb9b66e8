// The call resolve.
ghost use Rattle.btr_prog.specs.Prog.{Emit, Return};
ghost use Rattle.btr_resolve.specs.Lines.{total_line};
ghost use Rattle.btr_resolve.specs.Resolving as spec;
ghost use Rattle.btr_volume.specs.Readable.{CanRead};
ghost use Rattle.btr_resolve.specs.Running.{Ran, RanAlone, RanFor, counted, world};

use crate::lines::put_total;
use crate::report::Report;
use crate::subvolumes::subvolumes;
use crate::telling::{out_stop, tell_owners};
use btr_rack::{Out, Rack};
use btr_volume::{Stop, Volume};
use btr_walk::TreeFault;
use std::alloc::Global;

// Tells the owners of an address in the tree of an id, if it is there.
fn tell_subvolume<R: Rack, O: Out>(
    addr: u64,
    id: u64,
    report: &mut Report,
    rack: &mut R,
    vol: &mut Volume,
    out: &mut O,
) -> Result<(), Stop>
    requires ready { CanRead 4 (R.seen rack.old) vol.old }
    ensures { RanFor (λ s. spec.subvolume_told s addr report.old.count id)
        (world (R.seen rack.old) vol.old (O.text out.old) (O.account out.old))
        (world (R.seen rack.new) vol.new (O.text out.new) (O.account out.new)) (counted report.new.count result) }
{
    match vol.tree(id, rack) {
        Err(fault) => Err(Stop::Tree(fault)),
        Ok(None) => Ok(()),
        Ok(Some(tree)) => tell_owners(addr, &tree, report, rack, vol, out),
    }
}

// Tells the owners of an address in the trees of some ids.
fn tell_subvolumes<R: Rack, O: Out>(
    addr: u64,
    ids: &[u64],
    report: &mut Report,
    rack: &mut R,
    vol: &mut Volume,
    out: &mut O,
) -> Result<(), Stop>
    requires ready { CanRead 4 (R.seen rack.old) vol.old }
    ensures { RanFor (λ s. spec.subvolumes_told s addr report.old.count ids.now)
        (world (R.seen rack.old) vol.old (O.text out.old) (O.account out.old))
        (world (R.seen rack.new) vol.new (O.text out.new) (O.account out.new)) (counted report.new.count result) }
{
    for id in ids {
        tell_subvolume(addr, *id, report, rack, vol, out)?;
    }
    Ok(())
}

// Tells how many lines were put.
fn tell_total<O: Out>(count: u64, out: &mut O) -> Result<u64, Stop>
    ensures { RanAlone (Emit (total_line count) (Return count))
        (O.text out.old) (O.account out.old) (O.text out.new) (O.account out.new) result }
{
    match put_total(count, out) {
        Ok(()) => Ok(count),
        Err(refusal) => Err(out_stop(refusal)),
    }
}

// Tells the owners of an address in the trees of some ids, and how many lines that took.
fn tell_all<R: Rack, O: Out>(
    alloc: Global,
    addr: u64,
    ids: &[u64],
    rack: &mut R,
    vol: &mut Volume,
    out: &mut O,
) -> Result<u64, Stop>
    requires ready { CanRead 4 (R.seen rack.old) vol.old }
    ensures { RanFor (λ s. spec.all_told s addr ids.now)
        (world (R.seen rack.old) vol.old (O.text out.old) (O.account out.old))
        (world (R.seen rack.new) vol.new (O.text out.new) (O.account out.new)) result }
{
    let mut report = Report::new(alloc);
    tell_subvolumes(addr, ids, &mut report, rack, vol, out)?;
    tell_total(report.count, out)
}

/// Puts a line for each file whose byte is at an address of the filesystem, and for each of its names: the id of the subvolume, the inode, the position in
/// the file in bytes, and the path in the subvolume; and then how many lines these are, which it answers. Subvolumes come by ascending id, files by ascending
/// inode and position. A compressed extent has all of its bytes at the position where it begins.
///
/// The path is `?` where the file has no name, where a directory above it has not exactly one, and where it is more than 512 directories deep. The memory of a
/// list of ids, of the names of one inode, twice, and of a path is taken, and none for each item. Four slots of the volume are free.
///
/// `Tree(Unmapped(addr))` comes exactly where no chunk holds the address, before any block is read. `Tree`: else a block is `Lost`, `Unread`, `Unmapped`
/// or `Crosses`, or `Malformed` where it breaks a rule, doesn't fit its place, or has an item that breaks its form or an extent that begins before
/// the end of the one before. `Out`: the output failed. `Memory`: there is none. All lines before stand; of the last one a first part may stand after `Out` and
/// `Memory`.
pub fn resolve<R: Rack, O: Out>(
    alloc: Global,
    addr: u64,
    rack: &mut R,
    vol: &mut Volume,
    out: &mut O,
) -> Result<u64, Stop>
    requires ready { CanRead 4 (R.seen rack.old) vol.old }
    ensures { Ran (spec.resolved vol.old.sup vol.old.store.layout.chunks addr)
        (world (R.seen rack.old) vol.old (O.text out.old) (O.account out.old))
        (world (R.seen rack.new) vol.new (O.text out.new) (O.account out.new)) result }
{
    if vol.store.chunks().find(addr).is_none() {
        return Err(Stop::Tree(TreeFault::Unmapped(addr)));
    }
    let ids = subvolumes(alloc, rack, vol)?;
    tell_all(alloc, addr, ids.as_slice(), rack, vol, out)
}
