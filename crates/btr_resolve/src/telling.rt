// Owners, told line by line.
ghost use Rattle.std.specs.Prelude.{◌≡◌, ◌<◌, length, slice_get, Some, drop};
ghost use Rattle.std.specs.List.{HoldsAt};
ghost use Rattle.btr_files.specs.Names.{links};
ghost use Rattle.btr_resolve.specs.Lines.{path_if, more};
ghost use Rattle.btr_resolve.specs.Resolving as spec;
ghost use Rattle.btr_volume.specs.Readable.{CanRead};
ghost use Rattle.btr_resolve.specs.Running.{Ran, RanAlone, counted, world};
ghost use Rattle.btr_volume.specs.Stops.{stops_out};

use crate::climbing::{climb, find_names};
use crate::lines::put_owner;
use crate::owner::Owner;
use crate::owners::Owners;
use crate::report::Report;
use btr_rack::{Out, Rack, SinkError};
use btr_volume::{Stop, TreeRoot, Volume};

/// The stop that a refusal of the output is.
pub(crate) fn out_stop(refusal: SinkError) -> Stop
    ensures { result ≡ stops_out refusal }
{
    match refusal {
        SinkError::Failed => Stop::Out,
        SinkError::Memory => Stop::Memory,
    }
}

// A count with one more; it stands still at its last value.
fn more(n: u64) -> u64
    ensures { result ≡ more n }
{
    n.saturating_add(1)
}

// Tells an owner with the path of the report, if it was found, and counts the line.
fn tell_path<O: Out>(
    owner: &Owner,
    is_found: bool,
    report: &mut Report,
    out: &mut O,
) -> Result<(), Stop>
    ensures ran { RanAlone (spec.path_told owner.now report.old.count (path_if is_found report.old.path))
        (O.text out.old) (O.account out.old) (O.text out.new) (O.account out.new) (counted report.new.count result) }
    ensures names { report.new.names ≡ report.old.names }
{
    match put_owner(owner, is_found, report.path.turn(), out) {
        Ok(()) => {
            report.count = more(report.count);
            Ok(())
        }
        Err(refusal) => Err(out_stop(refusal)),
    }
}

// Tells an owner by the name at a place of the report.
fn tell_name<R: Rack, O: Out>(
    owner: &Owner,
    at: usize,
    report: &mut Report,
    rack: &mut R,
    vol: &mut Volume,
    out: &mut O,
) -> Result<(), Stop>
    requires ready { CanRead 4 (R.seen rack.old) vol.old }
    requires there { at < length report.old.names }
    ensures ran { HoldsAt (λ name. Ran (spec.name_told owner.now report.old.count name)
        (world (R.seen rack.old) vol.old (O.text out.old) (O.account out.old))
        (world (R.seen rack.new) vol.new (O.text out.new) (O.account out.new)) (counted report.new.count result))
        report.old.names at }
    ensures names { report.new.names ≡ report.old.names }
{
    let name = report.names.get(at);
    report.path.clear();
    if report.path.enter(name.name).is_err() {
        return Err(Stop::Memory);
    }
    let is_found = climb(
        &owner.tree,
        name.parent,
        &mut report.above,
        &mut report.path,
        rack,
        vol,
    )?;
    tell_path(owner, is_found, report, out)
}

// Tells an owner by each name of the report.
fn tell_names<R: Rack, O: Out>(
    owner: &Owner,
    report: &mut Report,
    rack: &mut R,
    vol: &mut Volume,
    out: &mut O,
) -> Result<(), Stop>
    requires ready { CanRead 4 (R.seen rack.old) vol.old }
    ensures { Ran (spec.each_told owner.now report.old.count report.old.names)
        (world (R.seen rack.old) vol.old (O.text out.old) (O.account out.old))
        (world (R.seen rack.new) vol.new (O.text out.new) (O.account out.new)) (counted report.new.count result) }
{
    let mut at = 0;
    while at < report.names.len() {
        tell_name(owner, at, report, rack, vol, out)?;
        at += 1;
    }
    Ok(())
}

// Tells an owner by all of its names.
fn tell_owner<R: Rack, O: Out>(
    owner: &Owner,
    report: &mut Report,
    rack: &mut R,
    vol: &mut Volume,
    out: &mut O,
) -> Result<(), Stop>
    requires ready { CanRead 4 (R.seen rack.old) vol.old }
    ensures { Ran (spec.owner_told report.old.count owner.now)
        (world (R.seen rack.old) vol.old (O.text out.old) (O.account out.old))
        (world (R.seen rack.new) vol.new (O.text out.new) (O.account out.new)) (counted report.new.count result) }
{
    find_names(&owner.tree, owner.inode, &mut report.names, rack, vol)?;
    if report.names.len() == 0 {
        return tell_path(owner, false, report, out);
    }
    tell_names(owner, report, rack, vol, out)
}

/// Tells the owners of an address in a tree, each wholly before the next one is sought.
pub(crate) fn tell_owners<R: Rack, O: Out>(
    addr: u64,
    tree: &TreeRoot,
    report: &mut Report,
    rack: &mut R,
    vol: &mut Volume,
    out: &mut O,
) -> Result<(), Stop>
    requires ready { CanRead 4 (R.seen rack.old) vol.old }
    ensures { Ran (spec.tree_told addr report.old.count (Some tree.now))
        (world (R.seen rack.old) vol.old (O.text out.old) (O.account out.old))
        (world (R.seen rack.new) vol.new (O.text out.new) (O.account out.new)) (counted report.new.count result) }
{
    let mut owners = Owners::new(addr, *tree);
    loop {
        match owners.next(rack, vol) {
            Err(fault) => return Err(Stop::Tree(fault)),
            Ok(None) => return Ok(()),
            Ok(Some(owner)) => tell_owner(&owner, report, rack, vol, out)?,
        }
    }
}
