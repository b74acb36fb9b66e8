// What is wrong with the names of subvolumes.
ghost use Rattle.std.specs.Prelude.{◌≡◌, ◌∷◌, [], OnOk, IfOk};
ghost use Rattle.btr_findings.specs.declared.kind.Kind.TheVariants as kind;
ghost use Rattle.btr_findings.specs.Findings.{found, Adds};
ghost use Rattle.btr_check_names.specs.Subvolumes.{subvolume_findings, HasNames};
ghost use Rattle.btr_check_names.specs.Standing.{PutsNames};

use crate::{SubvolumeList, SubvolumeName, SubvolumeNames};
use btr_base::Memory;
use btr_findings::{Finding, Found, Kind, put_unless};
use std::alloc::Global;
use std::collections::BTreeSet;

// The names that stand in ROOT_REFs, in ROOT_BACKREFs and in entries, to look up in.
#[derive(Drop)]
struct Standing<'a> {
    refs: BTreeSet<SubvolumeName<'a>>,
    backrefs: BTreeSet<SubvolumeName<'a>>,
    entries: BTreeSet<SubvolumeName<'a>>,
}

// The names of a list.
fn names_of(alloc: Global, names: &SubvolumeList) -> Result<BTreeSet<SubvolumeName<'_>>, Memory>
    ensures { IfOk result (HasNames names.now) }
{
    let mut set = BTreeSet::new(alloc);
    for name in names.iter() {
        match set.insert(name) {
            Ok(_) => {}
            Err(_) => return Err(Memory),
        }
    }
    Ok(set)
}

// What is wrong with a name that doesn't stand everywhere.
fn of_name(name: &SubvolumeName<'_>) -> Finding
    ensures { result ≡ found kind.RootRef (name.now.parent ∷ name.now.child ∷ []) }
{
    Finding::new(Kind::RootRef, [name.parent, name.child])
}

// The names of a list that don't stand everywhere.
fn put_names<'a>(
    found: &mut Found,
    list: &'a SubvolumeList,
    standing: &Standing<'a>,
) -> Result<(), Memory>
    ensures { PutsNames standing.now list.now found.old found.new result }
{
    for name in list.iter() {
        let kept = standing.refs.contains(&name)
            && standing.backrefs.contains(&name)
            && standing.entries.contains(&name);
        put_unless(found, kept, of_name(&name))?;
    }
    Ok(())
}

/// Adds what is wrong with the names of subvolumes to a set of findings. It takes time in proportion to the number of
/// names and its logarithm. `Memory`: there is no memory; then nothing is said of the set.
pub fn put_subvolume_findings(
    alloc: Global,
    found: &mut Found,
    names: &SubvolumeNames,
) -> Result<(), Memory>
    ensures { OnOk result (Adds (subvolume_findings names.now) found.old found.new) }
{
    let standing = Standing {
        refs: names_of(alloc, &names.refs)?,
        backrefs: names_of(alloc, &names.backrefs)?,
        entries: names_of(alloc, &names.entries)?,
    };
    put_names(found, &names.refs, &standing)?;
    put_names(found, &names.backrefs, &standing)
}
