// What is wrong with the names in a tree of files.
ghost use Rattle.std.specs.Prelude.{OnOk};
ghost use Rattle.btr_findings.specs.Findings.{Adds};
ghost use Rattle.btr_check_names.specs.Names.{names_findings};

use crate::TreeNames;
use crate::put_entries::{put_entry_indexes, put_entry_items, put_entry_refs, put_ref_entries};
use crate::put_inodes::{
    put_dir_sizes, put_entry_modes, put_link_counts, put_orphans, removed_dirs,
};
use btr_base::Memory;
use btr_findings::{Finding, Found};
use std::alloc::Global;

/// Adds what is wrong with the names in a tree of files to a set of findings; of the entries and the size of a directory
/// that is being removed only `RefEntry` speaks. It takes time in proportion to the number of
/// names and its logarithm. `Memory`: there is no memory; then nothing is said of the set.
pub fn put_name_findings(alloc: Global, found: &mut Found, names: &TreeNames) -> Result<(), Memory>
    ensures { OnOk result (Adds (names_findings names.now) found.old found.new) }
{
    let tree = names.tree;
    let (indexed, hashed, refs) = (&names.indexed, &names.hashed, &names.refs);
    let inodes = names.inodes.as_slice();
    let orphans = names.orphans.as_slice();
    let gone = removed_dirs(alloc, orphans, inodes)?;
    let removed = gone.as_slice();
    put_entry_items(alloc, found, tree, removed, indexed, hashed)?;
    put_entry_indexes(alloc, found, tree, removed, indexed, hashed)?;
    put_entry_refs(alloc, found, tree, removed, indexed, refs)?;
    put_ref_entries(alloc, found, tree, names.dirid, indexed, refs)?;
    put_entry_modes(alloc, found, tree, removed, indexed, inodes)?;
    put_link_counts(alloc, found, tree, refs, inodes)?;
    put_dir_sizes(alloc, found, tree, orphans, indexed, inodes)?;
    put_orphans(alloc, found, tree, orphans, inodes)
}
