// Where the references that are counted and those that are stored differ.
ghost use Rattle.std.specs.Prelude.{◌≡◌, ◌+◌, ◌==◌, cond, length, OnOk, IfOk};
ghost use Rattle.std.specs.Option.{option_to_list};
ghost use Rattle.btr_findings.specs.Findings.{Adds, PutsRow, PutsRows};
ghost use Rattle.btr_refs.specs.Differences.{count_row, ref_total, count_findings, total_findings, PutsAlone, PutsListed};
ghost use Rattle.btr_refs.specs.Differences as rows;
ghost use Rattle.btr_refs.specs.Listed.{entries_of, Ascends};

use crate::extent_list::ExtentList;
use crate::ref_list::refs_at;
use crate::{Counted, Forward, RefKey, StoredList};
use btr_base::Memory;
use btr_findings::{Extent, Finding, Found, Kind, insert, put_unless, shown};
use std::collections::{BTreeMap, BTreeSet};

// A reference that is counted and stored differently.
fn put_ref_count(found: &mut Found, key: &RefKey, counted: u64, stored: u64) -> Result<(), Memory>
    ensures { OnOk result (Adds (option_to_list (count_row key.now counted stored)) found.old found.new) }
{
    let numbers = [
        key.addr,
        u64::from(key.kind),
        key.root,
        key.objectid,
        key.offset,
        counted,
        stored,
    ];
    let finding = Finding::new(Kind::RefCount, numbers);
    put_unless(found, counted == stored, finding)
}

// The references that are stored, and that are counted differently, by the numbers beside them.
fn put_listed(found: &mut Found, refs: &[Counted], times: &[u64]) -> Result<(), Memory>
    requires { length times.now ≡ length refs.now }
    ensures { PutsListed refs.now times.now found.old found.new result }
{
    for (i, one) in refs.iter().enumerate() {
        put_ref_count(found, &one.key, times[i], one.count)?;
    }
    Ok(())
}

// The references that are counted, and aren't stored.
fn put_others(found: &mut Found, others: &BTreeMap<RefKey, u64>) -> Result<(), Memory>
    ensures { OnOk result (PutsRows (λ entry. count_row entry.0 entry.1 0) others.now.entries found.old found.new) }
{
    for (key, count) in others {
        put_ref_count(found, key, *count, 0)?;
    }
    Ok(())
}

// A sum of counts, with that of a reference more if it is one to the extent at an address. Where it would pass the greatest number there is, that
// is want of memory too.
fn add_at(total: u128, addr: u64, one: &Counted) -> Result<u128, Memory>
    ensures { IfOk result (λ sum. sum ≡ total + cond (one.now.key.addr == addr) one.now.count 0) }
{
    if one.key.addr != addr {
        return Ok(total);
    }
    match total.checked_add(u128::from(one.count)) {
        Some(sum) => Ok(sum),
        None => Err(Memory),
    }
}

// How often the extent at an address is referred to, in all.
fn total_at(refs: &[Counted], addr: u64) -> Result<u128, Memory>
    requires { Ascends refs.now }
    ensures { IfOk result (λ total. total ≡ rows.total_at (entries_of refs.now) addr) }
{
    let mut total = 0;
    for one in refs_at(refs, addr) {
        total = add_at(total, addr, one)?;
    }
    Ok(total)
}

// Whether one of some extents is at an address.
fn is_any_at(extents: &[Extent], addr: u64) -> bool
    ensures { result ≡ rows.has_extent extents.now addr }
{
    extents.iter().any(|extent| extent.addr == addr)
}

// The same of a list.
fn has_extent(extents: &ExtentList, addr: u64) -> bool
    ensures { result ≡ rows.has_extent extents.now addr }
{
    is_any_at(extents.at(addr), addr)
}

// The finding on an extent that states `refs`, and of none where that is 0.
fn ref_total(addr: u64, refs: u64, sum: u128) -> Finding
    ensures { result ≡ rows.total_row addr refs sum }
{
    Finding::new(Kind::RefTotal, [addr, refs, shown(sum)])
}

// An extent that states another sum than the one of the stored references.
fn put_ref_total(found: &mut Found, extent: &Extent, refs: &[Counted]) -> Result<(), Memory>
    requires { Ascends refs.now }
    ensures { OnOk result (PutsRow (ref_total (entries_of refs.now)) extent.now found.old found.new) }
{
    let sum = total_at(refs, extent.addr)?;
    if u128::from(extent.refs) == sum {
        return Ok(());
    }
    insert(found, ref_total(extent.addr, extent.refs, sum))
}

// The extents that do.
fn put_ref_totals(found: &mut Found, extents: &[Extent], refs: &[Counted]) -> Result<(), Memory>
    requires { Ascends refs.now }
    ensures { OnOk result (PutsRows (ref_total (entries_of refs.now)) extents.now found.old found.new) }
{
    for extent in extents {
        put_ref_total(found, extent, refs)?;
    }
    Ok(())
}

// The references that are stored where there is no extent.
fn put_ref_alone(found: &mut Found, refs: &[Counted], extents: &ExtentList) -> Result<(), Memory>
    requires { Ascends refs.now }
    ensures { OnOk result (PutsAlone refs.now extents.now found.old found.new) }
{
    for one in refs {
        if !has_extent(extents, one.key.addr) {
            let sum = total_at(refs, one.key.addr)?;
            insert(found, ref_total(one.key.addr, 0, sum))?;
        }
    }
    Ok(())
}

/// Puts the findings on references into a set: a reference that is counted and stored differently. `Memory`: there is no memory;
/// then nothing is said of the set.
pub fn put_count_findings(found: &mut Found, forward: &Forward) -> Result<(), Memory>
    ensures { OnOk result (Adds (count_findings forward.now.uses.refs forward.now.stored.refs) found.old found.new) }
{
    put_listed(found, &forward.stored, &forward.times)?;
    put_others(found, &forward.others)
}

/// Puts the findings on sums of references into a set: an extent that states another sum than that of the references to its
/// address that are stored; and an address that has such references, be it 0 times, and no extent. `Memory`: there is no memory; then
/// nothing is said of the set.
pub fn put_total_findings(found: &mut Found, stored: &StoredList) -> Result<(), Memory>
    ensures { OnOk result (Adds (total_findings stored.now.extents stored.now.refs) found.old found.new) }
{
    let refs = stored.refs();
    put_ref_totals(found, stored.extents(), refs)?;
    put_ref_alone(found, refs, &stored.extents)
}

// Puts findings into a set.
fn put_each(found: &mut Found, findings: &BTreeSet<Finding>) -> Result<(), Memory>
    ensures { OnOk result (Adds findings.now.keys found.old found.new) }
{
    for finding in findings {
        insert(found, *finding)?;
    }
    Ok(())
}

/// Puts the findings on uses into a set: an extent of another kind, length or level than it is used as. `Memory`: there is no memory;
/// then nothing is said of the set.
pub fn put_use_findings(found: &mut Found, forward: &Forward) -> Result<(), Memory>
    ensures { OnOk result (Adds forward.now.uses.misused found.old found.new) }
{
    put_each(found, &forward.misused)
}
