// How long the extents are in all that begin before the bounds of block groups.
ghost use Rattle.std.specs.Prelude.{◌≡◌, ◌+◌, List, length, replicate, OnOk, IfOk};
ghost use Rattle.std.specs.List.{Contains};
ghost use Rattle.std.specs.List.Sorted.{IsNonDecreasing};
ghost use Rattle.btr_findings.specs.declared.extent.Extent.{Extent};
ghost use Rattle.btr_check_space.specs.Bounds.{AreLengthsBetween, AreBounds, AreSums, Sums, before, Lengthened};

use crate::Group;
use btr_base::Memory;
use btr_findings::{Extent, push, with_room};
use std::alloc::Global;

// Where block groups begin and end, in ascending order.
pub(crate) fn bounds_of(alloc: Global, groups: &[Group]) -> Result<Vec<u128>, Memory>
    ensures { IfOk result (λ bounds. AreBounds groups.now bounds.items) }
{
    let mut bounds = with_room(alloc, groups.len().saturating_mul(2))?;
    for group in groups {
        let start = u128::from(group.start);
        push(&mut bounds, start)?;
        push(&mut bounds, start + u128::from(group.len))?;
    }
    bounds.sort_unstable_by_key(|bound| *bound);
    Ok(bounds)
}

// A length of 0 for each of so many bounds.
fn no_lengths(alloc: Global, count: usize) -> Result<Vec<u128>, Memory>
    ensures { IfOk result (λ lengths. lengths.items ≡ replicate count 0) }
{
    let mut lengths = Vec::new(alloc);
    match lengths.resize(count, 0) {
        Ok(()) => Ok(lengths),
        Err(_) => Err(Memory),
    }
}

// Adds to the length at a place, if there is one. Where the sum would pass the greatest number there is, that is want of memory too.
fn lengthen(lengths: &mut [u128], place: usize, len: u64) -> Result<(), Memory>
    ensures long { length lengths.new ≡ length lengths.old }
    ensures sums { OnOk result (Lengthened place len lengths.old lengths.new) }
{
    if place >= lengths.len() {
        return Ok(());
    }
    match lengths[place].checked_add(u128::from(len)) {
        Some(sum) => {
            lengths[place] = sum;
            Ok(())
        }
        None => Err(Memory),
    }
}

// How long the extents are in all that begin before each bound, and not before the one in front of it. They may stand in any order.
fn lengths_between(alloc: Global, bounds: &[u128], extents: &[Extent]) -> Result<Vec<u128>, Memory>
    requires { IsNonDecreasing bounds.now }
    ensures { IfOk result (λ lengths. AreLengthsBetween extents.now bounds.now lengths.items) }
{
    let mut lengths = no_lengths(alloc, bounds.len())?;
    for extent in extents {
        let addr = u128::from(extent.addr);
        let place = bounds.partition_point(|bound| *bound <= addr);
        lengthen(&mut lengths, place, extent.len)?;
    }
    Ok(lengths)
}

// How much the first of some lengths are in all, for each number of them. Where a sum would pass the greatest number there is, that is
// want of memory too.
fn sums_of(alloc: Global, lengths: &[u128]) -> Result<Vec<u128>, Memory>
    ensures { IfOk result (λ sums. Sums lengths.now sums.items) }
{
    let mut list = with_room(alloc, lengths.len().saturating_add(1))?;
    let mut sum: u128 = 0;
    push(&mut list, sum)?;
    for len in lengths {
        let Some(more) = sum.checked_add(*len) else {
            return Err(Memory);
        };
        sum = more;
        push(&mut list, sum)?;
    }
    Ok(list)
}

/// How long the extents are in all that begin before the bounds, by the bounds: there are fewer of these than extents.
pub(crate) fn sums_before(
    alloc: Global,
    bounds: &[u128],
    extents: &[Extent],
) -> Result<Vec<u128>, Memory>
    requires { IsNonDecreasing bounds.now }
    ensures { IfOk result (λ sums. AreSums extents.now bounds.now sums.items) }
{
    let lengths = lengths_between(alloc, bounds, extents)?;
    sums_of(alloc, &lengths)
}

/// The one of these sums that is before a bound.
pub(crate) fn sum_before(bound: u128, bounds: &[u128], sums: &[u128]) -> u128
    requires ascend { IsNonDecreasing bounds.now }
    requires bound { Contains bounds.now bound }
    requires long { length sums.now ≡ length bounds.now + 1 }
    ensures { (extents : List Extent) → AreSums extents bounds.now sums.now → result ≡ before extents bound }
{
    let place = bounds.partition_point(|other| *other < bound);
    sums[place + 1]
}
