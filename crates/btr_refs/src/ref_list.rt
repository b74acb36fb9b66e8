// The references that are stored, as a list.
ghost use Rattle.std.specs.Prelude.{◌≡◌, ◌<◌, ◌++◌, ◌∷◌, [], length, IfOk, IfSome, IfNone, None, fold};
ghost use Rattle.btr_refs.specs.Counts.{counted, counted_all, found_at};
ghost use Rattle.btr_refs.specs.Differences as rows;
ghost use Rattle.btr_refs.specs.Listed.{entries_of, Ascends, HasKey};

use crate::counts::add;
use crate::{Counted, RefKey};
use btr_base::Memory;
use btr_findings::push;
use std::alloc::Global;
use std::collections::BTreeMap;
use std::marker::Model;

/// The references that are stored, in their order and each once, with how often each is. A list takes half the memory of a map.
#[derive(Drop)]
pub(crate) struct RefList {
    refs: Vec<Counted>,
}

impl Model for RefList {
    ghost use Rattle.btr_refs.specs.Counts.{RefCounts};
    ghost use Rattle.btr_refs.specs.Listed.{entries_of, Ascends};

    ghost Value = { RefCounts };

    ghost view = { λ list. entries_of list.refs.items };

    ghost invariant = { λ list. Ascends list.refs.items };
}

impl RefList {
    ghost use Rattle.std.specs.Prelude.{◌≡◌, [], IfOk};
    ghost use Rattle.btr_refs.specs.Counts.{counted_all};
    ghost use Rattle.btr_refs.specs.Listed.{entries_of, Ascends};

    /// References as they are met, in whatever order and however often. `Memory`: some are met again, and there is no memory for
    /// their sums, or one would pass the greatest number there is.
    pub(crate) fn of(alloc: Global, mut refs: Vec<Counted>) -> Result<RefList, Memory>
        ensures { IfOk result (λ list. list ≡ counted_all [] refs.items) }
    {
        refs.sort_unstable_by_key(|one| one.key);
        if refs.is_sorted_by(|one, next| one.key < next.key) {
            return Ok(RefList { refs });
        }
        let refs = listed(alloc, summed(alloc, &refs)?)?;
        Ok(RefList { refs })
    }

    /// The references with their counts.
    pub(crate) fn into_refs(self) -> Vec<Counted>
        ensures ascends { Ascends result.items }
        ensures same { entries_of result.items ≡ self }
    {
        self.refs
    }

    /// The same, lent.
    pub(crate) fn as_slice(&self) -> &[Counted]
        ensures ascends { Ascends result.now }
        ensures same { entries_of result.now ≡ self.now }
    {
        self.refs.as_slice()
    }
}

// How often each of some references is met, in all.
fn summed(alloc: Global, refs: &[Counted]) -> Result<BTreeMap<RefKey, u64>, Memory>
    ensures { IfOk result (λ counts. counts.entries ≡ counted_all [] refs.now) }
{
    let mut counts = BTreeMap::new(alloc);
    for one in refs {
        add(&mut counts, *one)?;
    }
    Ok(counts)
}

// The references of a map.
fn listed(alloc: Global, counts: BTreeMap<RefKey, u64>) -> Result<Vec<Counted>, Memory>
    ensures ascends { IfOk result (λ refs. Ascends refs.items) }
    ensures same { IfOk result (λ refs. entries_of refs.items ≡ counts.entries) }
{
    let mut refs = Vec::new(alloc);
    for (key, count) in &counts {
        let (key, count) = (*key, *count);
        push(&mut refs, Counted { key, count })?;
    }
    Ok(refs)
}

/// Where a reference stands among some, if it does.
pub(crate) fn place(refs: &[Counted], key: &RefKey) -> Option<usize>
    requires { Ascends refs.now }
    ensures found { IfSome result (HasKey refs.now key.now) }
    ensures absent { IfNone result (found_at (entries_of refs.now) key.now ≡ None) }
{
    match refs.binary_search_by_key(key, |one| one.key) {
        Ok(at) => Some(at),
        Err(_) => None,
    }
}

/// The references among some to the extent at an address.
pub(crate) fn refs_at(refs: &[Counted], addr: u64) -> &[Counted]
    requires { Ascends refs.now }
    ensures { rows.total_at (entries_of result.now) addr ≡ rows.total_at (entries_of refs.now) addr }
{
    let first = refs.partition_point(|one| one.key.addr < addr);
    let behind = &refs[first..];
    let count = behind.partition_point(|one| one.key.addr <= addr);
    &behind[..count]
}
