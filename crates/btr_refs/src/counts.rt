// How often each reference is met.
ghost use Rattle.std.specs.Prelude.{◌≡◌, OnOk, OnErr};
ghost use Rattle.btr_refs.specs.Counts.{count_in, counted, CountsLaw};

use crate::{Counted, RefKey};
use btr_base::Memory;
use std::collections::BTreeMap;

// How often a reference is met: 0 where it isn't in the map.
fn count_in(counts: &BTreeMap<RefKey, u64>, key: &RefKey) -> u64
    ensures { result ≡ count_in counts.now.entries key.now }
{
    match counts.get(key) {
        Some(count) => *count,
        None => 0,
    }
}

/// Counts a reference so many times more. `Memory`: there is no memory, or the sum would pass the greatest number there is;
/// then nothing is counted.
pub(crate) fn add(counts: &mut BTreeMap<RefKey, u64>, one: Counted) -> Result<(), Memory>
    ensures ok { OnOk result (counts.new.entries ≡ counted counts.old.entries one) }
    ensures err { OnErr result (counts.new.entries ≡ counts.old.entries) }
{
    let Some(sum) = count_in(counts, &one.key).checked_add(one.count) else {
        return Err(Memory);
    };
    match counts.insert(one.key, sum) {
        Ok(_) => Ok(()),
        Err(_) => Err(Memory),
    }
}

/// Counting some references, from none on, gives a map that has just these, each as often as they say in all. This function is
/// the law: its contract says it, and its body is empty.
pub fn counts_law()
    ensures { CountsLaw }
{}
