// Sets that grow.
ghost use Rattle.std.specs.Prelude.{OnOk};
ghost use Rattle.btr_check_space.specs.Orders.{HasOneMore};

use btr_base::Memory;
use std::collections::BTreeSet;

// Adds to a set, where the key may be already.
pub(crate) fn put_key<K: Ord + Drop>(set: &mut BTreeSet<K>, key: K) -> Result<(), Memory>
    ensures { OnOk result (HasOneMore K.cmp key set.old set.new) }
{
    match set.insert(key) {
        Ok(_) => Ok(()),
        Err(_) => Err(Memory),
    }
}
