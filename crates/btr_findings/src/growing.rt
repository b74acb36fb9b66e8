// Lists that grow.
ghost use Rattle.std.specs.Prelude.{◌≡◌, ◌++◌, ◌∷◌, [], IfOk, OnOk};

use btr_base::Memory;
use std::alloc::Global;

/// A list with room for so many items. `Memory`: there is no memory for it.
pub fn with_room<T: Drop>(alloc: Global, room: usize) -> Result<Vec<T>, Memory>
    ensures { IfOk result (λ list. list.items ≡ []) }
{
    match Vec::with_capacity(alloc, room) {
        Ok(list) => Ok(list),
        Err(_) => Err(Memory),
    }
}

/// Adds to the end of a list. `Memory`: there is no memory for it.
pub fn push<T: Drop>(list: &mut Vec<T>, item: T) -> Result<(), Memory>
    ensures { OnOk result (list.new.items ≡ list.old.items ++ item ∷ []) }
{
    match list.push(item) {
        Ok(()) => Ok(()),
        Err(_) => Err(Memory),
    }
}
