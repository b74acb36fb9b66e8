ghost use Rattle.std.specs.Prelude.{IfOk};
ghost use Rattle.btr_read.specs.Fate.{sought};
ghost use Rattle.btr_read.specs.Order.{IsWayAt};

use crate::device::any_older;
use crate::fetching::locate;
use crate::{Store, Want};

/// Which of the ways to get a block is the candidate at a place in the order: with copies the number of one; with parity 0
/// for the block's own slice, 1 for P, 2 for Q, and from 3 on for both parities without one of the other slices. It is the
/// place itself where no image is older, where the block has no position, or where there aren't so many candidates.
pub fn way_at(want: &Want, k: u32, store: &Store) -> u32
    ensures { IfOk (sought store.now.layout want.now) (IsWayAt k result) }
{
    if !any_older(&store.devices) {
        return k;
    }
    match locate(want, store.setting, &store.chunks, &store.devices) {
        Ok(search) => search.way_at(k),
        Err(_) => k,
    }
}
