ghost use Rattle.std.specs.Prelude.{◌≤◌, IsOkAnd};
ghost use Rattle.btr_read.specs.Fate.{sought};
ghost use Rattle.btr_read.specs.Store.{free_count};
ghost use Rattle.btr_read.specs.Mirror.{HasMirror, AnswersMirror, AccountsMirror, LendsTried};
ghost use Rattle.btr_rack.specs.Rack.{OnlyReads};
ghost use Rattle.btr_read.specs.Serves.{Serves};

use crate::attempt::Attempt;
use crate::fetching::locate;
use crate::kept::take_least;
use crate::trying::try_part;
use crate::{Loan, Store, Want};
use btr_chunk::Part;
use btr_rack::Rack;

/// What came of one mirror of a block.
#[derive(Debug)]
pub enum Tried {
    /// It passes, and the loan has its bytes.
    Passed(Loan),
    /// It stands, and doesn't pass.
    Differs,
    /// It doesn't stand: its device isn't given, or its bytes don't lie in the image.
    Absent,
}

/// Why a mirror couldn't be tried.
#[derive(Clone, Copy, Debug, PartialEq, Eq)]
pub enum TryFault {
    /// The read of this slot failed.
    Failed(usize),
}

/// Tries one mirror of a block, counted from 0: lends a slot with its bytes where it passes. At most one call of
/// it fails, and it takes no memory. After each answer but `Passed` the loans are as before.
///
/// The block lies in a chunk, crosses neither its end nor an element's, and the chunk has that mirror. Each device's slot
/// is open in the rack, with the device's length, what the store keeps is what the images hold, and a slot is free. The
/// rack isn't told to forget the calls that failed before: whoever asks what failed since some moment calls `forget` then.
///
/// `Failed` where the read of the mirror failed.
pub fn try_mirror<R: Rack>(
    want: &Want,
    mirror: u32,
    rack: &mut R,
    store: &mut Store,
) -> Result<Tried, TryFault>
    requires serves { Serves (R.seen rack.old) store.old }
    requires room { 1 ≤ free_count store.old }
    requires mirror { IsOkAnd (sought store.old.layout want.now) (HasMirror mirror) }
    ensures serves { Serves (R.seen rack.new) store.new }
    ensures reads { OnlyReads (R.seen rack.old) (R.seen rack.new) }
    ensures lent { LendsTried want.now store.old store.new result }
    ensures answer { AnswersMirror store.old.layout want.now mirror (R.seen rack.old).held store.new result }
    ensures account { AccountsMirror store.old.layout want.now mirror (R.seen rack.old) (R.seen rack.new) result }
{
    let Ok(search) = locate(want, store.setting, &store.chunks, &store.devices) else {
        unreachable!();
    };
    let len = search.size();
    let slot = take_least(&mut store.pool, &mut store.kept);
    let result = match try_part(&search, Part::Mirror(mirror), rack, &mut store.pool, &slot) {
        Attempt::Passed => return Ok(Tried::Passed(Loan { slot, len })),
        Attempt::Differs => Ok(Tried::Differs),
        Attempt::Absent => Ok(Tried::Absent),
        Attempt::Failed(image) => Err(TryFault::Failed(image)),
    };
    store.pool.give(slot);
    result
}
