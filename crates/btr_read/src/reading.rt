// Reads into slots.
ghost use Rattle.std.specs.Prelude.{◌≡◌, ℕ, ◌+◌, ◌<◌, ◌≤◌, List, length, take, OnOk, IsErrOf};
ghost use Rattle.std.specs.List.{All};
ghost use Rattle.btr_rack.specs.Rack.{OnlyReads, FailsUnsure, len_of, Accounts};
ghost use Rattle.btr_pool.specs.Slots.{IsLive, bytes_at, with_bytes};
ghost use Rattle.btr_read.specs.Reading.{AreBytesIn, HasRange};

use btr_pool::{Loan, Pool};
use btr_rack::{Place, Rack, RackError};

// Reads a range of an image into the beginning of a buffer.
fn read_front<R: Rack>(rack: &mut R, range: Place, buf: &mut [u8]) -> Result<(), RackError>
    requires open { range.slot < length (R.seen rack.old).slots }
    requires within { range.off + range.len ≤ len_of (R.seen rack.old).slots range.slot }
    requires fits { range.len ≤ length buf.old }
    ensures reads { OnlyReads (R.seen rack.old) (R.seen rack.new) }
    ensures bytes { OnOk result (AreBytesIn (R.seen rack.old).held range (take range.len buf.new)) }
    ensures account { Accounts range (R.seen rack.old).account (R.seen rack.new).account result }
    ensures sure { FailsUnsure (R.seen rack.old).sure result }
    ensures memory { IsErrOf result RackError.Memory → ⊥ }
    ensures small { All (λ b. b < 256) buf.new }
{
    rack.read_at(range.slot, range.off, &mut buf[..range.len as usize])
}

// Reads a range of an image into the beginning of a slot.
pub(crate) fn read_into<R: Rack>(
    rack: &mut R,
    range: Place,
    pool: &mut Pool,
    loan: &Loan,
) -> Result<(), RackError>
    requires open { range.slot < length (R.seen rack.old).slots }
    requires within { range.off + range.len ≤ len_of (R.seen rack.old).slots range.slot }
    requires live { IsLive pool.old loan.now }
    requires fits { range.len ≤ pool.old.size }
    ensures reads { OnlyReads (R.seen rack.old) (R.seen rack.new) }
    ensures kept { (w : List ℕ) × (pool.new ≡ with_bytes pool.old loan.now w) }
    ensures bytes { OnOk result (HasRange (R.seen rack.old).held range pool.new loan.now) }
    ensures account { Accounts range (R.seen rack.old).account (R.seen rack.new).account result }
    ensures sure { FailsUnsure (R.seen rack.old).sure result }
    ensures memory { IsErrOf result RackError.Memory → ⊥ }
    ensures small { All (λ b. b < 256) (bytes_at pool.new loan.now) }
    ensures long { length (bytes_at pool.new loan.now) ≡ pool.old.size }
{
    let buf = pool.bytes_mut(loan);
    read_front(rack, range, buf)
}
