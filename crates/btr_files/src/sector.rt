// The sectors of a file.
ghost use Rattle.std.specs.Prelude.{◌≡◌, ◌≤◌, ◌%◌, not, IfOk, IfSome};
ghost use Rattle.btr_rack.specs.Rack.{OnlyReads};
ghost use Rattle.btr_read.specs.Fate.{is_plain};
ghost use Rattle.btr_read.specs.Serves.{Serves};
ghost use Rattle.btr_read.specs.Store.{free_count};
ghost use Rattle.btr_walk.specs.Reading.{HasCause};
ghost use Rattle.btr_volume.specs.Looking.{SameVolume};
ghost use Rattle.btr_files.specs.Giving.{IsCrcFor, IsSectorWant, LendsSector, PassesFor};
ghost use Rattle.btr_files.specs.Told.{KeepsSums, TellsWant, TellsSector};

use crate::progress::Source;
use crate::sums::{kind_of, sum_ahead};
use crate::sums_ahead::SumsAhead;
use btr_base::{SumKind, u32_at};
use btr_rack::Rack;
use btr_read::{Loan, Store, Want, fetch};
use btr_volume::Volume;
use btr_walk::TreeFault;

// Whether the bytes of a want are tested.
pub(crate) fn is_tested(want: &Want) -> bool
    ensures { result ≡ not (is_plain want.now) }
{
    match want {
        Want::Tree { .. } | Want::Block { .. } | Want::Sector { .. } => true,
        Want::Plain { .. } => false,
    }
}

// The CRC-32C of the first `len` bytes of those that pass for a want: where these are a whole sector, and its checksum is one, which its size tells.
pub(crate) fn crc_of(want: &Want, len: usize) -> Option<u32>
    ensures { IfSome result (λ crc. (len ≡ 4096) × IsCrcFor want.now crc) }
{
    match want {
        Want::Sector { sum, .. } => {
            if len != 4096 || usize::from(sum.size) != SumKind::Crc32c.size() {
                return None;
            }
            Some(u32_at(&sum.bytes, 0))
        }
        Want::Tree { .. } | Want::Block { .. } | Want::Plain { .. } => None,
    }
}

// The want of the sector at an address: by its checksum, if it has one.
pub(crate) fn want_of<R: Rack>(
    source: &Source,
    addr: u64,
    ahead: &mut SumsAhead,
    rack: &mut R,
    vol: &mut Volume,
) -> Result<Want, TreeFault>
    requires serves { Serves (R.seen rack.old) vol.old.store }
    requires room { 4 ≤ free_count vol.old.store }
    requires aligned { addr % 4096 ≡ 0 }
    ensures serves { Serves (R.seen rack.new) vol.new.store }
    ensures reads { OnlyReads (R.seen rack.old) (R.seen rack.new) }
    ensures volume { SameVolume vol.old vol.new }
    ensures sector { IfOk result IsSectorWant }
    ensures cause { HasCause vol.old.store.layout (R.seen rack.old) (R.seen rack.new) result }
    ensures ahead { KeepsSums vol.old (R.seen rack.old) (R.seen rack.new) source.now.sums ahead.old ahead.new }
    ensures content { TellsWant vol.old (R.seen rack.old) (R.seen rack.new) source.now ahead.old addr result }
{
    if source.nosum {
        return Ok(Want::Plain { addr });
    }
    if let Some(sum) = ahead.get(kind_of(&vol.sup), addr) {
        return Ok(Want::Sector { addr, sum });
    }
    match sum_ahead(source.sums.as_ref(), addr, ahead, rack, vol)? {
        None => Ok(Want::Plain { addr }),
        Some(sum) => Ok(Want::Sector { addr, sum }),
    }
}

// Reads a sector.
pub(crate) fn read_sector<R: Rack>(
    want: &Want,
    rack: &mut R,
    store: &mut Store,
) -> Result<Loan, TreeFault>
    requires serves { Serves (R.seen rack.old) store.old }
    requires room { 4 ≤ free_count store.old }
    requires sector { IsSectorWant want.now }
    ensures serves { Serves (R.seen rack.new) store.new }
    ensures reads { OnlyReads (R.seen rack.old) (R.seen rack.new) }
    ensures lent { LendsSector store.old store.new result }
    ensures passes { IfOk result (PassesFor store.old.layout want.now store.new) }
    ensures cause { HasCause store.old.layout (R.seen rack.old) (R.seen rack.new) result }
    ensures content { TellsSector store.old.layout (R.seen rack.old) (R.seen rack.new) want.now store.new result }
{
    Ok(fetch(want, rack, store)?)
}
