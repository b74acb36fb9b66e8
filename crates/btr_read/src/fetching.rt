// A block, from its want to its bytes in a slot.
ghost use Rattle.std.specs.Prelude.{◌≡◌, ◌≤◌, [], IfOk, OnErr, length};
ghost use Rattle.btr_pool.specs.Slots.{loans_of, free_count as free_slots};
ghost use Rattle.btr_rack.specs.Rack.{OnlyReads};
ghost use Rattle.btr_read.specs.Layout.{AreOpen, layout_of};
ghost use Rattle.btr_read.specs.Candidates.{size_of};
ghost use Rattle.btr_read.specs.Fate.{sought};
ghost use Rattle.btr_read.specs.Store.{IsLentBy, SameLoans, free_count};
ghost use Rattle.btr_read.specs.Fetch.{FitsFetch, CountsFetch, CallsFetch, ComesAgain, KeepsLent, IsLocated};
ghost use Rattle.btr_read.specs.Finding.{Finds, SameShape, TakesFound};
ghost use Rattle.btr_read.specs.Serves.{Serves};
ghost use Rattle.btr_read.specs.Writing.{StillNodes};

use crate::attempt::{Missed, TrialOutcome};
use crate::device::Member;
use crate::kept::{Kept, lend_kept, take_least};
use crate::search::Search;
use crate::setting::Setting;
use crate::trying::try_all;
use crate::{Loan, ReadFault, Store, Want};
use btr_chunk::{ChunkTable, MapFault, elements};
use btr_pool::{Loan as Slot, Pool};
use btr_rack::Rack;

// What is sought for a want, or `Unmapped` or `Crosses`.
pub(crate) fn locate<'a>(
    want: &'a Want,
    setting: Setting,
    chunks: &'a ChunkTable,
    devices: &'a [Member],
) -> Result<Search<'a>, ReadFault>
    requires large { 101 ≤ setting.nodesize }
    requires small { setting.nodesize ≤ 65536 }
    ensures { IsLocated (sought (layout_of chunks.now devices.now setting) want.now) result }
{
    let addr = want.addr();
    let Some(chunk) = chunks.find(addr) else {
        return Err(ReadFault::Unmapped(addr));
    };
    match elements(chunk, addr, setting.len(want) as u64) {
        Ok(at) => Ok(Search {
            want,
            setting,
            chunk,
            at,
            devices,
        }),
        Err(MapFault::Unmapped) => Err(ReadFault::Unmapped(addr)),
        Err(MapFault::Crosses) => Err(ReadFault::Crosses(addr)),
    }
}

// Takes a slot and reads into it what is sought; a tree block that came by no failed read is kept in it.
fn find<R: Rack>(
    search: &Search<'_>,
    rack: &mut R,
    pool: &mut Pool,
    kept: &mut Kept,
) -> Result<Slot, Missed>
    requires open { AreOpen (R.seen rack.old).slots search.now.devices }
    requires room { 4 ≤ free_slots pool.old }
    requires count { length pool.old.bytes ≡ 24 }
    requires whole { length pool.old.bytes ≡ length pool.old.lent }
    requires fits { size_of search.now ≤ pool.old.size }
    requires fresh { (R.seen rack.old).account.fresh ≡ 0 }
    requires missed { (R.seen rack.old).account.missed ≡ [] }
    ensures reads { OnlyReads (R.seen rack.old) (R.seen rack.new) }
    ensures shape { SameShape pool.old pool.new }
    ensures taken { IfOk result (TakesFound pool.old pool.new) }
    ensures refused { OnErr result (loans_of pool.new ≡ loans_of pool.old) }
    ensures found { Finds search.now kept.old kept.new pool.old pool.new (R.seen rack.old) (R.seen rack.new) result }
    ensures nodes { StillNodes kept.old.wants kept.old.nodes kept.new.wants kept.new.nodes pool.old pool.new }
{
    let slot = take_least(pool, kept);
    match try_all(search, rack, pool, kept, &slot) {
        TrialOutcome::First => {
            kept.keep(slot.slot(), search.want);
            Ok(slot)
        }
        TrialOutcome::Later => Ok(slot),
        TrialOutcome::Lost => {
            pool.give(slot);
            Err(Missed::Lost)
        }
        TrialOutcome::Unread(image) => {
            pool.give(slot);
            Err(Missed::Unread(image))
        }
    }
}

/// Fetches a block: lends a slot with the bytes of a candidate that stands and passes; of the first one, where no read
/// failed. A tree block that came by no failed read is kept while its slot isn't taken for another: until then it is
/// lent again without a read. It takes no memory. After a refusal the loans are as before.
///
/// After a failed read the candidates that need what couldn't be read come last. A lost block of a row of k slices with P
/// and Q takes at most 2k + 1 reads where all others stand, none fails and no candidate reads an older image.
///
/// Each device's slot is open in the rack, with the device's length, what the store keeps is what the images hold, and
/// four slots are free. The rack is told to forget the calls that failed before; after each answer but `Unread` it
/// counts none.
///
/// `Unmapped`: no chunk holds the address. `Crosses`: the block passes the end of its chunk or, in a profile with rows,
/// of an element. `Lost`: no candidate passes, and no read failed. `Unread`: a read failed, and each candidate that
/// passes reads a range in which a read failed; it doesn't come from a rack that is sure.
pub fn fetch<R: Rack>(want: &Want, rack: &mut R, store: &mut Store) -> Result<Loan, ReadFault>
    requires serves { Serves (R.seen rack.old) store.old }
    requires room { 4 ≤ free_count store.old }
    ensures serves { Serves (R.seen rack.new) store.new }
    ensures reads { OnlyReads (R.seen rack.old) (R.seen rack.new) }
    ensures account { CountsFetch store.old.layout want.now (R.seen rack.old) (R.seen rack.new) result }
    ensures lent { IfOk result (IsLentBy store.old store.new want.now) }
    ensures refused { OnErr result (SameLoans store.old store.new) }
    ensures again { ComesAgain want.now store.old (R.seen rack.old).account (R.seen rack.new).account result }
    ensures keeps { IfOk result (KeepsLent want.now store.new (R.seen rack.old).account (R.seen rack.new).account) }
    ensures answer { FitsFetch store.old.layout want.now (R.seen rack.old) (R.seen rack.new) store.new result }
    ensures calls { CallsFetch store.old.layout want.now (R.seen rack.old) (R.seen rack.new) store.new result }
{
    rack.forget();
    if let Some(slot) = lend_kept(want, &mut store.pool, &mut store.kept) {
        let len = store.setting.len(want);
        return Ok(Loan { slot, len });
    }
    let search = locate(want, store.setting, &store.chunks, &store.devices)?;
    let len = search.size();
    let slot = match find(&search, rack, &mut store.pool, &mut store.kept) {
        Ok(slot) => {
            rack.forget();
            slot
        }
        Err(missed) => return Err(missed.fault(want.addr())),
    };
    Ok(Loan { slot, len })
}
