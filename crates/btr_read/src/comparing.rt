// Whether the candidates of a block agree.
ghost use Rattle.std.specs.Prelude.{◌≡◌, ◌≢◌, ◌+◌, ◌^◌, ◌<◌, ◌≤◌, IfSome, length, take, slice_index_or, None};
ghost use Rattle.btr_pool.specs.Slots.{IsLive, bytes_at, free_count as free_slots, loans_of};
ghost use Rattle.btr_rack.specs.Rack.{OnlyReads};
ghost use Rattle.btr_read.specs.Candidates.{candidates, size_of};
ghost use Rattle.btr_read.specs.Comparing.{Compares, FindsFirst, FindsOther, GoesOnFrom, differ};
ghost use Rattle.btr_read.specs.Finding.{SameShape};
ghost use Rattle.btr_read.specs.Gathering.{front_for};
ghost use Rattle.btr_read.specs.Layout.{AreOpen};
ghost use Rattle.btr_read.specs.Serves.{Serves};
ghost use Rattle.btr_read.specs.Store.{SameLoans, free_count};
ghost use Rattle.btr_read.specs.Writing.{OnlyWrites, StillKept};

use crate::attempt::Attempt;
use crate::fetching::locate;
use crate::kept::{Kept, take_least};
use crate::search::Search;
use crate::trying::try_candidate;
use crate::{Store, Want};
use btr_pool::{Loan, Pool};
use btr_rack::Rack;

// The bytes in front of a block that its checksum has room in.
const SUM_FIELD: usize = 32;

// Whether two blocks differ behind the field of the checksum.
fn differ(first: &[u8], other: &[u8]) -> bool
    requires first { 32 ≤ length first.now }
    requires other { 32 ≤ length other.now }
    ensures { result ≡ differ first.now other.now }
{
    first[SUM_FIELD..] != other[SUM_FIELD..]
}

// The same of the blocks in two slots.
fn slots_differ(pool: &Pool, first: &Loan, other: &Loan, len: usize) -> bool
    requires first { IsLive pool.now first.now }
    requires other { IsLive pool.now other.now }
    requires large { 32 ≤ len }
    requires fits { len ≤ pool.now.size }
    ensures { result ≡ differ (take len (bytes_at pool.now first.now)) (take len (bytes_at pool.now other.now)) }
{
    differ(&pool.bytes(first)[..len], &pool.bytes(other)[..len])
}

// The place of the first candidate that passes, whose block stands in the slot then. A read that fails ends its candidate alone.
fn find_first<R: Rack>(
    search: &Search<'_>,
    rack: &mut R,
    pool: &mut Pool,
    kept: &mut Kept,
    loan: &Loan,
) -> Option<u32>
    requires open { AreOpen (R.seen rack.old).slots search.now.devices }
    requires live { IsLive pool.old loan.now }
    requires room { 2 ≤ free_slots pool.old }
    requires count { length pool.old.bytes ≡ 24 }
    requires fits { size_of search.now ≤ pool.old.size }
    requires forgotten { slice_index_or kept.old.wants loan.now None ≡ None }
    ensures reads { OnlyReads (R.seen rack.old) (R.seen rack.new) }
    ensures pool { OnlyWrites loan.now pool.old pool.new }
    ensures kept { StillKept kept.old.wants kept.new.wants pool.old pool.new }
    ensures nodes { kept.new.nodes ≡ kept.old.nodes }
    ensures few { IfSome result (λ place. place + 1 < 2 ^ 32) }
    ensures first { FindsFirst search.now (R.seen rack.old) (R.seen rack.new) (front_for search.now pool.new loan.now) result }
{
    for k in 0..search.candidate_count() {
        match try_candidate(search, search.candidate(k), rack, pool, kept, loan) {
            Attempt::Passed => return Some(k),
            Attempt::Differs => {}
            Attempt::Absent => {}
            Attempt::Failed(_) => {}
        }
    }
    None
}

// The place of the first candidate, from a place on, that passes and differs from the block in a slot; by way of another one.
fn find_differing<R: Rack>(
    search: &Search<'_>,
    from: u32,
    rack: &mut R,
    pool: &mut Pool,
    kept: &mut Kept,
    first: &Loan,
    other: &Loan,
) -> Option<u32>
    requires from { from ≤ length (candidates search.now) }
    requires open { AreOpen (R.seen rack.old).slots search.now.devices }
    requires first { IsLive pool.old first.now }
    requires other { IsLive pool.old other.now }
    requires apart { first.now ≢ other.now }
    requires room { 2 ≤ free_slots pool.old }
    requires count { length pool.old.bytes ≡ 24 }
    requires large { 32 ≤ size_of search.now }
    requires fits { size_of search.now ≤ pool.old.size }
    requires forgotten { slice_index_or kept.old.wants other.now None ≡ None }
    ensures reads { OnlyReads (R.seen rack.old) (R.seen rack.new) }
    ensures pool { OnlyWrites other.now pool.old pool.new }
    ensures kept { StillKept kept.old.wants kept.new.wants pool.old pool.new }
    ensures nodes { kept.new.nodes ≡ kept.old.nodes }
    ensures other { GoesOnFrom search.now (front_for search.now pool.old first.now) from (R.seen rack.old) (R.seen rack.new) result }
{
    for k in from..search.candidate_count() {
        match try_candidate(search, search.candidate(k), rack, pool, kept, other) {
            Attempt::Passed => {
                if slots_differ(pool, first, other, search.size()) {
                    return Some(k);
                }
            }
            Attempt::Differs => {}
            Attempt::Absent => {}
            Attempt::Failed(_) => {}
        }
    }
    None
}

// The same, by way of a slot that is given back.
fn find_other<R: Rack>(
    search: &Search<'_>,
    from: u32,
    rack: &mut R,
    pool: &mut Pool,
    kept: &mut Kept,
    first: &Loan,
) -> Option<u32>
    requires from { from ≤ length (candidates search.now) }
    requires open { AreOpen (R.seen rack.old).slots search.now.devices }
    requires first { IsLive pool.old first.now }
    requires room { 3 ≤ free_slots pool.old }
    requires count { length pool.old.bytes ≡ 24 }
    requires large { 32 ≤ size_of search.now }
    requires fits { size_of search.now ≤ pool.old.size }
    ensures reads { OnlyReads (R.seen rack.old) (R.seen rack.new) }
    ensures pool { OnlyWrites first.now pool.old pool.new }
    ensures kept { StillKept kept.old.wants kept.new.wants pool.old pool.new }
    ensures nodes { kept.new.nodes ≡ kept.old.nodes }
    ensures other { GoesOnFrom search.now (front_for search.now pool.old first.now) from (R.seen rack.old) (R.seen rack.new) result }
{
    let other = take_least(pool, kept);
    let found = find_differing(search, from, rack, pool, kept, first, &other);
    pool.give(other);
    found
}

// The place of the first candidate that passes and differs from the first that passes, whose block stands in the slot then.
fn compare_by<R: Rack>(
    search: &Search<'_>,
    rack: &mut R,
    pool: &mut Pool,
    kept: &mut Kept,
    first: &Loan,
) -> Option<u32>
    requires open { AreOpen (R.seen rack.old).slots search.now.devices }
    requires live { IsLive pool.old first.now }
    requires room { 3 ≤ free_slots pool.old }
    requires count { length pool.old.bytes ≡ 24 }
    requires large { 32 ≤ size_of search.now }
    requires fits { size_of search.now ≤ pool.old.size }
    requires forgotten { slice_index_or kept.old.wants first.now None ≡ None }
    ensures reads { OnlyReads (R.seen rack.old) (R.seen rack.new) }
    ensures pool { OnlyWrites first.now pool.old pool.new }
    ensures kept { StillKept kept.old.wants kept.new.wants pool.old pool.new }
    ensures nodes { kept.new.nodes ≡ kept.old.nodes }
    ensures other { FindsOther search.now (R.seen rack.old) (R.seen rack.new) result }
{
    let place = find_first(search, rack, pool, kept, first)?;
    find_other(search, place + 1, rack, pool, kept, first)
}

// The same, by way of a slot that is given back.
fn compare<R: Rack>(
    search: &Search<'_>,
    rack: &mut R,
    pool: &mut Pool,
    kept: &mut Kept,
) -> Option<u32>
    requires open { AreOpen (R.seen rack.old).slots search.now.devices }
    requires room { 4 ≤ free_slots pool.old }
    requires count { length pool.old.bytes ≡ 24 }
    requires whole { length pool.old.bytes ≡ length pool.old.lent }
    requires large { 32 ≤ size_of search.now }
    requires fits { size_of search.now ≤ pool.old.size }
    ensures reads { OnlyReads (R.seen rack.old) (R.seen rack.new) }
    ensures shape { SameShape pool.old pool.new }
    ensures loans { loans_of pool.new ≡ loans_of pool.old }
    ensures kept { StillKept kept.old.wants kept.new.wants pool.old pool.new }
    ensures nodes { kept.new.nodes ≡ kept.old.nodes }
    ensures other { FindsOther search.now (R.seen rack.old) (R.seen rack.new) result }
{
    let first = take_least(pool, kept);
    let found = compare_by(search, rack, pool, kept, &first);
    pool.give(first);
    found
}

/// Compares the candidates of a tree block that can be read and pass, behind the field of the checksum. Where they don't agree, it
/// answers the smallest slot that the first one reads that differs from the first that passes. `None` also where the block has no
/// position. It takes no memory, and the loans are as before.
///
/// Each candidate is tried once, by the reads of its parts; where there is only one, nothing is read. With copies that is a read of
/// each.
///
/// Each device's slot is open in the rack, with the device's length, what the store keeps is what the images hold, and
/// four slots are free. The rack is told to forget the calls that failed before; a candidate of which a read fails is left out.
pub fn compare_candidates<R: Rack>(want: &Want, rack: &mut R, store: &mut Store) -> Option<usize>
    requires serves { Serves (R.seen rack.old) store.old }
    requires room { 4 ≤ free_count store.old }
    ensures serves { Serves (R.seen rack.new) store.new }
    ensures reads { OnlyReads (R.seen rack.old) (R.seen rack.new) }
    ensures loans { SameLoans store.old store.new }
    ensures answer { Compares store.old.layout want.now (R.seen rack.old) (R.seen rack.new) result }
{
    rack.forget();
    let Ok(search) = locate(want, store.setting, &store.chunks, &store.devices) else {
        return None;
    };
    if search.candidate_count() < 2 {
        return None;
    }
    let place = compare(&search, rack, &mut store.pool, &mut store.kept)?;
    search.least_slot(search.candidate(place))
}
