// What the parities leave of lost slices.
ghost use Rattle.std.specs.Prelude.{◌≡◌, ◌≢◌, ℕ, ◌<◌, ◌≤◌, List, [], ◌∷◌, length, OnOk, IsSome, true};
ghost use Rattle.btr_chunk.specs.Mapping.{HasPart};
ghost use Rattle.btr_chunk.specs.declared.place.Part.{Part};
ghost use Rattle.btr_parity.specs.Slices.{IsSlice};
ghost use Rattle.btr_pool.specs.Slots.{IsLive, with_bytes};
ghost use Rattle.btr_read.specs.Layout.{AreOpen};
ghost use Rattle.btr_read.specs.declared.candidate.Candidate.{Candidate};
ghost use Rattle.btr_read.specs.declared.parity.Parity.{Parity};
ghost use Rattle.btr_read.specs.Candidates.{size_of, slice_count, range_of, stands};
ghost use Rattle.btr_read.specs.Sought.{IsRebuilt, Uses};
ghost use Rattle.btr_read.specs.Writing.{AreThreeLoans, OnlyWritesIn};
ghost use Rattle.btr_read.specs.Gathering.{front_for, HasElement, AddsSlice, HasGathered, RowStands, AccountsPart, AccountsGather, AccountsRow};
ghost use Rattle.btr_rack.specs.Rack.{OnlyReads};

use crate::attempt::Unread;
use crate::candidate::Candidate;
use crate::folding::add_slot;
use crate::parity::Parity;
use crate::reading::read_into;
use crate::search::Search;
use btr_chunk::{Part, Profile};
use btr_pool::{Loan, Pool};
use btr_rack::Rack;

// Reads a part that stands into a slot. The error is the part whose read failed.
pub(crate) fn read_part<R: Rack>(
    search: &Search<'_>,
    part: Part,
    rack: &mut R,
    pool: &mut Pool,
    loan: &Loan,
) -> Result<(), Unread>
    requires part { HasPart search.now.chunk.profile (length search.now.chunk.stripes) part }
    requires stands { IsSome (range_of search.now part) }
    requires open { AreOpen (R.seen rack.old).slots search.now.devices }
    requires live { IsLive pool.old loan.now }
    requires fits { size_of search.now ≤ pool.old.size }
    ensures reads { OnlyReads (R.seen rack.old) (R.seen rack.new) }
    ensures kept { (w : List ℕ) × (pool.new ≡ with_bytes pool.old loan.now w) }
    ensures bytes { OnOk result (HasElement (R.seen rack.old).held search.now part pool.new loan.now) }
    ensures slice { OnOk result (IsSlice (size_of search.now) (front_for search.now pool.new loan.now)) }
    ensures account { AccountsPart search.now part (R.seen rack.old) (R.seen rack.new) result }
{
    let Some(range) = search.range(part) else {
        unreachable!();
    };
    match read_into(rack, range, pool, loan) {
        Ok(()) => Ok(()),
        Err(_) => Err(Unread {
            part,
            slot: range.slot,
        }),
    }
}

// Reads a slice that stands into a spare slot, and adds it to what another has of a parity. The error is the part
// whose read failed.
fn add_slice<R: Rack>(
    search: &Search<'_>,
    parity: Parity,
    slice: u32,
    rack: &mut R,
    pool: &mut Pool,
    sum: &Loan,
    spare: &Loan,
) -> Result<(), Unread>
    requires part { HasPart search.now.chunk.profile (length search.now.chunk.stripes) (Part.Slice slice) }
    requires stands { IsSome (range_of search.now (Part.Slice slice)) }
    requires few { slice ≤ 62 }
    requires open { AreOpen (R.seen rack.old).slots search.now.devices }
    requires live { IsLive pool.old sum.now }
    requires spare_live { IsLive pool.old spare.now }
    requires apart { sum.now ≢ spare.now }
    requires fits { size_of search.now ≤ pool.old.size }
    ensures reads { OnlyReads (R.seen rack.old) (R.seen rack.new) }
    ensures pool { OnlyWritesIn (spare.now ∷ sum.now ∷ []) pool.old pool.new }
    ensures bytes { OnOk result (AddsSlice (R.seen rack.old).held search.now slice parity sum.now pool.old pool.new) }
    ensures account { AccountsPart search.now (Part.Slice slice) (R.seen rack.old) (R.seen rack.new) result }
{
    read_part(search, Part::Slice(slice), rack, pool, spare)?;
    add_slot(parity, pool, sum, spare, search.size(), slice as u8);
    Ok(())
}

// Reads a slice that stands into a spare slot, and adds it to what two others have of P and of Q. The error is the part
// whose read failed.
fn add_slice_to_both<R: Rack>(
    search: &Search<'_>,
    slice: u32,
    rack: &mut R,
    pool: &mut Pool,
    p: &Loan,
    q: &Loan,
    spare: &Loan,
) -> Result<(), Unread>
    requires part { HasPart search.now.chunk.profile (length search.now.chunk.stripes) (Part.Slice slice) }
    requires stands { IsSome (range_of search.now (Part.Slice slice)) }
    requires few { slice ≤ 62 }
    requires open { AreOpen (R.seen rack.old).slots search.now.devices }
    requires p_live { IsLive pool.old p.now }
    requires q_live { IsLive pool.old q.now }
    requires spare_live { IsLive pool.old spare.now }
    requires sums_apart { p.now ≢ q.now }
    requires p_apart { p.now ≢ spare.now }
    requires q_apart { q.now ≢ spare.now }
    requires fits { size_of search.now ≤ pool.old.size }
    ensures reads { OnlyReads (R.seen rack.old) (R.seen rack.new) }
    ensures pool { OnlyWritesIn (q.now ∷ spare.now ∷ p.now ∷ []) pool.old pool.new }
    ensures of_p { OnOk result (AddsSlice (R.seen rack.old).held search.now slice Parity.P p.now pool.old pool.new) }
    ensures of_q { OnOk result (AddsSlice (R.seen rack.old).held search.now slice Parity.Q q.now pool.old pool.new) }
    ensures account { AccountsPart search.now (Part.Slice slice) (R.seen rack.old) (R.seen rack.new) result }
{
    read_part(search, Part::Slice(slice), rack, pool, spare)?;
    add_slot(Parity::P, pool, p, spare, search.size(), slice as u8);
    add_slot(Parity::Q, pool, q, spare, search.size(), slice as u8);
    Ok(())
}

// Reads a parity less the slices that a candidate reads, each by way of a spare slot. The error is the part whose read
// failed.
pub(crate) fn gather<R: Rack>(
    search: &Search<'_>,
    candidate: Candidate,
    parity: Parity,
    rack: &mut R,
    pool: &mut Pool,
    sum: &Loan,
    spare: &Loan,
) -> Result<(), Unread>
    requires rebuilt { IsRebuilt search.now candidate }
    requires stands { stands search.now candidate ≡ true }
    requires uses { Uses parity candidate }
    requires open { AreOpen (R.seen rack.old).slots search.now.devices }
    requires live { IsLive pool.old sum.now }
    requires spare_live { IsLive pool.old spare.now }
    requires apart { sum.now ≢ spare.now }
    requires fits { size_of search.now ≤ pool.old.size }
    ensures reads { OnlyReads (R.seen rack.old) (R.seen rack.new) }
    ensures pool { OnlyWritesIn (spare.now ∷ sum.now ∷ []) pool.old pool.new }
    ensures bytes { OnOk result (HasGathered (R.seen rack.old).held search.now candidate parity pool.new sum.now) }
    ensures account { AccountsGather search.now candidate (R.seen rack.old) (R.seen rack.new) result }
    ensures sought { OnOk result ((search.now.at.index < slice_count search.now) × (slice_count search.now ≤ 63)) }
{
    read_part(search, parity.part(), rack, pool, sum)?;
    for slice in 0..search.slice_count() {
        if search.reads(candidate, slice) {
            add_slice(search, parity, slice, rack, pool, sum, spare)?;
        }
    }
    Ok(())
}

// Reads P and Q less the slices that a candidate reads, each of which is read once, by way of a spare slot. The error is
// the part whose read failed.
pub(crate) fn gather_both<R: Rack>(
    search: &Search<'_>,
    candidate: Candidate,
    rack: &mut R,
    pool: &mut Pool,
    p: &Loan,
    q: &Loan,
    spare: &Loan,
) -> Result<(), Unread>
    requires profile { search.now.chunk.profile ≡ Profile.Raid6 }
    requires stands { RowStands search.now candidate }
    requires open { AreOpen (R.seen rack.old).slots search.now.devices }
    requires loans { AreThreeLoans pool.old p.now q.now spare.now }
    requires fits { size_of search.now ≤ pool.old.size }
    ensures reads { OnlyReads (R.seen rack.old) (R.seen rack.new) }
    ensures pool { OnlyWritesIn (q.now ∷ spare.now ∷ p.now ∷ []) pool.old pool.new }
    ensures of_p { OnOk result (HasGathered (R.seen rack.old).held search.now candidate Parity.P pool.new p.now) }
    ensures of_q { OnOk result (HasGathered (R.seen rack.old).held search.now candidate Parity.Q pool.new q.now) }
    ensures account { AccountsRow search.now candidate (R.seen rack.old) (R.seen rack.new) result }
    ensures sought { OnOk result ((search.now.at.index < slice_count search.now) × (slice_count search.now ≤ 63)) }
{
    read_part(search, Part::P, rack, pool, p)?;
    read_part(search, Part::Q, rack, pool, q)?;
    for slice in 0..search.slice_count() {
        if search.reads(candidate, slice) {
            add_slice_to_both(search, slice, rack, pool, p, q, spare)?;
        }
    }
    Ok(())
}
