// The candidates by parities of a row with P and Q, from what these leave of the slice that is sought: each less all other
// slices. So all of them take two reads of each other slice at most.
ghost use Rattle.std.specs.Prelude.{◌≡◌, ◌<◌, ◌≤◌, [], ◌∷◌, Option, OnOk};
ghost use Rattle.btr_pool.specs.Slots.{bytes_at};
ghost use Rattle.btr_rack.specs.Rack.{OnlyReads};
ghost use Rattle.btr_read.specs.Layout.{AreOpen};
ghost use Rattle.btr_read.specs.Candidates.{candidates, size_of, slice_count, ways};
ghost use Rattle.btr_read.specs.Sought.{IsRebuilt};
ghost use Rattle.btr_read.specs.Gathering.{HasPairValue, HasValue, HaveSyndromes, RowStands, AccountsRow, IsOfRow};
ghost use Rattle.btr_read.specs.Trial.{FitsSyndromes, TriesOn, IfStopped};
ghost use Rattle.btr_read.specs.Writing.{AreRowSlots, OnlyWritesIn};
ghost use Rattle.btr_read.specs.declared.candidate.Candidate.{Candidate};

use crate::attempt::{Trial, Unread, ended_after, passed_after};
use crate::candidate::Candidate;
use crate::folding::copy_slot;
use crate::gathering::{gather_both, read_part};
use crate::row_slots::RowSlots;
use crate::search::Search;
use crate::solving::{divide, solve_with};
use btr_chunk::{Part, Profile};
use btr_pool::Pool;
use btr_rack::Rack;

// Tries all candidates by parities of a row of which P, Q and all other slices stand, by way of three other slots.
pub(crate) fn try_row<R: Rack>(
    search: &Search<'_>,
    failed: Option<usize>,
    rack: &mut R,
    pool: &mut Pool,
    slots: &RowSlots<'_>,
) -> Trial
    requires profile { search.now.chunk.profile ≡ Profile.Raid6 }
    requires order { candidates search.now ≡ ways search.now }
    requires stands { RowStands search.now Candidate.ByP }
    requires open { AreOpen (R.seen rack.old).slots search.now.devices }
    requires loans { AreRowSlots pool.old slots.now }
    requires fits { size_of search.now ≤ pool.old.size }
    ensures reads { OnlyReads (R.seen rack.old) (R.seen rack.new) }
    ensures pool { OnlyWritesIn (slots.now.q.now ∷ slots.now.spare.now ∷ slots.now.p.now ∷ slots.now.sought.now ∷ []) pool.old pool.new }
    ensures trial { TriesOn search.now failed 1 (R.seen rack.old) (R.seen rack.new) pool.new slots.now.sought.now result }
    ensures part { IfStopped (IsOfRow search.now Candidate.ByP) result }
{
    match gather_both(
        search,
        Candidate::ByP,
        rack,
        pool,
        slots.p,
        slots.q,
        slots.spare,
    ) {
        Ok(()) => try_syndromes(search, failed, rack, pool, slots),
        Err(unread) => Trial::Stopped(1, unread),
    }
}

// Tries all candidates by parities, where two slots have the syndromes.
fn try_syndromes<R: Rack>(
    search: &Search<'_>,
    failed: Option<usize>,
    rack: &mut R,
    pool: &mut Pool,
    slots: &RowSlots<'_>,
) -> Trial
    requires profile { search.now.chunk.profile ≡ Profile.Raid6 }
    requires order { candidates search.now ≡ ways search.now }
    requires stands { RowStands search.now Candidate.ByP }
    requires open { AreOpen (R.seen rack.old).slots search.now.devices }
    requires loans { AreRowSlots pool.old slots.now }
    requires fits { size_of search.now ≤ pool.old.size }
    requires sought { search.now.at.index < slice_count search.now }
    requires few { slice_count search.now ≤ 63 }
    requires syndromes { HaveSyndromes (R.seen rack.old).held search.now pool.old slots.now.p.now slots.now.q.now }
    ensures reads { OnlyReads (R.seen rack.old) (R.seen rack.new) }
    ensures pool { OnlyWritesIn (slots.now.q.now ∷ slots.now.spare.now ∷ slots.now.sought.now ∷ []) pool.old pool.new }
    ensures trial { TriesOn search.now failed 1 (R.seen rack.old) (R.seen rack.new) pool.new slots.now.sought.now result }
    ensures part { IfStopped (IsOfRow search.now Candidate.ByP) result }
{
    for k in 1..search.candidate_count() {
        let candidate = search.candidate(k);
        match try_by_syndromes(search, candidate, rack, pool, slots) {
            Ok(passes) => {
                if passes {
                    return Trial::Ended(passed_after(failed));
                }
            }
            Err(unread) => return Trial::Stopped(k, unread),
        }
    }
    Trial::Ended(ended_after(failed))
}

// Rebuilds a slice by a candidate from the syndromes, which stand behind it as before, and tests it.
fn try_by_syndromes<R: Rack>(
    search: &Search<'_>,
    candidate: Candidate,
    rack: &mut R,
    pool: &mut Pool,
    slots: &RowSlots<'_>,
) -> Result<bool, Unread>
    requires rebuilt { IsRebuilt search.now candidate }
    requires stands { RowStands search.now Candidate.ByP }
    requires open { AreOpen (R.seen rack.old).slots search.now.devices }
    requires loans { AreRowSlots pool.old slots.now }
    requires fits { size_of search.now ≤ pool.old.size }
    requires sought { search.now.at.index < slice_count search.now }
    requires few { slice_count search.now ≤ 63 }
    requires syndromes { HaveSyndromes (R.seen rack.old).held search.now pool.old slots.now.p.now slots.now.q.now }
    ensures reads { OnlyReads (R.seen rack.old) (R.seen rack.new) }
    ensures pool { OnlyWritesIn (slots.now.q.now ∷ slots.now.spare.now ∷ slots.now.sought.now ∷ []) pool.old pool.new }
    ensures value { FitsSyndromes search.now candidate (R.seen rack.old) (bytes_at pool.new slots.now.sought.now) result }
    ensures syndromes { OnOk result (HaveSyndromes (R.seen rack.old).held search.now pool.new slots.now.p.now slots.now.q.now) }
    ensures account { AccountsRow search.now Candidate.ByP (R.seen rack.old) (R.seen rack.new) result }
{
    rebuild_by_syndromes(search, candidate, rack, pool, slots)?;
    Ok(search.passes(&pool.bytes(slots.sought)[..search.size()]))
}

// Rebuilds a slice by a candidate from the syndromes, which stand behind it as before.
fn rebuild_by_syndromes<R: Rack>(
    search: &Search<'_>,
    candidate: Candidate,
    rack: &mut R,
    pool: &mut Pool,
    slots: &RowSlots<'_>,
) -> Result<(), Unread>
    requires rebuilt { IsRebuilt search.now candidate }
    requires stands { RowStands search.now Candidate.ByP }
    requires open { AreOpen (R.seen rack.old).slots search.now.devices }
    requires loans { AreRowSlots pool.old slots.now }
    requires fits { size_of search.now ≤ pool.old.size }
    requires sought { search.now.at.index < slice_count search.now }
    requires few { slice_count search.now ≤ 63 }
    requires syndromes { HaveSyndromes (R.seen rack.old).held search.now pool.old slots.now.p.now slots.now.q.now }
    ensures reads { OnlyReads (R.seen rack.old) (R.seen rack.new) }
    ensures pool { OnlyWritesIn (slots.now.q.now ∷ slots.now.spare.now ∷ slots.now.sought.now ∷ []) pool.old pool.new }
    ensures value { OnOk result (HasValue (R.seen rack.old).held search.now candidate pool.new slots.now.sought.now) }
    ensures syndromes { OnOk result (HaveSyndromes (R.seen rack.old).held search.now pool.new slots.now.p.now slots.now.q.now) }
    ensures account { AccountsRow search.now Candidate.ByP (R.seen rack.old) (R.seen rack.new) result }
{
    let len = search.size();
    let index = search.index() as u8;
    match candidate {
        Candidate::Read(_) => unreachable!(),
        Candidate::ByP => {
            copy_slot(pool, slots.sought, slots.p, len);
            Ok(())
        }
        Candidate::ByQ => {
            copy_slot(pool, slots.sought, slots.q, len);
            divide(pool, slots.sought, len, index);
            Ok(())
        }
        Candidate::ByBoth(other) => solve_pair(search, other, rack, pool, slots),
    }
}

// Reads a slice once more, and solves for the slice that is sought without it.
fn solve_pair<R: Rack>(
    search: &Search<'_>,
    other: u32,
    rack: &mut R,
    pool: &mut Pool,
    slots: &RowSlots<'_>,
) -> Result<(), Unread>
    requires rebuilt { IsRebuilt search.now (Candidate.ByBoth other) }
    requires stands { RowStands search.now Candidate.ByP }
    requires open { AreOpen (R.seen rack.old).slots search.now.devices }
    requires loans { AreRowSlots pool.old slots.now }
    requires fits { size_of search.now ≤ pool.old.size }
    requires sought { search.now.at.index < slice_count search.now }
    requires few { slice_count search.now ≤ 63 }
    requires syndromes { HaveSyndromes (R.seen rack.old).held search.now pool.old slots.now.p.now slots.now.q.now }
    ensures reads { OnlyReads (R.seen rack.old) (R.seen rack.new) }
    ensures pool { OnlyWritesIn (slots.now.q.now ∷ slots.now.spare.now ∷ slots.now.sought.now ∷ []) pool.old pool.new }
    ensures value { OnOk result (HasPairValue (R.seen rack.old).held search.now other pool.new slots.now.sought.now) }
    ensures syndromes { OnOk result (HaveSyndromes (R.seen rack.old).held search.now pool.new slots.now.p.now slots.now.q.now) }
    ensures account { AccountsRow search.now Candidate.ByP (R.seen rack.old) (R.seen rack.new) result }
{
    read_part(search, Part::Slice(other), rack, pool, slots.spare)?;
    let len = search.size();
    let index = search.index() as u8;
    solve_with(pool, slots, len, index, other as u8);
    Ok(())
}
