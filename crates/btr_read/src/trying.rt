// The candidates of a search, tried in their order.
ghost use Rattle.std.specs.Prelude.{◌≡◌, ℕ, ◌<◌, ◌≤◌, [], List, length, slice_index_or, Some, None};
ghost use Rattle.btr_chunk.specs.Mapping.{HasPart};
ghost use Rattle.btr_pool.specs.Slots.{IsLive, bytes_at, with_bytes, free_count};
ghost use Rattle.btr_read.specs.Layout.{AreOpen};
ghost use Rattle.btr_read.specs.Candidates.{candidates, size_of, ways};
ghost use Rattle.btr_read.specs.Sought.{CanTry, IsRebuilt};
ghost use Rattle.btr_read.specs.Attempt.{FitsAttempt, FitsPart, AccountsAttempt, FitsOutcome};
ghost use Rattle.btr_read.specs.declared.candidate.Candidate.{Candidate};
ghost use Rattle.btr_read.specs.Writing.{OnlyWrites, StillKept};
ghost use Rattle.btr_read.specs.Gathering.{IsOfRow, RowStands};
ghost use Rattle.btr_read.specs.Trial.{TriesOn, EndsFrom, EndsAround, IfStopped};
ghost use Rattle.btr_rack.specs.Rack.{OnlyReads};

use crate::attempt::{Attempt, Trial, TrialOutcome, Unread, ended_after, passed_after};
use crate::candidate::Candidate;
use crate::kept::{Kept, take_least};
use crate::reading::read_into;
use crate::rebuilding::try_rebuilt;
use crate::row_slots::RowSlots;
use crate::search::Search;
use crate::syndromes::try_row;
use btr_chunk::{Part, Profile};
use btr_pool::{Loan, Pool};
use btr_rack::Rack;

// Reads a part, and tests it.
pub(crate) fn try_part<R: Rack>(
    search: &Search<'_>,
    part: Part,
    rack: &mut R,
    pool: &mut Pool,
    loan: &Loan,
) -> Attempt
    requires part { HasPart search.now.chunk.profile (length search.now.chunk.stripes) part }
    requires open { AreOpen (R.seen rack.old).slots search.now.devices }
    requires live { IsLive pool.old loan.now }
    requires fits { size_of search.now ≤ pool.old.size }
    ensures reads { OnlyReads (R.seen rack.old) (R.seen rack.new) }
    ensures kept { (w : List ℕ) × (pool.new ≡ with_bytes pool.old loan.now w) }
    ensures attempt { FitsPart search.now part (R.seen rack.old).held (bytes_at pool.new loan.now) result }
    ensures account { AccountsAttempt search.now (Candidate.Read part) (R.seen rack.old) (R.seen rack.new) result }
{
    let Some(range) = search.range(part) else {
        return Attempt::Absent;
    };
    match read_into(rack, range, pool, loan) {
        Ok(()) => {
            if search.passes(&pool.bytes(loan)[..search.size()]) {
                Attempt::Passed
            } else {
                Attempt::Differs
            }
        }
        Err(_) => Attempt::Failed(range.slot),
    }
}

// Tries a candidate.
pub(crate) fn try_candidate<R: Rack>(
    search: &Search<'_>,
    candidate: Candidate,
    rack: &mut R,
    pool: &mut Pool,
    kept: &mut Kept,
    loan: &Loan,
) -> Attempt
    requires can { CanTry search.now candidate }
    requires open { AreOpen (R.seen rack.old).slots search.now.devices }
    requires live { IsLive pool.old loan.now }
    requires room { 2 ≤ free_count pool.old }
    requires count { length pool.old.bytes ≡ 24 }
    requires fits { size_of search.now ≤ pool.old.size }
    requires forgotten { slice_index_or kept.old.wants loan.now None ≡ None }
    ensures reads { OnlyReads (R.seen rack.old) (R.seen rack.new) }
    ensures pool { OnlyWrites loan.now pool.old pool.new }
    ensures kept { StillKept kept.old.wants kept.new.wants pool.old pool.new }
    ensures nodes { kept.new.nodes ≡ kept.old.nodes }
    ensures attempt { FitsAttempt search.now candidate (R.seen rack.old).held (bytes_at pool.new loan.now) result }
    ensures account { AccountsAttempt search.now candidate (R.seen rack.old) (R.seen rack.new) result }
{
    match candidate {
        Candidate::Read(part) => try_part(search, part, rack, pool, loan),
        Candidate::ByP => try_with_spares(search, Candidate::ByP, rack, pool, kept, loan),
        Candidate::ByQ => try_with_spares(search, Candidate::ByQ, rack, pool, kept, loan),
        Candidate::ByBoth(other) => {
            try_with_spares(search, Candidate::ByBoth(other), rack, pool, kept, loan)
        }
    }
}

// Tries a candidate by parities, by way of two slots that are given back.
fn try_with_spares<R: Rack>(
    search: &Search<'_>,
    candidate: Candidate,
    rack: &mut R,
    pool: &mut Pool,
    kept: &mut Kept,
    loan: &Loan,
) -> Attempt
    requires rebuilt { IsRebuilt search.now candidate }
    requires open { AreOpen (R.seen rack.old).slots search.now.devices }
    requires live { IsLive pool.old loan.now }
    requires room { 2 ≤ free_count pool.old }
    requires count { length pool.old.bytes ≡ 24 }
    requires fits { size_of search.now ≤ pool.old.size }
    requires forgotten { slice_index_or kept.old.wants loan.now None ≡ None }
    ensures reads { OnlyReads (R.seen rack.old) (R.seen rack.new) }
    ensures pool { OnlyWrites loan.now pool.old pool.new }
    ensures kept { StillKept kept.old.wants kept.new.wants pool.old pool.new }
    ensures nodes { kept.new.nodes ≡ kept.old.nodes }
    ensures attempt { FitsAttempt search.now candidate (R.seen rack.old).held (bytes_at pool.new loan.now) result }
    ensures account { AccountsAttempt search.now candidate (R.seen rack.old) (R.seen rack.new) result }
{
    let q = take_least(pool, kept);
    let spare = take_least(pool, kept);
    let attempt = try_rebuilt(search, candidate, rack, pool, loan, &q, &spare);
    pool.give(spare);
    pool.give(q);
    attempt
}

// Tries the candidates from a place in their order on, up to the first that passes. A read that fails ends its candidate
// alone.
fn try_from<R: Rack>(
    search: &Search<'_>,
    from: u32,
    mut failed: Option<usize>,
    rack: &mut R,
    pool: &mut Pool,
    kept: &mut Kept,
    loan: &Loan,
) -> TrialOutcome
    requires open { AreOpen (R.seen rack.old).slots search.now.devices }
    requires live { IsLive pool.old loan.now }
    requires room { 2 ≤ free_count pool.old }
    requires count { length pool.old.bytes ≡ 24 }
    requires fits { size_of search.now ≤ pool.old.size }
    requires forgotten { slice_index_or kept.old.wants loan.now None ≡ None }
    ensures reads { OnlyReads (R.seen rack.old) (R.seen rack.new) }
    ensures pool { OnlyWrites loan.now pool.old pool.new }
    ensures kept { StillKept kept.old.wants kept.new.wants pool.old pool.new }
    ensures nodes { kept.new.nodes ≡ kept.old.nodes }
    ensures outcome { EndsFrom search.now failed from (R.seen rack.old) (R.seen rack.new) pool.new loan.now result }
{
    for k in from..search.candidate_count() {
        match try_candidate(search, search.candidate(k), rack, pool, kept, loan) {
            Attempt::Passed => return passed_after(failed),
            Attempt::Differs => {}
            Attempt::Absent => {}
            Attempt::Failed(slot) => failed = Some(slot),
        }
    }
    ended_after(failed)
}

// Tries the candidates by parities of a row that stands, by way of three slots that are given back.
fn try_by_parities<R: Rack>(
    search: &Search<'_>,
    failed: Option<usize>,
    rack: &mut R,
    pool: &mut Pool,
    kept: &mut Kept,
    loan: &Loan,
) -> Trial
    requires profile { search.now.chunk.profile ≡ Profile.Raid6 }
    requires order { candidates search.now ≡ ways search.now }
    requires stands { RowStands search.now Candidate.ByP }
    requires open { AreOpen (R.seen rack.old).slots search.now.devices }
    requires live { IsLive pool.old loan.now }
    requires room { 3 ≤ free_count pool.old }
    requires count { length pool.old.bytes ≡ 24 }
    requires fits { size_of search.now ≤ pool.old.size }
    requires forgotten { slice_index_or kept.old.wants loan.now None ≡ None }
    ensures reads { OnlyReads (R.seen rack.old) (R.seen rack.new) }
    ensures pool { OnlyWrites loan.now pool.old pool.new }
    ensures kept { StillKept kept.old.wants kept.new.wants pool.old pool.new }
    ensures nodes { kept.new.nodes ≡ kept.old.nodes }
    ensures trial { TriesOn search.now failed 1 (R.seen rack.old) (R.seen rack.new) pool.new loan.now result }
    ensures part { IfStopped (IsOfRow search.now Candidate.ByP) result }
{
    let p = take_least(pool, kept);
    let q = take_least(pool, kept);
    let spare = take_least(pool, kept);
    let slots = RowSlots {
        sought: loan,
        p: &p,
        q: &q,
        spare: &spare,
    };
    let trial = try_row(search, failed, rack, pool, &slots);
    pool.give(spare);
    pool.give(q);
    pool.give(p);
    trial
}

// Goes on where the read of a part failed: with the candidate that doesn't need it, and then from a place in their order on.
fn try_around<R: Rack>(
    search: &Search<'_>,
    tried: u32,
    unread: Unread,
    rack: &mut R,
    pool: &mut Pool,
    kept: &mut Kept,
    loan: &Loan,
) -> TrialOutcome
    requires profile { search.now.chunk.profile ≡ Profile.Raid6 }
    requires part { IsOfRow search.now Candidate.ByP unread.part }
    requires open { AreOpen (R.seen rack.old).slots search.now.devices }
    requires live { IsLive pool.old loan.now }
    requires room { 2 ≤ free_count pool.old }
    requires count { length pool.old.bytes ≡ 24 }
    requires fits { size_of search.now ≤ pool.old.size }
    requires forgotten { slice_index_or kept.old.wants loan.now None ≡ None }
    ensures reads { OnlyReads (R.seen rack.old) (R.seen rack.new) }
    ensures pool { OnlyWrites loan.now pool.old pool.new }
    ensures kept { StillKept kept.old.wants kept.new.wants pool.old pool.new }
    ensures nodes { kept.new.nodes ≡ kept.old.nodes }
    ensures outcome { EndsAround search.now unread tried (R.seen rack.old) (R.seen rack.new) pool.new loan.now result }
{
    let other = search.candidate(search.without(unread.part));
    let last = match try_candidate(search, other, rack, pool, kept, loan) {
        Attempt::Passed => return TrialOutcome::Later,
        Attempt::Differs => unread.slot,
        Attempt::Absent => unread.slot,
        Attempt::Failed(slot) => slot,
    };
    try_from(search, tried, Some(last), rack, pool, kept, loan)
}

// Tries the candidates behind the slice itself, in a row with P and Q.
fn try_behind<R: Rack>(
    search: &Search<'_>,
    failed: Option<usize>,
    rack: &mut R,
    pool: &mut Pool,
    kept: &mut Kept,
    loan: &Loan,
) -> TrialOutcome
    requires profile { search.now.chunk.profile ≡ Profile.Raid6 }
    requires order { candidates search.now ≡ ways search.now }
    requires open { AreOpen (R.seen rack.old).slots search.now.devices }
    requires live { IsLive pool.old loan.now }
    requires room { 3 ≤ free_count pool.old }
    requires count { length pool.old.bytes ≡ 24 }
    requires fits { size_of search.now ≤ pool.old.size }
    requires forgotten { slice_index_or kept.old.wants loan.now None ≡ None }
    ensures reads { OnlyReads (R.seen rack.old) (R.seen rack.new) }
    ensures pool { OnlyWrites loan.now pool.old pool.new }
    ensures kept { StillKept kept.old.wants kept.new.wants pool.old pool.new }
    ensures nodes { kept.new.nodes ≡ kept.old.nodes }
    ensures outcome { EndsFrom search.now failed 1 (R.seen rack.old) (R.seen rack.new) pool.new loan.now result }
{
    if !search.row_stands() {
        return try_from(search, 1, failed, rack, pool, kept, loan);
    }
    match try_by_parities(search, failed, rack, pool, kept, loan) {
        Trial::Ended(outcome) => outcome,
        Trial::Stopped(tried, unread) => {
            try_around(search, tried, unread, rack, pool, kept, loan)
        }
    }
}

// Tries the candidates up to the first that passes: in their order, but that after a failed read those that need what
// couldn't be read come last. A read that fails ends its candidate alone.
pub(crate) fn try_all<R: Rack>(
    search: &Search<'_>,
    rack: &mut R,
    pool: &mut Pool,
    kept: &mut Kept,
    loan: &Loan,
) -> TrialOutcome
    requires open { AreOpen (R.seen rack.old).slots search.now.devices }
    requires live { IsLive pool.old loan.now }
    requires room { 3 ≤ free_count pool.old }
    requires count { length pool.old.bytes ≡ 24 }
    requires fits { size_of search.now ≤ pool.old.size }
    requires forgotten { slice_index_or kept.old.wants loan.now None ≡ None }
    requires fresh { (R.seen rack.old).account.fresh ≡ 0 }
    requires missed { (R.seen rack.old).account.missed ≡ [] }
    ensures reads { OnlyReads (R.seen rack.old) (R.seen rack.new) }
    ensures pool { OnlyWrites loan.now pool.old pool.new }
    ensures kept { StillKept kept.old.wants kept.new.wants pool.old pool.new }
    ensures nodes { kept.new.nodes ≡ kept.old.nodes }
    ensures outcome { FitsOutcome search.now (R.seen rack.old) (R.seen rack.new) (bytes_at pool.new loan.now) result }
{
    if !search.is_by_syndromes() {
        return try_from(search, 0, None, rack, pool, kept, loan);
    }
    let failed = match try_candidate(search, search.candidate(0), rack, pool, kept, loan) {
        Attempt::Passed => return TrialOutcome::First,
        Attempt::Differs => None,
        Attempt::Absent => None,
        Attempt::Failed(slot) => Some(slot),
    };
    try_behind(search, failed, rack, pool, kept, loan)
}
