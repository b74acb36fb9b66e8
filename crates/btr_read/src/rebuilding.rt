// Candidates by parities.
ghost use Rattle.std.specs.Prelude.{◌≡◌, ◌≢◌, ◌≤◌, [], ◌∷◌, true, OnOk};
ghost use Rattle.btr_pool.specs.Slots.{IsLive, bytes_at};
ghost use Rattle.btr_read.specs.Layout.{AreOpen};
ghost use Rattle.btr_read.specs.Candidates.{size_of, stands};
ghost use Rattle.btr_read.specs.Sought.{IsRebuilt};
ghost use Rattle.btr_read.specs.Attempt.{FitsAttempt, AccountsAttempt};
ghost use Rattle.btr_read.specs.Gathering.{AccountsGather, HasPairValue, HasValue};
ghost use Rattle.btr_read.specs.Writing.{AreThreeLoans, OnlyWritesIn};
ghost use Rattle.btr_read.specs.declared.candidate.Candidate.{Candidate};
ghost use Rattle.btr_rack.specs.Rack.{OnlyReads};

use crate::attempt::{Attempt, Unread};
use crate::candidate::Candidate;
use crate::gathering::{gather, gather_both};
use crate::parity::Parity;
use crate::search::Search;
use crate::solving::{divide, solve};
use btr_pool::{Loan, Pool};
use btr_rack::Rack;

// Rebuilds a slice by a candidate, and tests it.
pub(crate) fn try_rebuilt<R: Rack>(
    search: &Search<'_>,
    candidate: Candidate,
    rack: &mut R,
    pool: &mut Pool,
    loan: &Loan,
    q: &Loan,
    spare: &Loan,
) -> Attempt
    requires rebuilt { IsRebuilt search.now candidate }
    requires open { AreOpen (R.seen rack.old).slots search.now.devices }
    requires loans { AreThreeLoans pool.old loan.now q.now spare.now }
    requires fits { size_of search.now ≤ pool.old.size }
    ensures reads { OnlyReads (R.seen rack.old) (R.seen rack.new) }
    ensures pool { OnlyWritesIn (q.now ∷ spare.now ∷ loan.now ∷ []) pool.old pool.new }
    ensures attempt { FitsAttempt search.now candidate (R.seen rack.old).held (bytes_at pool.new loan.now) result }
    ensures account { AccountsAttempt search.now candidate (R.seen rack.old) (R.seen rack.new) result }
{
    if !search.stands(candidate) {
        return Attempt::Absent;
    }
    match rebuild(search, candidate, rack, pool, loan, q, spare) {
        Ok(()) => {
            if search.passes(&pool.bytes(loan)[..search.size()]) {
                Attempt::Passed
            } else {
                Attempt::Differs
            }
        }
        Err(unread) => Attempt::Failed(unread.slot),
    }
}

// Rebuilds a slice by a candidate that stands, by way of two other slots. The error is the part whose read failed.
fn rebuild<R: Rack>(
    search: &Search<'_>,
    candidate: Candidate,
    rack: &mut R,
    pool: &mut Pool,
    loan: &Loan,
    q: &Loan,
    spare: &Loan,
) -> Result<(), Unread>
    requires rebuilt { IsRebuilt search.now candidate }
    requires stands { stands search.now candidate ≡ true }
    requires open { AreOpen (R.seen rack.old).slots search.now.devices }
    requires loans { AreThreeLoans pool.old loan.now q.now spare.now }
    requires fits { size_of search.now ≤ pool.old.size }
    ensures reads { OnlyReads (R.seen rack.old) (R.seen rack.new) }
    ensures pool { OnlyWritesIn (q.now ∷ spare.now ∷ loan.now ∷ []) pool.old pool.new }
    ensures value { OnOk result (HasValue (R.seen rack.old).held search.now candidate pool.new loan.now) }
    ensures account { AccountsGather search.now candidate (R.seen rack.old) (R.seen rack.new) result }
{
    match candidate {
        Candidate::Read(_) => unreachable!(),
        Candidate::ByP => rebuild_by_p(search, rack, pool, loan, spare),
        Candidate::ByQ => rebuild_by_q(search, rack, pool, loan, spare),
        Candidate::ByBoth(other) => rebuild_by_both(search, other, rack, pool, loan, q, spare),
    }
}

fn rebuild_by_p<R: Rack>(
    search: &Search<'_>,
    rack: &mut R,
    pool: &mut Pool,
    loan: &Loan,
    spare: &Loan,
) -> Result<(), Unread>
    requires rebuilt { IsRebuilt search.now Candidate.ByP }
    requires stands { stands search.now Candidate.ByP ≡ true }
    requires open { AreOpen (R.seen rack.old).slots search.now.devices }
    requires live { IsLive pool.old loan.now }
    requires spare_live { IsLive pool.old spare.now }
    requires apart { loan.now ≢ spare.now }
    requires fits { size_of search.now ≤ pool.old.size }
    ensures reads { OnlyReads (R.seen rack.old) (R.seen rack.new) }
    ensures pool { OnlyWritesIn (spare.now ∷ loan.now ∷ []) pool.old pool.new }
    ensures value { OnOk result (HasValue (R.seen rack.old).held search.now Candidate.ByP pool.new loan.now) }
    ensures account { AccountsGather search.now Candidate.ByP (R.seen rack.old) (R.seen rack.new) result }
{
    gather(search, Candidate::ByP, Parity::P, rack, pool, loan, spare)
}

fn rebuild_by_q<R: Rack>(
    search: &Search<'_>,
    rack: &mut R,
    pool: &mut Pool,
    loan: &Loan,
    spare: &Loan,
) -> Result<(), Unread>
    requires rebuilt { IsRebuilt search.now Candidate.ByQ }
    requires stands { stands search.now Candidate.ByQ ≡ true }
    requires open { AreOpen (R.seen rack.old).slots search.now.devices }
    requires live { IsLive pool.old loan.now }
    requires spare_live { IsLive pool.old spare.now }
    requires apart { loan.now ≢ spare.now }
    requires fits { size_of search.now ≤ pool.old.size }
    ensures reads { OnlyReads (R.seen rack.old) (R.seen rack.new) }
    ensures pool { OnlyWritesIn (spare.now ∷ loan.now ∷ []) pool.old pool.new }
    ensures value { OnOk result (HasValue (R.seen rack.old).held search.now Candidate.ByQ pool.new loan.now) }
    ensures account { AccountsGather search.now Candidate.ByQ (R.seen rack.old) (R.seen rack.new) result }
{
    gather(search, Candidate::ByQ, Parity::Q, rack, pool, loan, spare)?;
    divide(pool, loan, search.size(), search.index() as u8);
    Ok(())
}

// Reads what P and Q leave of two slices into two slots, and solves for the first.
fn rebuild_by_both<R: Rack>(
    search: &Search<'_>,
    other: u32,
    rack: &mut R,
    pool: &mut Pool,
    p: &Loan,
    q: &Loan,
    spare: &Loan,
) -> Result<(), Unread>
    requires rebuilt { IsRebuilt search.now (Candidate.ByBoth other) }
    requires stands { stands search.now (Candidate.ByBoth other) ≡ true }
    requires open { AreOpen (R.seen rack.old).slots search.now.devices }
    requires loans { AreThreeLoans pool.old p.now q.now spare.now }
    requires fits { size_of search.now ≤ pool.old.size }
    ensures reads { OnlyReads (R.seen rack.old) (R.seen rack.new) }
    ensures pool { OnlyWritesIn (q.now ∷ spare.now ∷ p.now ∷ []) pool.old pool.new }
    ensures value { OnOk result (HasPairValue (R.seen rack.old).held search.now other pool.new p.now) }
    ensures account { AccountsGather search.now (Candidate.ByBoth other) (R.seen rack.old) (R.seen rack.new) result }
{
    gather_both(search, Candidate::ByBoth(other), rack, pool, p, q, spare)?;
    solve(pool, p, q, search.size(), search.index() as u8, other as u8);
    Ok(())
}
