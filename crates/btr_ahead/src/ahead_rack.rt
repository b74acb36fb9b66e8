// A rack that reads sectors ahead.
ghost use Rattle.std.specs.Prelude.{◌≡◌, ◌+◌, ◌<◌, ◌≤◌, length, false, IsTrue, OnOk, IsErrOf};
ghost use Rattle.btr_rack.specs.Rack.{AreBytesOf, Accounts, AccountsCall, AccountsNextOpening, FailsUnsure, OnlyCounts, OnlyReads, Opens};
ghost use Rattle.btr_rack.specs.Rack.{OpensSurely, Syncs, TakesFromShelf, Unsyncs, Writes, len_of, no_failure, opened_to_write, range_in};
ghost use Rattle.btr_ahead.specs.Reader.{AccountsAhead, MayFailAhead, reader, seen_ahead};

use crate::first_place::SECTOR;
use crate::kept_bytes::{NOWHERE, begins_in};
use crate::runs::Runs;
use btr_rack::{Ledger, Opening, Place, Rack, RackError};
use std::alloc::Global;
use std::marker::Model;

/// A rack that asks another one for sectors less often: where they are asked for one behind another, as many are read by one read as came
/// before, up to 64, and kept for the calls that follow. Four such runs are followed at once, so that each of up to four copies that are read in
/// turn is read ahead; for a new run the one that was unused longest is given up. All else is asked for as it comes.
///
/// A read of more sectors than were asked for isn't counted where it fails: then those that it was to read are read one by one, so that no good one is
/// missed, and a bad one isn't tried again for each before it. The 262144 bytes that a run keeps are had with its second sector, and taken over by
/// later ones; where they can't be had, no more is read than is asked for. A write or an opening ends all runs.
#[derive(Drop)]
pub struct AheadRack<R: Rack> {
    rack: R,
    alloc: Global,
    runs: Runs,
    // Where the last read that was asked for failed: there no more is read than is asked for.
    failed: Place,
    ledger: Ledger,
}

impl<R: Rack> Model for AheadRack<R> {
    ghost use Rattle.btr_ahead.specs.Reader.{Reader, reader, HaveRead};

    ghost Value = { Reader R };

    ghost view = { λ a. reader a.rack a.ledger };

    ghost invariant = { λ a. HaveRead (R.seen a.rack).held a.runs.current a.runs.others };
}

// Counts a call at a place, if it failed.
fn counted(
    ledger: &mut Ledger,
    place: Place,
    answer: Result<(), RackError>,
) -> Result<(), RackError>
    ensures same { result ≡ answer }
    ensures account { Accounts place ledger.old ledger.new result }
{
    if let Err(RackError::Failed) = answer {
        ledger.fail(place);
    }
    answer
}

impl<R: Rack> AheadRack<R> {
    /// A rack over another one, of which no call failed yet.
    pub fn new(rack: R, alloc: Global) -> AheadRack<R>
        ensures { result ≡ reader rack no_failure }
    {
        let runs = Runs::new();
        AheadRack {
            rack,
            alloc,
            runs,
            failed: NOWHERE,
            ledger: Ledger::new(),
        }
    }

    // Fills `buf`, if it is for a sector that is kept, or that follows the one before and was read with those behind it.
    fn fills(&mut self, place: Place, buf: &mut [u8]) -> bool
        requires slot { place.slot < length (R.seen self.old.rack).slots }
        requires inside { place.off + place.len ≤ len_of (R.seen self.old.rack).slots place.slot }
        requires size { length buf.old ≡ place.len }
        ensures reads { OnlyReads (R.seen self.old.rack) (R.seen self.new.rack) }
        ensures account { self.new.account ≡ self.old.account }
        ensures below { MayFailAhead place (R.seen self.old.rack).account (R.seen self.new.rack).account }
        ensures bytes { IsTrue result → AreBytesOf (R.seen self.old.rack).held place.slot place.off place.len buf.new }
    {
        if place.len != SECTOR {
            return false;
        }
        let most = if begins_in(place, self.failed) {
            1
        } else {
            u64::MAX
        };
        self.runs.fill(place, most, self.alloc, &mut self.rack, buf)
    }
}

impl<R: Rack> Rack for AheadRack<R> {
    ghost use Rattle.btr_ahead.specs.Reader.{sound_ahead};

    ghost seen = { λ a. seen_ahead (R.seen a.rack) a.account };

    ghost sound = { λ a. sound_ahead (R.seen a.rack) (R.sound a.rack) a.account };

    fn open(&mut self, name: &str, write: bool) -> Result<usize, RackError>
        ensures slots { Opens name.now write (R.seen self.old.rack).slots (R.seen self.new.rack).slots result }
        ensures images { TakesFromShelf name.now (R.seen self.old.rack) (R.seen self.new.rack) result }
        ensures unsynced { (R.seen self.new.rack).unsynced ≡ (R.seen self.old.rack).unsynced }
        ensures never_synced { (R.seen self.new.rack).never_synced ≡ (R.seen self.old.rack).never_synced }
        ensures account { AccountsNextOpening name.now write
            (seen_ahead (R.seen self.old.rack) self.old.account) (seen_ahead (R.seen self.new.rack) self.new.account) result }
        ensures sure { OpensSurely name.now (seen_ahead (R.seen self.old.rack) self.old.account) (seen_ahead (R.seen self.new.rack) self.new.account) result }

        // No opening that failed was tried again.
        ensures below { AccountsNextOpening name.now write (R.seen self.old.rack) (R.seen self.new.rack) result }
    {
        let Ok(opening) = Opening::new(self.alloc, name, write) else {
            return Err(RackError::Memory);
        };
        self.runs.clear();
        let place = Place::of_slot(self.rack.count());
        let answer = self.rack.open(name, write);
        if let Err(RackError::Failed) = answer {
            self.ledger.fail_open(opening, place);
        }
        answer
    }

    fn count(&self) -> usize {
        self.rack.count()
    }

    fn len(&self, slot: usize) -> u64 {
        self.rack.len(slot)
    }

    fn read_at(&mut self, slot: usize, off: u64, buf: &mut [u8]) -> Result<(), RackError>
        requires open { slot < length (R.seen self.old.rack).slots }
        requires range { off + length buf.old ≤ len_of (R.seen self.old.rack).slots slot }
        ensures bytes { OnOk result (AreBytesOf (R.seen self.old.rack).held slot off (length buf.old) buf.new) }
        ensures same { OnlyCounts (seen_ahead (R.seen self.old.rack) self.old.account) (seen_ahead (R.seen self.new.rack) self.new.account) }
        ensures account { Accounts (range_in slot off (length buf.old)) self.old.account self.new.account result }
        ensures sure { FailsUnsure false result }
        ensures memory { IsErrOf result RackError.Memory → ⊥ }

        // No read that failed was tried again, but one of more than a sector as one of this sector.
        ensures below { AccountsAhead (range_in slot off (length buf.old)) (R.seen self.old.rack).account (R.seen self.new.rack).account result }
    {
        let len = buf.len() as u64;
        let place = Place { slot, off, len };
        if self.fills(place, buf) {
            return Ok(());
        }
        let answer = self.rack.read_at(slot, off, buf);
        if answer.is_err() {
            self.failed = place;
        }
        counted(&mut self.ledger, place, answer)
    }

    fn write_at(&mut self, slot: usize, off: u64, bytes: &[u8]) -> Result<(), RackError>
        requires open { slot < length (R.seen self.old.rack).slots }
        requires write { IsTrue (opened_to_write (R.seen self.old.rack).slots slot) }
        requires range { off + length bytes.now ≤ len_of (R.seen self.old.rack).slots slot }
        ensures held { Writes slot off bytes.now (R.seen self.old.rack).held (R.seen self.new.rack).held result }
        ensures rest { Unsyncs (range_in slot off (length bytes.now))
            (seen_ahead (R.seen self.old.rack) self.old.account) (seen_ahead (R.seen self.new.rack) self.new.account) }
        ensures account { Accounts (range_in slot off (length bytes.now)) self.old.account self.new.account result }
        ensures sure { FailsUnsure false result }

        // No write that failed was tried again.
        ensures below { AccountsCall (range_in slot off (length bytes.now)) (R.seen self.old.rack) (R.seen self.new.rack) result }
    {
        let len = bytes.len() as u64;
        self.runs.clear();
        let answer = self.rack.write_at(slot, off, bytes);
        counted(&mut self.ledger, Place { slot, off, len }, answer)
    }

    fn sync(&mut self, slot: usize) -> Result<(), RackError>
        requires { slot < length (R.seen self.old.rack).slots }
        ensures synced { Syncs slot (seen_ahead (R.seen self.old.rack) self.old.account) (seen_ahead (R.seen self.new.rack) self.new.account) result }
        ensures account { Accounts (range_in slot 0 0) self.old.account self.new.account result }
        ensures sure { FailsUnsure false result }
        ensures memory { IsErrOf result RackError.Memory → ⊥ }

        // No sync that failed was tried again.
        ensures below { AccountsCall (range_in slot 0 0) (R.seen self.old.rack) (R.seen self.new.rack) result }
    {
        let answer = self.rack.sync(slot);
        counted(&mut self.ledger, Place::of_slot(slot), answer)
    }

    fn forget(&mut self) {
        self.ledger.forget();
    }
}
