// A rack of files. It tells no content.
ghost use Rattle.std.specs.Prelude.{◌≡◌, ◌+◌, ◌<◌, ◌≤◌, [], ◌∷◌, length, OnOk, OnErr, IsErrOf, IsTrue};
ghost use Rattle.btr_rack.specs.declared.raw_call.RawCall.TheVariants.{Read, Stored, Synced};
ghost use Rattle.btr_rack.specs.Rack.{OnlyCounts, Accounts, Unsyncs, Syncs, range_in, len_of, opened_to_write};
ghost use Rattle.btr_rack.specs.History.{event, refused, Moved, FallsShort};
ghost use Rattle.btr_rack.specs.Opened.{slots_of, seen_files};
ghost use Rattle.btr_rack.specs.FilesSeen.{seen_of, history_of};

use crate::account::Ledger;
use crate::opened::OpenedFile;
use crate::opening::Opening;
use crate::place::Place;
use crate::place_list::{InSlot, NoneInSlot, PlaceList, Places};
use crate::{Rack, RackError};
use std::alloc::Global;
use std::fs::File;
use std::rt::Files;

/// A rack of files and block devices, by their paths. It opens read-only what is not to be written.
#[derive(Drop)]
pub struct FileRack<R: Files<File = File> + Drop> {
    rt: R,
    alloc: Global,
    files: Vec<OpenedFile>,
    unsynced: PlaceList,
    never_synced: PlaceList,
    ledger: Ledger,
}

impl<R: Files<File = File> + Drop> FileRack<R> {
    /// A rack in which no file is open.
    pub fn new(rt: R, alloc: Global) -> FileRack<R>
        ensures { result.files.items ≡ [] }
    {
        FileRack {
            rt,
            alloc,
            files: Vec::new(alloc),
            unsynced: PlaceList::new(&Places),
            never_synced: PlaceList::new(&Places),
            ledger: Ledger::new(),
        }
    }
}

impl<R: Files<File = File> + Drop> Rack for FileRack<R> {
    ghost use Rattle.btr_rack.specs.FileRack.{sound_files};

    ghost seen = { λ rack. seen_files rack.files.items rack.unsynced rack.never_synced rack.ledger };

    ghost sound = { λ rack. sound_files (slots_of rack.files.items) rack.unsynced rack.never_synced rack.ledger };

    fn open(&mut self, name: &str, write: bool) -> Result<usize, RackError> {
        let slot = self.files.len();
        let Ok(opening) = Opening::new(self.alloc, name, write) else {
            return Err(RackError::Memory);
        };
        match OpenedFile::open(&self.rt, opening) {
            Ok(file) => {
                let Ok(()) = self.files.push(file) else {
                    return Err(RackError::Memory);
                };
                Ok(slot)
            }
            Err(opening) => {
                self.ledger.fail_open(opening, Place::of_slot(slot));
                Err(RackError::Failed)
            }
        }
    }

    fn count(&self) -> usize {
        self.files.len()
    }

    fn len(&self, slot: usize) -> u64 {
        self.files[slot].len()
    }

    fn read_at(&mut self, slot: usize, off: u64, buf: &mut [u8]) -> Result<(), RackError>
        requires open { slot < length (slots_of self.old.files.items) }
        requires range { off + length buf.old ≤ len_of (slots_of self.old.files.items) slot }
        ensures same { OnlyCounts (seen_of self.old) (seen_of self.new) }
        ensures account { Accounts (range_in slot off (length buf.old)) self.old.ledger self.new.ledger result }
        ensures memory { IsErrOf result RackError.Memory → ⊥ }
        ensures read { OnOk result (Moved Read off (history_of self.old slot) (history_of self.new slot) buf.new) }
        ensures cause { OnErr result (FallsShort Read off (history_of self.old slot) (history_of self.new slot) buf.new) }
    {
        let len = buf.len() as u64;
        let file = &mut self.files[slot];
        let _end = file.len();
        if file.fill(off, buf) {
            return Ok(());
        }
        self.ledger.fail(Place { slot, off, len });
        Err(RackError::Failed)
    }

    fn write_at(&mut self, slot: usize, off: u64, bytes: &[u8]) -> Result<(), RackError>
        requires open { slot < length (slots_of self.old.files.items) }
        requires write { IsTrue (opened_to_write (slots_of self.old.files.items) slot) }
        requires range { off + length bytes.now ≤ len_of (slots_of self.old.files.items) slot }
        ensures rest { Unsyncs (range_in slot off (length bytes.now)) (seen_of self.old) (seen_of self.new) }
        ensures account { Accounts (range_in slot off (length bytes.now)) self.old.ledger self.new.ledger result }
        ensures stored { OnOk result (Moved Stored off (history_of self.old slot) (history_of self.new slot) bytes.now) }
        ensures cause { OnErr result (FallsShort Stored off (history_of self.old slot) (history_of self.new slot) bytes.now) }
    {
        let len = bytes.len() as u64;
        let place = Place { slot, off, len };
        self.unsynced = self.unsynced.with(&place);
        let file = &mut self.files[slot];
        let _end = file.len();
        if file.store(off, bytes) {
            return Ok(());
        }
        self.ledger.fail(place);
        Err(RackError::Failed)
    }

    fn sync(&mut self, slot: usize) -> Result<(), RackError>
        requires { slot < length (slots_of self.old.files.items) }
        ensures synced { Syncs slot (seen_of self.old) (seen_of self.new) result }
        ensures account { Accounts (range_in slot 0 0) self.old.ledger self.new.ledger result }
        ensures memory { IsErrOf result RackError.Memory → ⊥ }
        ensures asked { OnOk result (history_of self.new slot ≡ event Synced [] ∷ history_of self.old slot) }
        ensures cause { OnErr result (history_of self.new slot ≡ refused ∷ history_of self.old slot) }
    {
        let place = Place::of_slot(slot);
        if self.files[slot].sync() {
            self.unsynced = self.unsynced.with(&NoneInSlot(place));
            return Ok(());
        }
        self.never_synced = self.never_synced.with(&InSlot(&self.unsynced, place));
        self.unsynced = self.unsynced.with(&NoneInSlot(place));
        self.ledger.fail(place);
        Err(RackError::Failed)
    }

    fn forget(&mut self) {
        self.ledger.forget();
    }
}
