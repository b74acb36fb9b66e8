// A rack in memory.
ghost use Rattle.std.specs.Prelude.{◌≡◌, ◌+◌, ◌<◌, ◌≤◌, ◌^◌, ◌↔◌, ◌||◌, [], Some, IsSome, is_none, OnOk, OnErr, Err, IsErrOf, slice_get, length};
ghost use Rattle.std.specs.Option.{option_and_then, option_copied};
ghost use Rattle.btr_rack.specs.Image.{zeros};
ghost use Rattle.btr_rack.specs.Rack.{range_in, len_of, bytes_of, forgotten, Opens, OpensSurely, TakesFromShelf, OnlyCounts, Writes, Unsyncs, Syncs};
ghost use Rattle.btr_rack.specs.Rack.{Accounts, AccountsNextOpening, FailsWhere, FailsUnsure};
ghost use Rattle.btr_rack.specs.Memory.{empty_rack, nothing_fails, after_call, after_write, call_strikes, hits, named, named_page, slots_of, held_of};
ghost use Rattle.btr_rack.specs.Memory.{shelf_of, seen_of, is_sure, with_image, with_failing, with_counts, write_fails, failing_call, failing_write};
ghost use Rattle.btr_rack.specs.Memory.{failing_range, tearing, Pokes, Cuts, LeavesTear, OnlySyncs};

use crate::account::Ledger;
use crate::failing::Failing;
use crate::image::Image;
use crate::images::{
    contains, cut_image, open_image, place_on_shelf, position_of, tear_image, write_image,
};
use crate::opening::Opening;
use crate::place::Place;
use crate::place_list::{InSlot, NoneInSlot, PlaceList, Places};
use crate::{AddError, PokeError, Rack, RackError};
use btr_base::Memory;
use std::alloc::Global;
use std::marker::Model;

/// A rack of images in memory. Each image keeps pages of 4096 bytes; a page that isn't kept reads as zeros.
#[derive(Drop)]
pub struct MemRack {
    alloc: Global,
    // The open ones first, in the order of their opening.
    images: Vec<Image>,
    opened: usize,
    failing: Failing,
    unsynced: PlaceList,
    never_synced: PlaceList,
    ledger: Ledger,
}

impl Model for MemRack {
    ghost use Rattle.std.specs.Prelude.{length, ◌≤◌};
    ghost use Rattle.btr_rack.specs.Memory.{MemoryRack};

    ghost Value = { MemoryRack };

    ghost view = { λ r. record { images = r.images.items; opened = r.opened; failing = r.failing; unsynced = r.unsynced; never_synced = r.never_synced; account = r.ledger } };

    ghost invariant = { λ r. r.opened ≤ length r.images.items };
}

impl MemRack {
    /// A rack with no images, in which nothing is to fail.
    pub fn new(alloc: Global) -> MemRack
        ensures { result ≡ empty_rack }
    {
        MemRack {
            alloc,
            images: Vec::new(alloc),
            opened: 0,
            failing: Failing::new(alloc),
            unsynced: PlaceList::new(&Places),
            never_synced: PlaceList::new(&Places),
            ledger: Ledger::new(),
        }
    }

    /// Puts an image of `len` bytes, all zeros, on the shelf. `Name`: an image has that name; `Memory`: want of memory. Then
    /// nothing is changed.
    pub fn add(&mut self, name: &str, len: u64) -> Result<(), AddError>
        requires { len < 2 ^ 63 }
        ensures name { (result ≡ Err AddError.Name) ↔ IsSome (named self.old name.now) }
        ensures added { OnOk result (self.new ≡ with_image (zeros name.now len) self.old) }
        ensures refused { OnErr result (self.new ≡ self.old) }
    {
        if contains(&self.images, name) {
            return Err(AddError::Name);
        }
        let Ok(image) = Image::zeros(self.alloc, name, len) else {
            return Err(AddError::Memory);
        };
        let Ok(()) = self.images.push(image) else {
            return Err(AddError::Memory);
        };
        Ok(())
    }

    /// Writes over the bytes of an image from `off` on, open or not. `NoImage`: no image has that name; `Range`: the bytes pass
    /// the end of the image; then nothing is changed. `Memory`: want of memory; then any bytes stand in that range.
    pub fn poke(&mut self, name: &str, off: u64, bytes: &[u8]) -> Result<(), PokeError>
        ensures { Pokes name.now off bytes.now self.old self.new result }
    {
        let Some(at) = position_of(&self.images, name) else {
            return Err(PokeError::NoImage);
        };
        let len = self.images[at].len();
        if off > len || bytes.len() as u64 > len - off {
            return Err(PokeError::Range);
        }
        let Ok(()) = write_image(&mut self.images, at, off, bytes) else {
            return Err(PokeError::Memory);
        };
        Ok(())
    }

    /// Shortens an image of the shelf to `len` bytes. It is false, and changes nothing, where the name isn't on
    /// the shelf, is open, or is that of a shorter image.
    pub fn cut(&mut self, name: &str, len: u64) -> bool
        ensures { Cuts name.now len self.old self.new result }
    {
        match place_on_shelf(&self.images, self.opened, name) {
            Some(at) => cut_image(&mut self.images, self.opened + at, len),
            None => false,
        }
    }

    /// The byte at `off` of an image, open or not. It is `None` exactly where there is none.
    pub fn byte(&self, name: &str, off: u64) -> Option<u8>
        ensures { result ≡ option_and_then (λ bytes. slice_get bytes off) (named self.now name.now) }
    {
        match position_of(&self.images, name) {
            Some(at) => self.images[at].byte(off),
            None => None,
        }
    }

    /// The 4096 bytes of a page of an image. It is `None` exactly where the page isn't kept.
    pub fn page(&self, name: &str, index: u64) -> Option<&[u8]>
        ensures { option_copied result ≡ named_page self.now name.now index }
    {
        match position_of(&self.images, name) {
            Some(at) => self.images[at].page(index),
            None => None,
        }
    }

    /// Puts every image back on the shelf. Nothing is to fail any more, and calls and writes are counted anew;
    /// nothing waits for a sync; the account of the failed calls stays.
    pub fn close_all(&mut self)
        ensures { self.new ≡ record self.old { opened = 0; failing = nothing_fails; unsynced = []; never_synced = [] } }
    {
        self.opened = 0;
        self.unsynced = PlaceList::new(&Places);
        self.never_synced = PlaceList::new(&Places);
        self.failing.clear();
    }

    /// Makes the nth call of `open`, `read_at`, `write_at` and `sync` fail, counted from 1. `Memory`: want of memory, and nothing
    /// is changed.
    pub fn fail_call(&mut self, n: u64) -> Result<(), Memory>
        ensures ok { OnOk result (self.new ≡ with_failing (failing_call n self.old.failing) self.old) }
        ensures refused { OnErr result (self.new ≡ self.old) }
    {
        self.failing.fail_call(n)
    }

    /// Makes each read or write fail that touches a byte of this range of an image, of `len` bytes from `off` on. `Memory`: want
    /// of memory, and nothing is changed.
    pub fn fail_range(&mut self, name: &str, off: u64, len: u64) -> Result<(), Memory>
        ensures ok { OnOk result (self.new ≡ with_failing (failing_range name.now off len self.old.failing) self.old) }
        ensures refused { OnErr result (self.new ≡ self.old) }
    {
        self.failing.fail_range(name, off, len)
    }

    /// Makes the nth call of `write_at` fail, counted from 1. `Memory`: want of memory, and nothing is changed.
    pub fn fail_write(&mut self, n: u64) -> Result<(), Memory>
        ensures ok { OnOk result (self.new ≡ with_failing (failing_write n self.old.failing) self.old) }
        ensures refused { OnErr result (self.new ≡ self.old) }
    {
        self.failing.fail_write(n)
    }

    /// Makes a write that fails fill its range with this byte. Else it changes nothing.
    pub fn tear(&mut self, byte: u8)
        ensures { self.new ≡ with_failing (tearing byte self.old.failing) self.old }
    {
        self.failing.tear_with(byte);
    }
}

impl Rack for MemRack {
    ghost use Rattle.btr_rack.specs.Memory.{seen_of};
    ghost use Rattle.btr_rack.specs.MemoryLaws.{sound_rack};

    ghost seen = { seen_of };

    ghost sound = { sound_rack };

    fn open(&mut self, name: &str, write: bool) -> Result<usize, RackError>
        ensures slots { Opens name.now write (slots_of self.old) (slots_of self.new) result }
        ensures images { TakesFromShelf name.now (seen_of self.old) (seen_of self.new) result }
        ensures unsynced { self.new.unsynced ≡ self.old.unsynced }
        ensures never_synced { self.new.never_synced ≡ self.old.never_synced }
        ensures account { AccountsNextOpening name.now write (seen_of self.old) (seen_of self.new) result }
        ensures sure { OpensSurely name.now (seen_of self.old) (seen_of self.new) result }
        ensures calls { self.new.failing ≡ after_call self.old.failing }

        // It fails exactly where it is made to, or where the name is open or isn't on the shelf.
        ensures fails { FailsWhere (call_strikes self.old.failing || is_none (shelf_of self.old name.now)) result }
    {
        let slot = self.opened;
        let struck = self.failing.call();
        let Ok(opening) = Opening::new(self.alloc, name, write) else {
            return Err(RackError::Memory);
        };
        match place_on_shelf(&self.images, slot, name) {
            Some(at) if !struck => {
                open_image(&mut self.images, slot, at, write);
                self.opened = slot + 1;
                Ok(slot)
            }
            _ => {
                self.ledger.fail_open(opening, Place::of_slot(slot));
                Err(RackError::Failed)
            }
        }
    }

    fn count(&self) -> usize {
        self.opened
    }

    fn len(&self, slot: usize) -> u64 {
        self.images[slot].len()
    }

    fn read_at(&mut self, slot: usize, off: u64, buf: &mut [u8]) -> Result<(), RackError>
        requires open { slot < length (slots_of self.old) }
        requires range { off + length buf.old ≤ len_of (slots_of self.old) slot }
        ensures bytes { OnOk result (buf.new ≡ bytes_of (held_of self.old) slot off (length buf.old)) }
        ensures account { Accounts (range_in slot off (length buf.old)) self.old.account self.new.account result }
        ensures same { OnlyCounts (seen_of self.old) (seen_of self.new) }
        ensures counts { self.new ≡ with_counts (after_call self.old.failing) self.new.account self.old }

        // It fails exactly where it is made to.
        ensures fails { FailsWhere (call_strikes self.old.failing || hits self.old slot off (length buf.old)) result }
        ensures sure { FailsUnsure (is_sure self.old) result }
        ensures memory { IsErrOf result RackError.Memory → ⊥ }
    {
        let len = buf.len() as u64;
        let struck = self.failing.call();
        let image = &self.images[slot];
        if struck || self.failing.meets(image.name(), off, len) {
            self.ledger.fail(Place { slot, off, len });
            return Err(RackError::Failed);
        }
        image.read(off, buf);
        Ok(())
    }

    fn write_at(&mut self, slot: usize, off: u64, bytes: &[u8]) -> Result<(), RackError>
        requires open { slot < length (slots_of self.old) }
        requires range { off + length bytes.now ≤ len_of (slots_of self.old) slot }
        ensures held { Writes slot off bytes.now (Some (held_of self.old)) (Some (held_of self.new)) result }
        ensures rest { Unsyncs (range_in slot off (length bytes.now)) (seen_of self.old) (seen_of self.new) }
        ensures account { Accounts (range_in slot off (length bytes.now)) self.old.account self.new.account result }
        ensures sure { FailsUnsure (is_sure self.old) result }
        ensures calls { self.new.failing ≡ after_write self.old.failing }

        // It fails exactly where it is made to, and then leaves the tear, or what stood there.
        ensures fails { FailsWhere (write_fails self.old slot off (length bytes.now)) result }
        ensures torn { LeavesTear slot off (length bytes.now) self.old self.new result }
    {
        let len = bytes.len() as u64;
        let place = Place { slot, off, len };
        self.unsynced = self.unsynced.with(&place);
        let struck = self.failing.write();
        if struck || self.failing.meets(self.images[slot].name(), off, len) {
            let tear = self.failing.tear();
            let Ok(()) = tear_image(&mut self.images, slot, off, bytes.len(), tear) else {
                return Err(RackError::Memory);
            };
            self.ledger.fail(place);
            return Err(RackError::Failed);
        }
        let Ok(()) = write_image(&mut self.images, slot, off, bytes) else {
            return Err(RackError::Memory);
        };
        Ok(())
    }

    fn sync(&mut self, slot: usize) -> Result<(), RackError>
        ensures synced { Syncs slot (seen_of self.old) (seen_of self.new) result }
        ensures account { Accounts (range_in slot 0 0) self.old.account self.new.account result }
        ensures counts { OnlySyncs self.old self.new }

        // It fails exactly where it is made to.
        ensures fails { FailsWhere (call_strikes self.old.failing) result }
        ensures sure { FailsUnsure (is_sure self.old) result }
        ensures memory { IsErrOf result RackError.Memory → ⊥ }
    {
        let place = Place::of_slot(slot);
        let struck = self.failing.call();
        if struck {
            self.never_synced = self.never_synced.with(&InSlot(&self.unsynced, place));
            self.ledger.fail(place);
        }
        self.unsynced = self.unsynced.with(&NoneInSlot(place));
        if struck {
            return Err(RackError::Failed);
        }
        Ok(())
    }

    fn forget(&mut self)
        ensures { self.new ≡ record self.old { account = forgotten self.old.account } }
    {
        self.ledger.forget();
    }
}
