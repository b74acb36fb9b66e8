// A rack in memory whose calls don't fail.
ghost use Rattle.std.specs.Prelude.{◌≡◌, true, IsSome, OnOk};
ghost use Rattle.btr_rack.specs.Memory.{held_of, is_sure, named, shelf_of, slots_of};
ghost use Rattle.btr_rack.specs.Rack.{TakesImage};
ghost use Rattle.btr_trial.specs.Sure.{IsNextSlot, IsSpoiled, name_at};

use btr_base::Memory;
use btr_make::spoil;
use btr_rack::{MemRack, PokeError, Rack, RackError};
use std::marker::Model;

/// A rack in memory in which nothing is to fail, with the images `a`, `b` and `c`. As no call fails, its account of failed calls is empty; what calls
/// over any rack promise where none failed, they promise here of every call.
#[derive(Drop)]
pub(crate) struct SureRack {
    rack: MemRack,
}

impl Model for SureRack {
    ghost use Rattle.std.specs.Prelude.{◌≡◌, true};
    ghost use Rattle.btr_rack.specs.Memory.{MemoryRack, is_sure};

    ghost Value = { MemoryRack };

    ghost view = { λ r. r.rack };

    ghost invariant = { λ r. is_sure r.rack ≡ true };
}

impl SureRack {
    ghost use Rattle.std.specs.Prelude.{◌≡◌, ◌<◌, true, map, OnOk};
    ghost use Rattle.btr_make.specs.Shelf.{IsShelved, volume_of};
    ghost use Rattle.btr_rack.specs.Memory.{held_of, is_sure, slots_of};
    ghost use Rattle.btr_trial.specs.Sure.{CameTo, IsOpen, spoiled_at, volume_names};

    /// The rack in which nothing is to fail.
    pub(crate) fn new(rack: MemRack) -> SureRack
        requires { is_sure rack ≡ true }
        ensures { result ≡ rack }
    {
        SureRack { rack }
    }

    /// The rack as it was given, with what is left of its images.
    pub(crate) fn into_rack(self) -> MemRack
        ensures { result ≡ self }
    {
        self.rack
    }

    /// Opens the images of the volume in their order, to be written or only to be read.
    pub(crate) fn open_all(&mut self, write: bool) -> Result<(), Memory>
        requires { IsShelved self.old }
        ensures { OnOk result (IsOpen write (volume_of self.old) self.new) }
    {
        open_image(&mut self.rack, "a", write)?;
        open_image(&mut self.rack, "b", write)?;
        open_image(&mut self.rack, "c", write)
    }

    /// Puts the images of the volume back on the shelf.
    pub(crate) fn close(&mut self)
        requires { map (λ slot. slot.name) (slots_of self.old) ≡ volume_names }
        ensures ready { IsShelved self.new }
        ensures volume { volume_of self.new ≡ held_of self.old }
    {
        self.rack.close_all();
    }

    /// Spoils the image of this number.
    pub(crate) fn spoil(&mut self, slot: u64) -> Result<(), Memory>
        requires ready { IsShelved self.old }
        requires slot { slot < 3 }
        ensures { CameTo (λ images. tt) (λ images. spoiled_at images slot) self.old self.new result }
    {
        spoil_image(&mut self.rack, name_of(slot))
    }
}

// The name of the image of this number.
fn name_of(slot: u64) -> &'static str
    ensures { result.now ≡ name_at slot }
{
    match slot {
        0 => "a",
        1 => "b",
        _ => "c",
    }
}

// Opens an image that stands on the shelf, as the next slot.
fn open_image(rack: &mut MemRack, name: &str, write: bool) -> Result<(), Memory>
    requires sure { is_sure rack.old ≡ true }
    requires there { IsSome (shelf_of rack.old name.now) }
    ensures sure { is_sure rack.new ≡ true }
    ensures slots { OnOk result (IsNextSlot name.now write (slots_of rack.old) (slots_of rack.new)) }
    ensures image { OnOk result (TakesImage name.now (shelf_of rack.old) (shelf_of rack.new) (held_of rack.old) (held_of rack.new)) }
{
    match rack.open(name, write) {
        Ok(_) => Ok(()),
        Err(RackError::Memory) => Err(Memory),
        Err(RackError::Failed) => unreachable!(),
    }
}

// Spoils an image, which is there.
fn spoil_image(rack: &mut MemRack, name: &str) -> Result<(), Memory>
    requires there { IsSome (named rack.old name.now) }
    ensures sure { is_sure rack.new ≡ is_sure rack.old }
    ensures spoiled { OnOk result (IsSpoiled name.now rack.old rack.new) }
{
    match spoil(rack, name) {
        Ok(()) => Ok(()),
        Err(PokeError::Memory) => Err(Memory),
        Err(PokeError::NoImage | PokeError::Range) => unreachable!(),
    }
}

impl Rack for SureRack {
    ghost use Rattle.btr_trial.specs.Sure.{sound_sure, sure_seen};

    ghost seen = { sure_seen };

    ghost sound = { sound_sure };

    // There is no room for another image.
    fn open(&mut self, _name: &str, _write: bool) -> Result<usize, RackError> {
        Err(RackError::Memory)
    }

    fn count(&self) -> usize {
        self.rack.count()
    }

    fn len(&self, slot: usize) -> u64 {
        self.rack.len(slot)
    }

    fn read_at(&mut self, slot: usize, off: u64, buf: &mut [u8]) -> Result<(), RackError> {
        self.rack.read_at(slot, off, buf)
    }

    fn write_at(&mut self, slot: usize, off: u64, bytes: &[u8]) -> Result<(), RackError> {
        self.rack.write_at(slot, off, bytes)
    }

    fn sync(&mut self, slot: usize) -> Result<(), RackError> {
        self.rack.sync(slot)
    }

    fn forget(&mut self) {
        self.rack.forget();
    }
}
