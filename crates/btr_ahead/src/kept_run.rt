// A run of sectors, and those of it that were read ahead.
ghost use Rattle.std.specs.Prelude.{◌≡◌, ℕ, List, Option, length, IsTrue};
ghost use Rattle.btr_rack.specs.Rack.{AreBytesOf, OnlyReads};
ghost use Rattle.btr_ahead.specs.Ahead.{AreRead, IsInSlot};
ghost use Rattle.btr_ahead.specs.Reader.{KeepsRead, MayFailAhead};

use crate::first_place::{FirstPlace, SECTOR};
use crate::kept_bytes::KeptBytes;
use crate::sector_run::SectorRun;
use btr_rack::{Place, Rack};
use std::alloc::Global;

/// A run of sectors that are asked for one behind another, and the bytes that were read ahead in it. The 262144 bytes are had with its second sector.
#[derive(Drop)]
pub(crate) struct KeptRun {
    run: SectorRun,
    pub(crate) kept: Option<Box<KeptBytes>>,
}

// Reads the sector of a place with those behind it, so many in all, unless it is kept, none stands behind it, or a read of more failed there.
fn look<R: Rack>(kept: &mut KeptBytes, place: Place, count: u64, rack: &mut R)
    requires slot { IsInSlot (R.seen rack.old).slots place }
    requires ahead { AreRead (R.seen rack.old).held kept.old }
    ensures reads { OnlyReads (R.seen rack.old) (R.seen rack.new) }
    ensures ahead { AreRead (R.seen rack.new).held kept.new }
    ensures below { MayFailAhead place (R.seen rack.old).account (R.seen rack.new).account }
{
    if count < 2 || rack.len(place.slot) - place.off <= SECTOR || kept.has_failed_at(place) {
        return;
    }
    if kept.piece(place).is_none() {
        let reach = u64::MAX;
        kept.read_from(&FirstPlace { place, reach }, count, rack);
    }
}

// Fills `buf` with the sector of a place, if it is kept.
fn copy_kept(kept: &KeptBytes, place: Place, buf: &mut [u8]) -> bool
    requires sector { place.len ≡ 4096 }
    requires size { length buf.old ≡ 4096 }
    ensures { (held : Option (List (List ℕ))) → AreRead held kept.now → IsTrue result → AreBytesOf held place.slot place.off 4096 buf.new }
{
    match kept.piece(place) {
        Some(piece) => {
            buf.copy_from_slice(piece);
            true
        }
        None => false,
    }
}

// Makes room for what is kept, if there is none and it can be had.
fn make_room(kept: &mut Option<Box<KeptBytes>>, alloc: Global)
    ensures { (held : Option (List (List ℕ))) → KeepsRead held kept.old → KeepsRead held kept.new }
{
    if kept.is_none() {
        *kept = Box::new(alloc, KeptBytes::new()).ok();
    }
}

impl KeptRun {
    /// A run of no sector yet.
    pub(crate) fn new() -> KeptRun
        ensures { (held : Option (List (List ℕ))) → KeepsRead held result.kept }
    {
        KeptRun {
            run: SectorRun::new(),
            kept: None,
        }
    }

    /// Whether the sector of a place is the next one of the run, or is kept.
    pub(crate) fn has(&self, place: Place) -> bool {
        if self.run.ends_at(place) {
            return true;
        }
        match &self.kept {
            Some(kept) => kept.piece(place).is_some(),
            None => false,
        }
    }

    /// Fills `buf` with the sector of a place, if it is kept, or is the next one of the run and comes with those behind it, at most `most` in all.
    pub(crate) fn fill<R: Rack>(
        &mut self,
        place: Place,
        most: u64,
        alloc: Global,
        rack: &mut R,
        buf: &mut [u8],
    ) -> bool
        requires slot { IsInSlot (R.seen rack.old).slots place }
        requires size { length buf.old ≡ 4096 }
        requires ahead { KeepsRead (R.seen rack.old).held self.old.kept }
        ensures reads { OnlyReads (R.seen rack.old) (R.seen rack.new) }
        ensures ahead { KeepsRead (R.seen rack.new).held self.new.kept }
        ensures below { MayFailAhead place (R.seen rack.old).account (R.seen rack.new).account }
        ensures bytes { IsTrue result → AreBytesOf (R.seen rack.old).held place.slot place.off 4096 buf.new }
    {
        let count = self.run.add(place).min(most);
        if count > 1 {
            make_room(&mut self.kept, alloc);
        }
        match &mut self.kept {
            Some(kept) => {
                look(kept, place, count, rack);
                copy_kept(kept, place, buf)
            }
            None => false,
        }
    }

    /// Keeps nothing any more, and counts anew.
    pub(crate) fn clear(&mut self)
        ensures { (held : Option (List (List ℕ))) → KeepsRead held self.new.kept }
    {
        self.run.restart();
        if let Some(kept) = &mut self.kept {
            kept.clear();
        }
    }
}
