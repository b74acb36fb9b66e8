// Sectors that are written and read by a rack that reads ahead.
use crate::images::{MIB, sector};
use btr_ahead::AheadRack;
use btr_rack::{MemRack, Rack, RackError};
use std::alloc::Global;
use std::marker::Model;
use std::process::Abort;
use std::test::Fail;

// A rack of one image of 3 MiB.
fn rack_of(alloc: Global) -> Result<MemRack, Fail> {
    let mut rack = MemRack::new(alloc);
    rack.add("disk", 3 * MIB)?;
    Ok(rack)
}

/// An image of 3 MiB that is open to be written.
#[derive(Drop)]
struct Image {
    rack: AheadRack<MemRack>,
}

impl Model for Image {
    ghost use Rattle.std.specs.Prelude.{List, IsTrue};
    ghost use Rattle.btr_rack.specs.Memory.{slots_of};
    ghost use Rattle.btr_rack.specs.Rack.{Slot, opened_to_write};

    ghost Value = { List Slot };

    ghost view = { λ i. slots_of i.rack.rack };

    ghost invariant = { λ i. IsTrue (opened_to_write (slots_of i.rack.rack) 0) };
}

impl Image {
    // Opens the image of a rack in which none is open yet.
    fn open(rt: &impl Abort, alloc: Global, below: MemRack) -> Result<Image, Fail> {
        let mut rack = AheadRack::new(below, alloc);
        let slot = rack.open("disk", true)?;
        assert!(rt; slot == 0);
        Ok(Image { rack })
    }

    // Whether a sector was written with its number.
    fn write(&mut self, rt: &impl Abort, k: u64) -> bool {
        assert!(rt; k < 128 && self.rack.count() == 1 && self.rack.len(0) == 3 * MIB);
        self.rack.write_at(0, MIB + 4096 * k, &sector(k)).is_ok()
    }

    // Whether a sector is read with its number.
    fn reads(&mut self, rt: &impl Abort, k: u64) -> bool {
        let mut bytes = [255; 4096];
        assert!(rt; k < 128 && self.rack.count() == 1 && self.rack.len(0) == 3 * MIB);
        self.rack.read_at(0, MIB + 4096 * k, &mut bytes).is_ok() && bytes == sector(k)
    }

    // Whether sectors, one after another, are read with their numbers or not.
    fn read_as(&mut self, rt: &impl Abort, sectors: &[(u64, bool)]) -> bool {
        for (k, is_read) in sectors {
            if self.reads(rt, *k) != *is_read {
                return false;
            }
        }
        true
    }

    // Whether what was written is stored. The calls that failed are forgotten.
    fn sync(&mut self, rt: &impl Abort) -> bool {
        assert!(rt; self.rack.count() == 1);
        let answer = self.rack.sync(0);
        self.rack.forget();
        answer.is_ok()
    }
}

#[test]
fn a_missing_image_is_refused(rt: HostRuntime) -> Result<(), Fail> {
    let below = rack_of(rt.alloc())?;
    let mut rack = AheadRack::new(below, rt.alloc());
    assert!(rt; matches!(rack.open("other", true), Err(RackError::Failed)));
    assert!(rt; matches!(rack.open("disk", true), Ok(0)));
    Ok(())
}

#[test]
fn a_failed_sync_is_told(rt: HostRuntime) -> Result<(), Fail> {
    // The opening, the write and three syncs.
    let mut below = rack_of(rt.alloc())?;
    below.fail_call(3)?;
    below.fail_call(5)?;
    let mut image = Image::open(&rt, rt.alloc(), below)?;
    assert!(rt; image.write(&rt, 2));
    assert!(rt; !image.sync(&rt));
    assert!(rt; image.sync(&rt));
    assert!(rt; !image.sync(&rt));
    Ok(())
}

#[test]
fn what_was_written_is_read(rt: HostRuntime) -> Result<(), Fail> {
    let below = rack_of(rt.alloc())?;
    let mut image = Image::open(&rt, rt.alloc(), below)?;
    assert!(rt; image.write(&rt, 2));
    assert!(rt; image.read_as(&rt, &[(1, false), (65, false), (2, true), (66, false)]));

    // With sectors 2 and 66 those behind them were read, which are kept.
    assert!(rt; image.write(&rt, 3));
    assert!(rt; image.sync(&rt));
    assert!(rt; image.read_as(&rt, &[(67, false), (3, true)]));
    Ok(())
}
