// Volumes with bytes that are wrong, and scrubs of each: what they count, and each byte of the images behind them.
ghost use Rattle.std.specs.Prelude.{OnOk};
ghost use Rattle.btr_scrub_copies.specs.Writes.{AreWritable};
ghost use Rattle.btr_rack.specs.Memory.{slots_of};

use super::opened::{open_to_write, scrubbed};
use super::shapes::{Made, build};
use btr_rack::{MemRack, Rack};
use btr_scrub::Tally;
use std::alloc::Global;
use std::process::Abort;
use std::test::Fail;

/// The counts of a small volume in which nothing is wrong.
pub(super) const CLEAN: Tally = Tally {
    blocks: 8,
    bad: 0,
    repaired: 0,
    lost: 0,
    parity: 0,
    unchecked: 0,
};

/// A volume some of whose bytes are turned, and what its scrub counts.
#[derive(Clone, Copy)]
pub(super) struct Damage {
    pub(super) volume: Made,
    /// The wrong bytes that are made right.
    pub(super) mended: &'static [(&'static str, u64)],
    /// Those that are left.
    pub(super) left: &'static [(&'static str, u64)],
    pub(super) tally: Tally,
}

/// Turns bytes of images.
pub(super) fn turn(rack: &mut MemRack, places: &[(&str, u64)]) -> Result<(), Fail> {
    for (name, off) in places {
        let byte = rack.byte(name, *off).unwrap_or(0);
        rack.poke(name, *off, &[!byte])?;
    }
    Ok(())
}

/// A damaged volume; where its wrong bytes are made right, only those are wrong that are left.
pub(super) fn damaged(alloc: Global, damage: &Damage, mended: bool) -> Result<MemRack, Fail> {
    let mut rack = build(alloc, damage.volume)?;
    turn(&mut rack, damage.left)?;
    if !mended {
        turn(&mut rack, damage.mended)?;
    }
    Ok(rack)
}

/// Asserts that the images of a volume have the same bytes in two racks.
pub(super) fn expect_same(rt: &impl Abort, volume: Made, right: &MemRack, rack: &MemRack) {
    for name in volume.names() {
        for index in 0..volume.pages() {
            assert!(rt;
                right.page(name, index) == rack.page(name, index),
                "{name} {index}"
            );
        }
    }
}

/// Opens images to be written.
pub(super) fn open_all(rack: &mut MemRack, names: &[&str]) -> Result<(), Fail>
    requires { AreWritable (slots_of rack.old) }
    ensures { OnOk result (AreWritable (slots_of rack.new)) }
{
    for name in names {
        open_to_write(rack, name)?;
    }
    Ok(())
}

/// Scrubs images, which are on the shelf before and after. The answer is `None` where there is no tally.
pub(super) fn scrub_images(
    rt: &impl Abort,
    alloc: Global,
    write: bool,
    rack: &mut MemRack,
    names: &[&str],
) -> Result<Option<Tally>, Fail> {
    assert!(rt; rack.count() == 0);
    open_all(rack, names)?;
    if rack.count() == 0 {
        return Ok(None);
    }
    let tally = scrubbed(alloc, write, rack);
    rack.close_all();
    Ok(tally)
}

/// Scrubs the images of a volume, which are on the shelf before and after, and asserts what it counts; `None` is no tally.
pub(super) fn expect_tally(
    rt: &impl Abort,
    alloc: Global,
    write: bool,
    volume: Made,
    rack: &mut MemRack,
    tally: Option<Tally>,
) -> Result<(), Fail> {
    let found = scrub_images(rt, alloc, write, rack, volume.names())?;
    assert_eq!(rt; found, tally, "{volume:?}");
    Ok(())
}

// What a scrub counts that only reads.
fn unwritten(tally: &Tally) -> Option<Tally> {
    Some(Tally {
        repaired: 0,
        ..*tally
    })
}

// What a second scrub counts behind one that wrote.
fn second(tally: &Tally) -> Option<Tally> {
    Some(Tally {
        bad: tally.bad.wrapping_sub(tally.repaired),
        repaired: 0,
        parity: 0,
        ..*tally
    })
}

// Scrubs a damaged volume, and only reads.
fn reads(rt: &impl Abort, alloc: Global, damage: &Damage, rack: &mut MemRack) -> Result<(), Fail> {
    let was = damaged(alloc, damage, false)?;
    let tally = unwritten(&damage.tally);
    expect_tally(rt, alloc, false, damage.volume, rack, tally)?;
    expect_same(rt, damage.volume, &was, rack);
    Ok(())
}

// Scrubs a damaged volume, and once more.
fn writes(rt: &impl Abort, alloc: Global, damage: &Damage, rack: &mut MemRack) -> Result<(), Fail> {
    expect_tally(rt, alloc, true, damage.volume, rack, Some(damage.tally))?;
    let again = second(&damage.tally);
    expect_tally(rt, alloc, true, damage.volume, rack, again)?;
    expect_same(rt, damage.volume, &damaged(alloc, damage, true)?, rack);
    Ok(())
}

/// Scrubs a damaged volume: only reading, writing, and again.
pub(super) fn mends(rt: &impl Abort, alloc: Global, damage: &Damage) -> Result<(), Fail> {
    let mut rack = damaged(alloc, damage, false)?;
    reads(rt, alloc, damage, &mut rack)?;
    writes(rt, alloc, damage, &mut rack)
}
