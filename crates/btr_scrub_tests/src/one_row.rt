// One full stripe, mended by itself.
ghost use Rattle.std.specs.Prelude.{◌≡◌, [], ◌∷◌, ◌<◌, length, IfSome};
ghost use Rattle.btr_chunk.specs.Table.{IsTable};
ghost use Rattle.btr_scrub_copies.specs.Writes.{AreWritable};
ghost use Rattle.btr_rack.specs.Memory.{seen_of, slots_of};
ghost use Rattle.btr_read.specs.Serves.{Serves};
ghost use Rattle.btr_read.specs.declared.want.Want.TheVariants.{Sector};
ghost use Rattle.btr_scrub_row.specs.Mending.{IsRow};

use super::damage::{expect_same, open_all, turn};
use super::shapes::Made;
use btr_base::{Sum, SumKind, sum};
use btr_chunk::elements;
use btr_make::{RowVolume, row};
use btr_rack::{MemRack, Rack};
use btr_read::{Store, Want};
use btr_scrub::missing_device;
use btr_scrub_row::{MendedRow, RowAt, RowBuffer, RowWork, mend_row};
use btr_volume::Volume;
use std::alloc::Global;
use std::test::Fail;

// The first sector of data.
const ADDR: u64 = 16777216;

const FIRST: [u8; 4096] = [b'A'; 4096];

// The full stripe in which a sector lies, if it lies in one, and no device is missing.
fn row_of_sector(addr: u64, sum: Sum, nodesize: u32, rack: &MemRack, store: &Store) -> Option<RowAt>
    requires { Serves (seen_of rack.now) store.now }
    ensures row { IfSome result (λ at. IsRow store.now.layout at.chunk at.number (Sector addr sum ∷ [])) }
    ensures nodesize { IfSome result (λ at. at.nodesize ≡ nodesize) }
    ensures table { IsTable store.now.layout.chunks }
{
    if missing_device(store).is_some() {
        return None;
    }
    let chunk = store.chunks().find(addr)?;
    if chunk.mirrors().is_some() {
        return None;
    }
    match elements(chunk, addr, 4096) {
        Ok(at) => Some(RowAt {
            chunk: chunk.start,
            number: at.row,
            nodesize,
        }),
        Err(_) => None,
    }
}

// Mends the row of the first sector of data in the volume of a rack's open images, of which there are four.
fn mended(alloc: Global, rack: &mut MemRack) -> Option<MendedRow>
    requires some { 0 < length (slots_of rack.old) }
    requires writable { AreWritable (slots_of rack.old) }
{
    let Ok(mut volume) = Volume::open(alloc, rack) else {
        return None;
    };
    let sum = sum(SumKind::Crc32c, &FIRST);
    let at = row_of_sector(ADDR, sum, volume.sup.nodesize, rack, &volume.store)?;
    let Ok(mut buffer) = RowBuffer::new(alloc, 64) else {
        return None;
    };
    if rack.count() != 4 {
        return None;
    }
    let wants = [Want::Sector { addr: ADDR, sum }];
    let work = RowWork {
        at,
        wants: &wants,
        failing: &[false; 4],
        write: true,
    };
    let store = &mut volume.store;
    match mend_row(work, rack, store, &mut buffer, &mut [false; 4]) {
        Ok(mended) => Some(mended),
        Err(_) => None,
    }
}

// A row of RAID6: the block is made right by Q, and P of its column behind it; what no checked block meets is left.
#[test]
fn one_full_stripe(rt: HostRuntime) -> Result<(), Fail> {
    let alloc = rt.alloc();
    let names = ["a", "b", "c", "d"];
    let mut right = row(alloc, RowVolume::Raid6)?;
    turn(&mut right, &[("a", 10489856), ("d", 10489856)])?;
    let mut rack = row(alloc, RowVolume::Raid6)?;
    turn(
        &mut rack,
        &[
            ("a", 10489856),
            ("d", 10489856),
            ("a", 10485767),
            ("c", 10485760),
        ],
    )?;
    assert_eq!(rt; rack.count(), 0);
    open_all(&mut rack, &names)?;
    let expected = MendedRow {
        blocks: 1,
        bad: 1,
        repaired: 1,
        lost: 0,
        parity: 1,
    };
    if rack.count() > 0 {
        assert_eq!(rt; mended(alloc, &mut rack), Some(expected));
    }
    expect_same(&rt, Made::Row(RowVolume::Raid6), &right, &rack);
    Ok(())
}
