// A sector with two copies, one of which is damaged, or stale.
ghost use Rattle.std.specs.Prelude.{◌≡◌, length, IsTrue, IfOk};
ghost use Rattle.btr_rack.specs.Memory.{seen_of, slots_of};
ghost use Rattle.btr_read.specs.Serves.{Serves};
ghost use Rattle.btr_read.specs.Store.{free_count};
ghost use Rattle.btr_read.specs.Want.{len_of};
ghost use Rattle.btr_scrub_copies.specs.Mending.{IsCopied};
ghost use Rattle.btr_scrub_copies.specs.Writes.{AreWritable};

use crate::{Mended, mend_copies, mend_plain};
use btr_base::{SumKind, sum};
use btr_chunk::{Chunk, ChunkTable, Part, elements, place_of};
use btr_rack::{MemRack, Rack};
use btr_read::{Store, Want};
use std::alloc::{AllocError, Global};
use std::process::Abort;
use std::test::Fail;

const MIB: u64 = 1048576;

const NODE: u32 = 16384;

const SECTOR: [u8; 4096] = [0x5a; 4096];

const WANT_ADDR: u64 = 17 * MIB + 8192;

// The item of a chunk of data with two copies, at 1 MiB of device 1 and at 2 MiB of device 2.
fn item(alloc: Global) -> Result<Vec<u8>, AllocError> {
    let mut bytes = Vec::new(alloc);
    for field in [65536u64, 2, 65536, 17] {
        bytes.extend_from_slice(&field.to_le_bytes())?;
    }
    bytes.extend_from_slice(&[0, 0, 1, 0, 0, 0, 1, 0, 0, 16, 0, 0, 2, 0, 1, 0])?;
    for devid in [1, 2] {
        bytes.extend_from_slice(&u64::to_le_bytes(devid))?;
        bytes.extend_from_slice(&u64::to_le_bytes(devid * MIB))?;
        bytes.extend_from_slice(&[7; 16])?;
    }
    Ok(bytes)
}

// Two images: in the second the copy of the sector is right, and in the first one byte of it is changed.
fn images(alloc: Global) -> Result<MemRack, Fail> {
    let mut rack = MemRack::new(alloc);
    rack.add("a", 4 * MIB)?;
    rack.poke("a", MIB + 8192, &SECTOR)?;
    rack.poke("a", MIB + 9000, &[0])?;
    rack.add("b", 4 * MIB)?;
    rack.poke("b", 2 * MIB + 8192, &SECTOR)?;
    Ok(rack)
}

// Whether a block has copies, and all of them stand.
fn has_copies(want: &Want, len: u64, store: &Store) -> bool
    requires { len ≡ len_of store.now.layout.setting want.now }
    ensures { IsTrue result → IsCopied store.now.layout want.now }
{
    let Some(chunk) = store.chunks().find(want.addr()) else {
        return false;
    };
    let Some(copies) = chunk.mirrors() else {
        return false;
    };
    let Ok(at) = elements(chunk, want.addr(), len) else {
        return false;
    };
    for mirror in 0..copies {
        let place = place_of(chunk, Part::Mirror(mirror), &at);
        let Some(device) = store.device(place.devid) else {
            return false;
        };
        if place.offset > device.len || len > device.len - place.offset {
            return false;
        }
    }
    true
}

// Opens both images, which are on the shelf of a rack.
fn open_both(rack: &mut MemRack) -> Result<bool, Fail>
    ensures { IfOk result (λ both. IsTrue both
        → (length (slots_of rack.new) ≡ 2) × AreWritable (slots_of rack.new)) }
{
    if rack.count() != 0 {
        return Ok(false);
    }
    rack.open("a", true)?;
    rack.open("b", true)?;
    Ok(true)
}

// The store that reads the chunk from both images, of which the first is older or not.
fn store_over(alloc: Global, older: bool, rack: &MemRack) -> Result<Store, Fail>
    requires { length (slots_of rack.now) ≡ 2 }
    ensures serves { IfOk result (Serves (seen_of rack.now)) }
    ensures free { IfOk result (λ store. free_count store ≡ 24) }
{
    let mut table = ChunkTable::new(alloc);
    table.add(Chunk::read(alloc, 17 * MIB, item(alloc)?.as_slice())?)?;
    let mut store = Store::new(alloc, SumKind::Crc32c, [0; 16], NODE, table)?;
    store.add_device(1, 0, rack.len(0), older)?;
    store.add_device(2, 1, rack.len(1), false)?;
    Ok(store)
}

// Mends the sector by its checksum.
fn mended(alloc: Global, rack: &mut MemRack) -> Result<Option<Mended>, Fail> {
    if !open_both(rack)? {
        return Ok(None);
    }
    let mut store = store_over(alloc, false, rack)?;
    let want = Want::Sector {
        addr: WANT_ADDR,
        sum: sum(SumKind::Crc32c, &SECTOR),
    };
    if !has_copies(&want, 4096, &store) {
        return Ok(None);
    }
    match mend_copies(&want, true, rack, &mut store, &mut [false; 2]) {
        Ok(mended) => Ok(Some(mended)),
        Err(_) => Ok(None),
    }
}

// Brings the sector up to date, as one without a checksum. The first image is older or not.
fn freshened(
    alloc: Global,
    older: bool,
    failing: [bool; 2],
    write: bool,
    rack: &mut MemRack,
) -> Result<Option<Mended>, Fail> {
    if !open_both(rack)? {
        return Ok(None);
    }
    let mut store = store_over(alloc, older, rack)?;
    let want = Want::Plain { addr: WANT_ADDR };
    if !has_copies(&want, 4096, &store) {
        return Ok(None);
    }
    match mend_plain(&want, write, &failing, rack, &mut store, &mut [false; 2]) {
        Ok(mended) => Ok(Some(mended)),
        Err(_) => Ok(None),
    }
}

const fn found(bad: u32, repaired: u32) -> Option<Mended> {
    Some(Mended {
        bad,
        repaired,
        lost: false,
    })
}

#[test]
fn damaged_copy_is_mended(rt: HostRuntime) -> Result<(), Fail> {
    let mut rack = images(rt.alloc())?;
    assert_eq!(rt; mended(rt.alloc(), &mut rack)?, found(1, 1));
    assert_eq!(rt; rack.byte("a", MIB + 9000), Some(0x5a));
    assert_eq!(rt; rack.byte("a", MIB + 8191), Some(0));
    Ok(())
}

#[test]
fn stale_copy_gets_the_fresh_bytes(rt: HostRuntime) -> Result<(), Fail> {
    let mut rack = images(rt.alloc())?;
    let stale = [true, false];
    assert_eq!(rt;
        freshened(rt.alloc(), true, stale, true, &mut rack)?,
        found(1, 1)
    );
    assert_eq!(rt; rack.byte("a", MIB + 9000), Some(0x5a));
    assert_eq!(rt; rack.byte("b", 2 * MIB + 9000), Some(0x5a));
    Ok(())
}

#[test]
fn stale_copy_is_only_counted(rt: HostRuntime) -> Result<(), Fail> {
    let mut rack = images(rt.alloc())?;
    let stale = [true, false];
    assert_eq!(rt;
        freshened(rt.alloc(), true, stale, false, &mut rack)?,
        found(1, 0)
    );
    assert_eq!(rt; rack.byte("a", MIB + 9000), Some(0));
    Ok(())
}

#[test]
fn copy_in_doubt_is_no_source(rt: HostRuntime) -> Result<(), Fail> {
    let mut rack = images(rt.alloc())?;
    assert_eq!(rt;
        freshened(rt.alloc(), true, [true; 2], true, &mut rack)?,
        found(0, 0)
    );
    assert_eq!(rt; rack.byte("a", MIB + 9000), Some(0));
    Ok(())
}

// An image that is older and holds no block that fails isn't behind, nor one that holds such a block and isn't older.
#[test]
fn nothing_is_read_where_no_image_is_behind(rt: HostRuntime) -> Result<(), Fail> {
    for (older, failing) in [(true, false), (false, true)] {
        let mut rack = images(rt.alloc())?;
        rack.fail_range("a", 0, 4 * MIB)?;
        rack.fail_range("b", 0, 4 * MIB)?;
        let flags = [failing, true];
        assert_eq!(rt;
            freshened(rt.alloc(), older, flags, true, &mut rack)?,
            found(0, 0)
        );
        assert_eq!(rt; rack.byte("a", MIB + 9000), Some(0));
    }
    Ok(())
}
