ghost use Rattle.std.specs.Prelude.{IfOk};
ghost use Rattle.btr_chunk.specs.Chunk.{IsChunk};

use super::chunks::{ELEMENT, Form, START, chunk, item, put_stripe};
use btr_chunk::{
    AddFault, ArrayFault, Chunk, ChunkFault, ChunkTable, Elements, Part, copies_apart, parts_apart,
    parts_cover, parts_differ, place_inside, places_differ, read_array, stripes_apart,
};
use std::alloc::{AllocError, Global};
use std::process::Abort;
use std::test::Fail;

const MIB: u64 = 1048576;

// A chunk of DUP type whose stripes are `first` and `first + 1` MiB into devices 11 and 12.
fn pair(alloc: Global, start: u64, length: u64, first: u64) -> Result<Chunk, ChunkFault>
    ensures { IfOk result IsChunk }
{
    let form = Form {
        length,
        stripe_len: ELEMENT,
        kind: 0x24,
        count: 2,
        sub_stripes: 0,
    };
    let bytes = item(alloc, form, 2, first)?;
    Chunk::read(alloc, start, bytes.as_slice())
}

// Adds such a chunk to a table.
fn added(
    alloc: Global,
    table: &mut ChunkTable,
    start: u64,
    length: u64,
    first: u64,
) -> Result<Result<(), AddFault>, Fail> {
    Ok(table.add(pair(alloc, start, length, first)?))
}

// The starts of the chunks of a table.
const STARTS: [u64; 4] = [2 * MIB, 3 * MIB, 4 * MIB, 8 * MIB];

// The first chunks, by their starts and where the first stripe begins. One comes twice.
const PAIRS: [(u64, u64); 4] = [(8 * MIB, 8), (2 * MIB, 2), (4 * MIB, 5), (2 * MIB, 2)];

// Of the same start, and not equal; in the middle of one; over two of them. Then addresses that are free, and a byte of a device that isn't: from behind,
// from before, and at the start.
const OVERLAPPING: [(u64, u64, u64); 6] = [
    (2 * MIB, MIB, 12),
    (2 * MIB + 4096, 4096, 12),
    (MIB, 4 * MIB, 12),
    (64 * MIB, 4096, 2),
    (64 * MIB, MIB + 4096, 1),
    (64 * MIB, MIB, 5),
];

// The table of the chunks; before the last one is added, which is just beside others in both ways, those are refused that overlap.
fn pairs(rt: &impl Abort, alloc: Global) -> Result<ChunkTable, Fail> {
    let mut table = ChunkTable::new(alloc);
    assert_eq!(rt; table.count(), 0);
    for (start, first) in &PAIRS {
        added(alloc, &mut table, *start, MIB, *first)??;
    }
    for (start, length, first) in &OVERLAPPING {
        let added = added(alloc, &mut table, *start, *length, *first)?;
        assert!(rt; added == Err(AddFault::Overlap), "{start} {first}");
    }
    added(alloc, &mut table, 3 * MIB, MIB, 3)??;
    Ok(table)
}

#[test]
fn keeps_chunks_apart(rt: HostRuntime) -> Result<(), Fail> {
    let table = pairs(&rt, rt.alloc())?;
    assert_eq!(rt; table.count(), 4);
    for i in 0..4 {
        assert_eq!(rt; table.at(i).start, STARTS[i]);
    }
    Ok(())
}

// One after the other, each from the end of the one before.
#[test]
fn gives_chunks_in_ascending_order(rt: HostRuntime) -> Result<(), Fail> {
    let table = pairs(&rt, rt.alloc())?;
    let mut behind = 0;
    for start in STARTS {
        let next = table.next(behind).map(|chunk| chunk.start);
        assert!(rt; next == Some(start), "behind {behind}");
        behind = start + MIB;
    }
    assert!(rt; table.next(behind).is_none());
    Ok(())
}

const FOUND: [(u64, Option<u64>); 8] = [
    (2 * MIB - 1, None),
    (2 * MIB, Some(2 * MIB)),
    (3 * MIB - 1, Some(2 * MIB)),
    (3 * MIB, Some(3 * MIB)),
    (5 * MIB - 1, Some(4 * MIB)),
    (5 * MIB, None),
    (9 * MIB, None),
    (u64::MAX, None),
];

#[test]
fn finds_chunks(rt: HostRuntime) -> Result<(), Fail> {
    let table = pairs(&rt, rt.alloc())?;
    for (addr, start) in &FOUND {
        let found = table.find(*addr).map(|chunk| chunk.start);
        assert!(rt; found == *start, "{addr}");
    }
    Ok(())
}

// A chunk whose two stripes are on one device, from 1 MiB and from 2 MiB on.
fn on_one_device(alloc: Global, length: u64) -> Result<Chunk, ChunkFault>
    ensures { IfOk result IsChunk }
{
    let form = Form {
        length,
        stripe_len: ELEMENT,
        kind: 0x24,
        count: 2,
        sub_stripes: 0,
    };
    let mut bytes = item(alloc, form, 1, 1)?;
    put_stripe(&mut bytes, 11, 2 * MIB)?;
    Chunk::read(alloc, MIB, bytes.as_slice())
}

#[test]
fn refuses_stripes_that_overlap(rt: HostRuntime) -> Result<(), Fail> {
    for (length, count) in [(MIB, 1), (MIB + 4096, 0)] {
        let mut table = ChunkTable::new(rt.alloc());
        let added = table.add(on_one_device(rt.alloc(), length)?);
        assert_eq!(rt; added.is_ok(), count == 1);
        assert_eq!(rt; table.count(), count);
    }
    Ok(())
}

// A chunk of one sector, at the place of its number.
fn sector(alloc: Global, number: u64) -> Result<Chunk, ChunkFault>
    ensures { IfOk result IsChunk }
{
    let form = Form {
        length: 4096,
        stripe_len: ELEMENT,
        kind: 1,
        count: 1,
        sub_stripes: 0,
    };
    let offset = number.wrapping_mul(4096);
    let mut bytes = item(alloc, form, 0, 0)?;
    put_stripe(&mut bytes, 1, offset)?;
    Chunk::read(alloc, offset, bytes.as_slice())
}

// Adds such a chunk to a table.
fn add_sector(
    alloc: Global,
    table: &mut ChunkTable,
    number: u64,
) -> Result<Result<(), AddFault>, Fail> {
    Ok(table.add(sector(alloc, number)?))
}

#[test]
fn holds_65536_chunks(rt: HostRuntime) -> Result<(), Fail> {
    let alloc = rt.alloc();
    let mut table = ChunkTable::new(alloc);
    for number in 0..65536 {
        add_sector(alloc, &mut table, number)??;
    }
    let further = add_sector(alloc, &mut table, 65536)?;
    assert_eq!(rt; further, Err(AddFault::Chunks));
    let overlapping = added(alloc, &mut table, 4096, 4096, 1)?;
    assert_eq!(rt; overlapping, Err(AddFault::Overlap));
    assert_eq!(rt; add_sector(alloc, &mut table, 65535)?, Ok(()));
    assert_eq!(rt; table.count(), 65536);
    Ok(())
}

// Appends a pair of an array: a key of this type and start, and an item.
fn put_pair(bytes: &mut Vec<u8>, alloc: Global, pair: (u8, u64, u16)) -> Result<(), AllocError> {
    let (kind, start, count) = pair;
    let form = Form {
        length: MIB,
        stripe_len: ELEMENT,
        kind: 0x22,
        count,
        sub_stripes: 0,
    };
    bytes.extend_from_slice(&256u64.to_le_bytes())?;
    bytes.push(kind)?;
    bytes.extend_from_slice(&start.to_le_bytes())?;
    bytes.extend_from_slice(item(alloc, form, count, start / MIB)?.as_slice())
}

fn array_of(alloc: Global, pairs: &[(u8, u64, u16)]) -> Result<Vec<u8>, AllocError> {
    let mut bytes = Vec::new(alloc);
    for pair in pairs {
        put_pair(&mut bytes, alloc, *pair)?;
    }
    Ok(bytes)
}

// The last pair is the first again.
const THREE_PAIRS: [(u8, u64, u16); 3] = [(228, 4 * MIB, 2), (228, MIB, 2), (228, 4 * MIB, 2)];

#[test]
fn reads_arrays(rt: HostRuntime) -> Result<(), Fail> {
    let bytes = array_of(rt.alloc(), &THREE_PAIRS)?;
    let table = read_array(rt.alloc(), bytes.as_slice())?;
    assert_eq!(rt; table.count(), 2);
    assert_eq!(rt; table.at(0).start, MIB);
    assert_eq!(rt; read_array(rt.alloc(), &[])?.count(), 0);
    Ok(())
}

// Why an array isn't read.
fn refusal(alloc: Global, bytes: &[u8]) -> Option<ArrayFault> {
    match read_array(alloc, bytes) {
        Ok(_) => None,
        Err(fault) => Some(fault),
    }
}

#[test]
fn refuses_arrays_that_are_cut_short(rt: HostRuntime) -> Result<(), Fail> {
    let bytes = array_of(rt.alloc(), &THREE_PAIRS)?;
    let last = bytes.len().saturating_sub(1);
    let cut = refusal(rt.alloc(), &bytes.as_slice()[..last]);
    assert_eq!(rt; cut, Some(ArrayFault::BadArray));
    Ok(())
}

const REFUSED: [((u8, u64, u16), ArrayFault); 6] = [
    ((216, 9 * MIB, 2), ArrayFault::BadArray),
    ((228, 9 * MIB, 0), ArrayFault::BadArray),
    ((228, 9 * MIB, 65), ArrayFault::Stripes(65)),
    ((228, 9 * MIB, 3), ArrayFault::BadChunk(9 * MIB)),
    ((228, 9 * MIB + 512, 2), ArrayFault::BadChunk(9 * MIB + 512)),
    ((228, MIB + 4096, 2), ArrayFault::BadChunk(MIB + 4096)),
];

#[test]
fn refuses_arrays(rt: HostRuntime) -> Result<(), Fail> {
    for (pair, fault) in &REFUSED {
        let bytes = array_of(rt.alloc(), &[(228, MIB, 2), *pair])?;
        let found = refusal(rt.alloc(), bytes.as_slice());
        assert_eq!(rt; found, Some(*fault));
    }
    Ok(())
}

#[test]
fn laws_hold(rt: HostRuntime) -> Result<(), Fail> {
    let chunk = chunk(rt.alloc(), 0x101, 4, 4 * ELEMENT)?;
    assert!(rt; chunk.mirrors().is_none() && chunk.stripes.len() == 4);
    let row = Elements {
        row: 1,
        index: 0,
        rest: 0,
    };
    parts_differ(&chunk, &row, Part::P, Part::P);
    parts_cover(&chunk, &row, 3);
    stripes_apart();
    parts_apart();
    copies_apart();
    place_inside(
        &chunk,
        Part::P,
        &btr_chunk::elements(&chunk, chunk.start, 1)?,
        1,
    );
    assert_eq!(rt; chunk.stripes.at(3).devid, 14);
    let mut table = ChunkTable::new(rt.alloc());
    table.add(chunk)?;
    let chunk = table.find(START).ok_or("no chunk")?;
    assert!(rt;
        chunk.mirrors().is_none() && chunk.start <= START && START - chunk.start < chunk.length
    );
    places_differ(chunk, 0, START, START);
    Ok(())
}
