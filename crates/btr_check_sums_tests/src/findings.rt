// Sectors with and without checksums.
ghost use Rattle.std.specs.Prelude.{IfOk};
ghost use Rattle.btr_chunk.specs.Chunk.{IsChunk};

use btr_base::Memory;
use btr_check_sums::{SumPlaces, UsedRange, put_missing_sums, put_sum_findings, sum_ranges};
use btr_chunk::{Chunk, ChunkFault, ChunkTable};
use btr_findings::{Extent, Finding, Found, Kind, SectorRule};
use btr_items::SumRun;
use btr_make_blocks::Body;
use std::alloc::Global;
use std::process::Abort;
use std::test::Fail;

const MIB: u64 = 1 << 20;

// An extent of data, or of a tree block.
fn extent(addr: u64, len: u64, flags: u64) -> Extent {
    Extent {
        addr,
        len,
        refs: 1,
        flags,
        level: None,
    }
}

// Four sectors of inode 257 from a mebibyte on.
const USED: UsedRange = UsedRange {
    inode: 257,
    addr: MIB,
    skip: 4096,
    len: 16384,
};

// A chunk of data on device 1.
fn chunk(alloc: Global, start: u64, len: u64) -> Result<Chunk, ChunkFault>
    ensures { IfOk result IsChunk }
{
    let body = Body::new(alloc)
        .u64(len)?
        .u64(2)?
        .u64(65536)?
        .u64(1)?
        .u32(65536)?
        .u32(65536)?
        .u32(4096)?
        .u16(1)?
        .u16(0)?
        .u64(1)?
        .u64(start)?
        .zeros(16)?;
    Chunk::read(alloc, start, body.as_slice())
}

// The table of one chunk.
fn one_chunk(alloc: Global, start: u64, len: u64) -> Result<ChunkTable, Fail> {
    let mut chunks = ChunkTable::new(alloc);
    chunks.add(chunk(alloc, start, len)?)?;
    Ok(chunks)
}

fn put_all(
    alloc: Global,
    found: &mut Found,
    chunks: &ChunkTable,
    runs: &[SumRun],
    extents: &[Extent],
    loose: &[u64],
) -> Result<(), Memory> {
    let sums = &sum_ranges(alloc, runs)?;
    let places = SumPlaces { chunks, sums };
    put_missing_sums(alloc, found, 5, loose, &[USED], &places)?;
    put_sum_findings(alloc, found, runs, extents)
}

// The findings are these, each a kind and its first three numbers.
fn finds(
    rt: &impl Abort,
    alloc: Global,
    runs: &[SumRun],
    extents: &[Extent],
    loose: &[u64],
    wanted: &[(Kind, u64, u64, u64)],
) -> Result<(), Fail> {
    let chunks = one_chunk(alloc, MIB, MIB)?;
    let mut found = Found::new(alloc);
    put_all(alloc, &mut found, &chunks, runs, extents, loose)?;
    are(rt, found.list(alloc)?.to_vec(alloc)?.as_slice(), wanted)
}

// Findings are these.
fn are(rt: &impl Abort, list: &[Finding], wanted: &[(Kind, u64, u64, u64)]) -> Result<(), Fail> {
    assert_eq!(rt; list.len(), wanted.len());
    for (finding, (kind, a, b, c)) in list.iter().zip(wanted) {
        assert_eq!(rt; finding.kind, *kind);
        assert_eq!(rt; finding.n, [*a, *b, *c, 0, 0, 0, 0]);
    }
    Ok(())
}

fn run(start: u64, count: u64) -> SumRun {
    SumRun { start, count }
}

#[test]
fn sectors_have_one_checksum_each(rt: HostRuntime) -> Result<(), Fail> {
    let alloc = rt.alloc();
    let extents = [extent(MIB, 32768, 1)];
    let first = MIB + 4096;
    finds(
        &rt,
        alloc,
        &[run(first, 2), run(first + 8192, 2)],
        &extents,
        &[],
        &[],
    )?;
    finds(
        &rt,
        alloc,
        &[run(first, 8), run(MIB, 1)],
        &extents,
        &[],
        &[(Kind::SumStray, MIB + 32768, 0, 0)],
    )?;
    let missing = [
        (Kind::SumMissing, 5, 257, first),
        (Kind::SumMissing, 5, 257, first + 12288),
    ];
    finds(&rt, alloc, &[run(first + 4096, 2)], &extents, &[], &missing)?;
    finds(
        &rt,
        alloc,
        &[run(first + 4096, 2)],
        &extents,
        &[256, 257],
        &[],
    )?;
    let twice = [(Kind::SumOverlap, first + 8192, 0, 0)];
    finds(
        &rt,
        alloc,
        &[run(first, 4), run(first + 8192, 1)],
        &extents,
        &[],
        &twice,
    )
}

#[test]
fn checksums_lie_in_data_extents(rt: HostRuntime) -> Result<(), Fail> {
    let alloc = rt.alloc();
    let runs = [run(MIB, 8)];
    let halves = [extent(MIB, 12288, 1), extent(MIB + 12288, 20480, 1)];
    finds(&rt, alloc, &runs, &halves, &[], &[])?;
    let apart = [extent(MIB, 12288, 1), extent(MIB + 16384, 16384, 1)];
    finds(
        &rt,
        alloc,
        &runs,
        &apart,
        &[],
        &[(Kind::SumStray, MIB + 12288, 0, 0)],
    )?;
    let metadata = [
        extent(MIB, 12288, 1),
        extent(MIB + 12288, 16384, 2),
        extent(MIB + 16384, 16384, 1),
    ];
    finds(
        &rt,
        alloc,
        &runs,
        &metadata,
        &[],
        &[(Kind::SumStray, MIB + 12288, 0, 0)],
    )
}

// Where a chunk begins, how long it is, and which of the four sectors lack a checksum then.
const CHUNKS: &[(u64, u64, &[(Kind, u64, u64, u64)])] = &[
    (
        MIB,
        12288,
        &[
            (Kind::SumMissing, 5, 257, MIB + 4096),
            (Kind::SumMissing, 5, 257, MIB + 8192),
        ],
    ),
    (MIB, 4096, &[]),
    (MIB + 4096, MIB, &[]),
    (MIB - 8192, 16384, &[(Kind::SumMissing, 5, 257, MIB + 4096)]),
];

#[test]
fn sectors_outside_the_chunk_of_their_extent(rt: HostRuntime) -> Result<(), Fail> {
    let alloc = rt.alloc();
    for (start, len, wanted) in CHUNKS {
        let chunks = one_chunk(alloc, *start, *len)?;
        let mut found = Found::new(alloc);
        put_all(alloc, &mut found, &chunks, &[], &[], &[])?;
        are(&rt, found.list(alloc)?.to_vec(alloc)?.as_slice(), wanted)?;
    }
    Ok(())
}

#[test]
fn a_length_that_is_far_too_large(rt: HostRuntime) -> Result<(), Fail> {
    let alloc = rt.alloc();
    let chunks = one_chunk(alloc, MIB, 12288)?;
    let sums = &sum_ranges(alloc, &[])?;
    let far = [UsedRange {
        len: 1 << 62,
        ..USED
    }];
    let mut found = Found::new(alloc);
    let places = SumPlaces {
        chunks: &chunks,
        sums,
    };
    put_missing_sums(alloc, &mut found, 5, &[], &far, &places)?;
    let wanted = [
        (Kind::SumMissing, 5, 257, MIB + 4096),
        (Kind::SumMissing, 5, 257, MIB + 8192),
    ];
    are(&rt, found.list(alloc)?.to_vec(alloc)?.as_slice(), &wanted)
}

// More sectors than any memory could list: those before and behind the one that has a checksum.
#[test]
fn sectors_that_no_memory_could_list(rt: HostRuntime) -> Result<(), Fail> {
    let alloc = rt.alloc();
    let chunks = one_chunk(alloc, MIB, 1 << 60)?;
    let sums = &sum_ranges(alloc, &[run(MIB + 8192, 1)])?;
    let far = [UsedRange {
        len: 1 << 59,
        ..USED
    }];
    let mut found = Found::new(alloc);
    let places = SumPlaces {
        chunks: &chunks,
        sums,
    };
    put_missing_sums(alloc, &mut found, 5, &[], &far, &places)?;
    let missing = SectorRule::Missing {
        tree: 5,
        inode: 257,
    };
    let mut all = found.list(alloc)?;
    assert_eq!(rt; all.next(), Some(missing.finding(MIB + 4096)));
    assert_eq!(rt; all.next(), Some(missing.finding(MIB + 12288)));
    Ok(())
}
