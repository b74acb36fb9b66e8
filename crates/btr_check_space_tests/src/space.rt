// A small filesystem's space, in which all agrees.
ghost use Rattle.std.specs.Prelude.{IfOk};
ghost use Rattle.btr_chunk.specs.Chunk.{IsChunk};

use btr_base::Memory;
use btr_check_space::{DeviceExtent, Group, StatedDevice, put_device_findings, put_group_findings};
use btr_chunk::{Chunk, ChunkFault, ChunkTable};
use btr_findings::{Extent, Found, Kind};
use btr_make_blocks::Body;
use std::alloc::{AllocError, Global};
use std::process::Abort;
use std::test::Fail;

pub(super) const MIB: u64 = 1 << 20;

// The types of a chunk of data, and of one of metadata with two copies.
pub(super) const DATA: u64 = 1;

pub(super) const METADATA: u64 = 0x24;

// What trees and the superblock say of space.
#[derive(Drop)]
pub(super) struct Space {
    pub(super) extents: Vec<Extent>,
    pub(super) groups: Vec<Group>,
    pub(super) device_extents: Vec<DeviceExtent>,
    pub(super) devices: Vec<StatedDevice>,
    pub(super) used: u64,
}

pub(super) fn extent(addr: u64, len: u64) -> Extent {
    Extent {
        addr,
        len,
        refs: 1,
        flags: 1,
        level: None,
    }
}

pub(super) fn group(start: u64, len: u64, used: u64, flags: u64) -> Group {
    Group {
        start,
        len,
        used,
        flags,
    }
}

pub(super) fn device_extent(devid: u64, offset: u64, chunk: u64, len: u64) -> DeviceExtent {
    DeviceExtent {
        devid,
        offset,
        chunk,
        len,
    }
}

// Two extents in a chunk of 8 MiB of data, and one in a chunk of 4 MiB of metadata.
pub(super) fn sound(alloc: Global) -> Result<Space, Fail> {
    let extents = [
        extent(MIB, 8192),
        extent(MIB + 8192, 4096),
        extent(16 * MIB, 16384),
    ];
    let groups = [
        group(MIB, 8 * MIB, 12288, DATA),
        group(16 * MIB, 4 * MIB, 16384, METADATA),
    ];
    let device_extents = [
        device_extent(1, MIB, MIB, 8 * MIB),
        device_extent(1, 16 * MIB, 16 * MIB, 4 * MIB),
        device_extent(1, 24 * MIB, 16 * MIB, 4 * MIB),
    ];
    Ok(Space {
        extents: Vec::from_slice(alloc, &extents)?,
        groups: Vec::from_slice(alloc, &groups)?,
        device_extents: Vec::from_slice(alloc, &device_extents)?,
        devices: Vec::from_slice(
            alloc,
            &[StatedDevice {
                devid: 1,
                used: 16 * MIB,
            }],
        )?,
        used: 28672,
    })
}

// The item of a chunk on device 1.
fn item(alloc: Global, len: u64, kind: u64, offsets: &[u64]) -> Result<Body, AllocError> {
    let mut body = Body::new(alloc)
        .u64(len)?
        .u64(2)?
        .u64(65536)?
        .u64(kind)?
        .u32(65536)?
        .u32(65536)?
        .u32(4096)?
        .low_u16(offsets.len())?
        .u16(0)?;
    for offset in offsets {
        body = body.u64(1)?.u64(*offset)?.zeros(16)?;
    }
    Ok(body)
}

// A chunk on device 1.
fn chunk(
    alloc: Global,
    start: u64,
    len: u64,
    kind: u64,
    offsets: &[u64],
) -> Result<Chunk, ChunkFault>
    ensures { IfOk result IsChunk }
{
    let body = item(alloc, len, kind, offsets)?;
    Chunk::read(alloc, start, body.as_slice())
}

fn chunks(alloc: Global) -> Result<ChunkTable, Fail> {
    let mut table = ChunkTable::new(alloc);
    table.add(chunk(alloc, MIB, 8 * MIB, DATA, &[MIB])?)?;
    let copies = [16 * MIB, 24 * MIB];
    table.add(chunk(alloc, 16 * MIB, 4 * MIB, METADATA, &copies)?)?;
    Ok(table)
}

fn put_all(
    alloc: Global,
    found: &mut Found,
    chunks: &ChunkTable,
    space: &Space,
) -> Result<(), Memory> {
    put_group_findings(
        alloc,
        found,
        chunks,
        &space.extents,
        &space.groups,
        space.used,
    )?;
    put_device_findings(alloc, found, chunks, &space.device_extents, &space.devices)
}

// The findings are these, each a kind and its first three numbers.
pub(super) fn finds(
    rt: &impl Abort,
    alloc: Global,
    space: &Space,
    wanted: &[(Kind, u64, u64, u64)],
) -> Result<(), Fail> {
    let mut found = Found::new(alloc);
    put_all(alloc, &mut found, &chunks(alloc)?, space)?;
    let list = found.list(alloc)?.to_vec(alloc)?;
    assert_eq!(rt; list.len(), wanted.len());
    for (finding, (kind, a, b, c)) in list.iter().zip(wanted) {
        assert_eq!(rt; finding.kind, *kind);
        assert_eq!(rt; finding.n, [*a, *b, *c, 0, 0, 0, 0]);
    }
    Ok(())
}
