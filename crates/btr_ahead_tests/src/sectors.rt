// Sectors of a chunk, and what was read ahead of them.
ghost use Rattle.std.specs.Prelude.{◌<◌, IfOk, length};
ghost use Rattle.btr_rack.specs.Memory.{seen_of, slots_of};
ghost use Rattle.btr_read.specs.Serves.{Serves};

use crate::images::{MIB, sector};
use btr_ahead::DataAhead;
use btr_base::{SumKind, sum};
use btr_chunk::{Chunk, ChunkTable, Stripe};
use btr_make_blocks::bodies;
use btr_rack::{MemRack, Rack};
use btr_read::{Store, Want};
use std::alloc::Global;
use std::marker::Model;
use std::process::Abort;
use std::test::Fail;

pub(crate) const SINGLE: u64 = 1;

pub(crate) const DUP: u64 = 0x21;

pub(crate) const RAID0: u64 = 9;

/// What is read ahead of a chunk of 1 MiB at 16 MiB, whose stripes lie in the first image of a rack.
#[derive(Drop)]
pub(crate) struct Sectors {
    rack: MemRack,
    store: Store,
    ahead: DataAhead,
}

impl Model for Sectors {
    ghost use Rattle.btr_rack.specs.Memory.{seen_of};
    ghost use Rattle.btr_read.specs.Serves.{Serves};
    ghost use Rattle.btr_read.specs.Store.{Blocks};
    ghost use Rattle.btr_ahead.specs.Ahead.{IsAhead};

    ghost Value = { Blocks };

    ghost view = { λ s. s.store };

    ghost invariant = { λ s. Serves (seen_of s.rack) s.store × IsAhead (seen_of s.rack).held s.ahead };
}

// A stripe of device 1.
const fn stripe(offset: u64) -> Stripe {
    Stripe {
        devid: 1,
        offset,
        uuid: [7; 16],
    }
}

// The table of the chunk, whose stripes begin at 1 MiB and 2 MiB of the device.
fn chunks(alloc: Global, kind: u64) -> Result<ChunkTable, Fail> {
    let stripes = [stripe(MIB), stripe(2 * MIB)];
    let count = if kind == SINGLE { 1 } else { 2 };
    let item = bodies::chunk_item(alloc, MIB, kind, &stripes[..count])?;
    let mut chunks = ChunkTable::new(alloc);
    chunks.add(Chunk::read(alloc, 16 * MIB, item.as_slice())?)?;
    Ok(chunks)
}

// The store that reads the chunk from the first image.
fn store_over(alloc: Global, kind: u64, rack: &MemRack) -> Result<Store, Fail>
    requires { 0 < length (slots_of rack.now) }
    ensures { IfOk result (Serves (seen_of rack.now)) }
{
    let chunks = chunks(alloc, kind)?;
    let mut store = Store::new(alloc, SumKind::Crc32c, [0; 16], 4096, chunks)?;
    store.add_device(1, 0, rack.len(0), false)?;
    Ok(store)
}

/// The want of a sector by its number, with the checksum of another.
pub(crate) fn want(k: u64, other: u64) -> Want {
    Want::Sector {
        addr: (16 * MIB).wrapping_add(k.wrapping_mul(4096)),
        sum: sum(SumKind::Crc32c, &sector(other)),
    }
}

impl Sectors {
    /// Nothing is read ahead of a chunk of a kind.
    pub(crate) fn new(
        rt: &impl Abort,
        alloc: Global,
        kind: u64,
        rack: MemRack,
    ) -> Result<Sectors, Fail> {
        assert!(rt; rack.count() == 1);
        let store = store_over(alloc, kind, &rack)?;
        Ok(Sectors {
            rack,
            store,
            ahead: DataAhead::new(),
        })
    }

    /// Whether a want is had, where so many sectors are wanted from it on.
    pub(crate) fn has(&mut self, want: &Want, wanted: u64) -> bool {
        self.ahead.has(want, wanted, &mut self.rack, &self.store)
    }

    /// Whether the sectors from one to another, by their numbers, are had, where those up to `end` are wanted.
    pub(crate) fn has_all(&mut self, first: u64, last: u64, end: u64) -> bool {
        for k in first..last {
            if !self.has(&want(k, k), end.saturating_sub(k)) {
                return false;
            }
        }
        true
    }
}
