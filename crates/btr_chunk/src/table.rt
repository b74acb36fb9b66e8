use crate::index::{chunk_at, first_at, has_same, last_at, overlaps, put};
use crate::{AddFault, Chunk, StripePlace};
use std::alloc::Global;
use std::collections::BTreeMap;
use std::marker::Model;

const MAX_CHUNKS: usize = 65536;

/// The chunks of a filesystem, seen as the list of the chunks in ascending start. No two of them share a logical
/// address or a byte of a device.
#[derive(Drop)]
pub struct ChunkTable {
    // By their starts.
    chunks: BTreeMap<u64, Chunk>,
    // The ranges of devices that their stripes take up: the length of each by its first byte.
    extents: BTreeMap<StripePlace, u64>,
}

impl Model for ChunkTable {
    ghost use Rattle.std.specs.Prelude.{List};
    ghost use Rattle.std.specs.BTreeMap.{values};
    ghost use Rattle.btr_chunk.specs.declared.chunk.Chunk.{Chunk};
    ghost use Rattle.btr_chunk.specs.Index.{IsIndexed};

    ghost Value = { List Chunk };

    ghost view = { λ table. values table.chunks };

    ghost invariant = { λ table. IsIndexed table.chunks table.extents };
}

impl ChunkTable {
    ghost use Rattle.std.specs.Prelude.{◌≡◌, ◌<◌, [], length, slice_get, Some, IfSome, false};
    ghost use Rattle.std.specs.Option.{option_copied};
    ghost use Rattle.btr_chunk.specs.Chunk.{IsChunk, stripe_length};
    ghost use Rattle.btr_chunk.specs.Table.{IsTable, some_meet, IsAdding, chunk_at, next_at};

    /// A table of no chunks.
    pub fn new(alloc: Global) -> ChunkTable
        ensures { result ≡ [] }
    {
        ChunkTable {
            chunks: BTreeMap::new(alloc),
            extents: BTreeMap::new(alloc),
        }
    }

    /// How many chunks there are.
    pub fn count(&self) -> usize
        ensures count { result ≡ length self.now }
        ensures table { IsTable self.now }
    {
        self.chunks.len()
    }

    /// The chunk at the place `i` in ascending start, counted from 0. It is sought from the first one on.
    pub fn at(&self, i: usize) -> &Chunk
        requires { i < length self.now }
        ensures chunk { slice_get self.now i ≡ Some result.now }
        ensures sound { IsChunk result.now }
        ensures spread { some_meet (stripe_length result.now) result.now.stripes ≡ false }
    {
        chunk_at(&self.chunks, i)
    }

    /// The chunk that holds an address.
    pub fn find(&self, addr: u64) -> Option<&Chunk>
        ensures chunk { option_copied result ≡ chunk_at self.now addr }
        ensures sound { IfSome result (λ chunk. IsChunk chunk.now) }
        ensures spread { IfSome result
            (λ chunk. some_meet (stripe_length chunk.now) chunk.now.stripes ≡ false) }
    {
        let chunk = last_at(&self.chunks, addr)?;
        if addr - chunk.start < chunk.length {
            Some(chunk)
        } else {
            None
        }
    }

    /// The first chunk that starts at or behind an address. From the end of one chunk on it is the next one.
    pub fn next(&self, addr: u64) -> Option<&Chunk>
        ensures chunk { option_copied result ≡ next_at self.now addr }
        ensures sound { IfSome result (λ chunk. IsChunk chunk.now) }
        ensures spread { IfSome result
            (λ chunk. some_meet (stripe_length chunk.now) chunk.now.stripes ≡ false) }
    {
        let chunk = first_at(&self.chunks, addr)?;
        Some(chunk)
    }

    /// Adds a chunk. One that is equal in all fields to a chunk of the table changes nothing.
    ///
    /// Else `Overlap` where it shares a logical address or a byte of a device with a chunk of the table, or its own
    /// stripes share a byte, then `Chunks` where the table has 65536 chunks. After a refusal the table is as it was.
    pub fn add(&mut self, chunk: Chunk) -> Result<(), AddFault>
        requires { IsChunk chunk }
        ensures { IsAdding self.old chunk result self.new }
    {
        if has_same(&self.chunks, &chunk) {
            return Ok(());
        }
        if overlaps(&self.chunks, &self.extents, &chunk) {
            return Err(AddFault::Overlap);
        }
        if self.chunks.len() >= MAX_CHUNKS {
            return Err(AddFault::Chunks);
        }
        put(&mut self.chunks, &mut self.extents, chunk)?;
        Ok(())
    }
}
