// The chunks of the chunk tree.
ghost use Rattle.std.specs.Prelude.{◌≡◌};
ghost use Rattle.btr_chunk.specs.Item.{chunk_of};
ghost use Rattle.btr_volume.specs.Table.{is_chunk, with_chunk, table_step, whole_table, IsAdded};

use crate::TableFault;
use btr_base::{Key, Memory};
use btr_chunk::{AddFault, Chunk, ChunkFault, ChunkTable};
use btr_walk::{Folder, Found, Took};
use std::alloc::Global;
use std::marker::Model;

// The objectid of the keys of chunks.
const CHUNKS: u64 = 256;

const CHUNK_ITEM: u8 = 228;

/// The chunks so far, and what they are allocated by.
#[derive(Drop)]
pub(crate) struct Chunks {
    pub(crate) alloc: Global,
    pub(crate) table: ChunkTable,
}

impl Model for Chunks {
    ghost use Rattle.std.specs.Prelude.{List};
    ghost use Rattle.btr_chunk.specs.declared.chunk.Chunk.{Chunk};

    ghost Value = { List Chunk };

    ghost view = { λ chunks. chunks.table };
}

// Whether this is the key of a chunk.
fn is_chunk(key: Key) -> bool
    ensures { result ≡ is_chunk key }
{
    key.objectid == CHUNKS && key.kind == CHUNK_ITEM
}

// Adds the chunk that an item describes, or answers why it can't be added.
fn add_chunk(
    alloc: Global,
    table: &mut ChunkTable,
    start: u64,
    body: &[u8],
) -> Result<Option<TableFault>, Memory>
    ensures { IsAdded (with_chunk table.old start (chunk_of start body.now)) table.new result }
{
    let chunk = match Chunk::read(alloc, start, body) {
        Ok(chunk) => chunk,
        Err(ChunkFault::Stripes(n)) => {
            return Ok(Some(TableFault::Stripes(n)));
        }
        Err(ChunkFault::Bad) => return Ok(Some(TableFault::BadChunk(start))),
        Err(ChunkFault::Memory) => return Err(Memory),
    };
    match table.add(chunk) {
        Ok(()) => Ok(None),
        Err(AddFault::Overlap) => Ok(Some(TableFault::BadChunk(start))),
        Err(AddFault::Chunks) => Ok(Some(TableFault::Chunks)),
        Err(AddFault::Memory) => Err(Memory),
    }
}

impl Folder<Result<ChunkTable, TableFault>, Memory> for Chunks {
    ghost use Rattle.btr_volume.specs.Table.{table_step, whole_table};

    ghost step = { table_step };

    ghost answer = { whole_table };

    fn take(&mut self, item: &Found<'_>) -> Result<Took<Result<ChunkTable, TableFault>>, Memory> {
        if !is_chunk(item.key) {
            return Ok(Took::Go);
        }
        match add_chunk(self.alloc, &mut self.table, item.key.offset, item.body)? {
            None => Ok(Took::Go),
            Some(refusal) => Ok(Took::End(Err(refusal))),
        }
    }

    fn end(self) -> Result<ChunkTable, TableFault> {
        Ok(self.table)
    }
}
