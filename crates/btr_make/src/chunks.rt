// The chunks of a plan, as items and as a table.
ghost use Rattle.std.specs.Prelude.{IfOk};
ghost use Rattle.btr_chunk.specs.Chunk.{IsChunk};

use crate::fault::MakeFault;
use crate::plan::{CHUNK_TREE_UUID, ChunkPlan, Plan, device_uuid};
use btr_base::Key;
use btr_chunk::{Chunk, ChunkTable, Stripe};
use btr_items::DevExtent;
use btr_items::item::{CHUNK_ITEM, DEV_EXTENT};
use btr_make_blocks::{Body, Items, bodies};
use std::alloc::{AllocError, Global};

/// The objectid of all chunks.
pub(crate) const CHUNKS: u64 = 256;

impl ChunkPlan {
    /// The body of the chunk's item.
    pub(crate) fn item(&self, alloc: Global) -> Result<Body, AllocError> {
        let mut stripes = Vec::new(alloc);
        for (devid, offset) in self.stripes {
            stripes.push(Stripe {
                devid: *devid,
                offset: *offset,
                uuid: device_uuid(*devid),
            })?;
        }
        bodies::chunk_item(alloc, self.length, self.kind, stripes.as_slice())
    }

    /// The chunk, as its item is read.
    pub(crate) fn chunk(&self, alloc: Global) -> Result<Chunk, MakeFault>
        ensures { IfOk result IsChunk }
    {
        Ok(Chunk::read(alloc, self.start, self.item(alloc)?.as_slice())?)
    }

    /// Puts the range of its device that each stripe takes up into the items of the device tree.
    pub(crate) fn put_device_extents(
        &self,
        alloc: Global,
        items: &mut Items,
    ) -> Result<(), MakeFault> {
        let extent = DevExtent {
            chunk: self.start,
            length: self.chunk(alloc)?.stripe_length(),
        };
        for (devid, offset) in self.stripes {
            let body = bodies::dev_extent(alloc, &extent, &CHUNK_TREE_UUID)?;
            items.put(*devid, DEV_EXTENT, *offset, body)?;
        }
        Ok(())
    }

    /// How many bytes of a device its stripes take up.
    pub(crate) fn bytes_on(&self, alloc: Global, devid: u64) -> Result<u64, MakeFault> {
        let length = self.chunk(alloc)?.stripe_length();
        let mut bytes = 0u64;
        for (on, _) in self.stripes {
            if *on == devid {
                bytes = bytes.wrapping_add(length);
            }
        }
        Ok(bytes)
    }
}

impl Plan {
    /// Its three chunks.
    pub(crate) fn chunks(&self) -> [ChunkPlan; 3] {
        [self.system, self.metadata, self.data]
    }

    /// The table of its chunks.
    pub(crate) fn table(&self, alloc: Global) -> Result<ChunkTable, MakeFault> {
        let mut table = ChunkTable::new(alloc);
        for plan in self.chunks() {
            table.add(plan.chunk(alloc)?)?;
        }
        Ok(table)
    }

    /// The system array: the key and the item of the chunk that holds the chunk tree.
    pub(crate) fn array(&self, alloc: Global) -> Result<Body, AllocError> {
        let key = Key {
            objectid: CHUNKS,
            kind: CHUNK_ITEM,
            offset: self.system.start,
        };
        Body::new(alloc)
            .key(key)?
            .bytes(self.system.item(alloc)?.as_slice())
    }
}
