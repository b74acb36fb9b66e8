// The items of the extent tree.
use crate::chunks::CHUNKS;
use crate::draft::{BlockPlace, DataExtent, Draft};
use crate::plan::{ChunkPlan, GENERATION, NODE};
use btr_items::item::{
    BLOCK_GROUP_ITEM, EXTENT_DATA_REF, EXTENT_ITEM, METADATA_ITEM, TREE_BLOCK_REF,
};
use btr_items::{BlockGroup, ExtentFlags, ExtentItem, Link};
use btr_make_blocks::{Body, Items, bodies};
use std::alloc::{AllocError, Global};

impl Draft {
    /// The items of the extent tree: each data extent, each tree block and each block group.
    pub(crate) fn extent_items(&self) -> Result<Items, AllocError> {
        let mut items = Items::new(self.alloc);
        for (addr, extent) in &self.extents {
            items.put(*addr, EXTENT_ITEM, extent.len, extent.item(self.alloc)?)?;
        }
        for link in &self.loose {
            let hash = bodies::data_ref_hash(link.root, link.objectid, link.offset);
            let body = bodies::loose_ref(self.alloc, &link.link(), 1)?;
            items.put(link.addr, EXTENT_DATA_REF, hash, body)?;
        }
        for block in &self.blocks {
            let body = block.item(self.alloc, self.refs_to(block))?;
            items.put(block.addr, METADATA_ITEM, u64::from(block.level), body)?;
        }
        for block in &self.shared {
            let body = bodies::loose_ref(self.alloc, &Link::Tree(block.owner), 1)?;
            items.put(block.addr, TREE_BLOCK_REF, block.owner, body)?;
        }
        for chunk in self.plan.chunks() {
            let group = BlockGroup {
                used: self.used_in(&chunk),
                owner: CHUNKS,
                flags: chunk.kind,
            };
            let body = bodies::block_group(self.alloc, &group)?;
            items.put(chunk.start, BLOCK_GROUP_ITEM, chunk.length, body)?;
        }
        Ok(items)
    }

    // How many trees have a node that points to a block, or have it as their root.
    fn refs_to(&self, block: &BlockPlace) -> u64 {
        let others = self.shared.iter().filter(|one| one.addr == block.addr);
        (others.count() as u64).wrapping_add(1)
    }

    /// How many bytes of a chunk lie in extents.
    pub(crate) fn used_in(&self, chunk: &ChunkPlan) -> u64 {
        let mut used = 0u64;
        for (addr, extent) in &self.extents {
            if chunk.holds(*addr) {
                used = used.wrapping_add(extent.len);
            }
        }
        for block in &self.blocks {
            if chunk.holds(block.addr) {
                used = used.wrapping_add(NODE);
            }
        }
        used
    }

    /// How many bytes lie in extents.
    pub(crate) fn used(&self) -> u64 {
        let mut used = 0u64;
        for chunk in self.plan.chunks() {
            used = used.wrapping_add(self.used_in(&chunk));
        }
        used
    }
}

impl ChunkPlan {
    fn holds(&self, addr: u64) -> bool {
        addr.wrapping_sub(self.start) < self.length
    }
}

impl DataExtent {
    // Its item, with the inline references behind it.
    fn item(&self, alloc: Global) -> Result<Body, AllocError> {
        let extent = ExtentItem {
            refs: self.refs,
            generation: GENERATION,
            flags: ExtentFlags::DATA.0,
            level: None,
            first: 24,
        };
        bodies::extent_item(alloc, &extent)?.bytes(self.links.as_slice())
    }
}

impl BlockPlace {
    // Its item, with the reference by its tree.
    fn item(&self, alloc: Global, refs: u64) -> Result<Body, AllocError> {
        let extent = ExtentItem {
            refs,
            generation: GENERATION,
            flags: ExtentFlags::TREE_BLOCK.0,
            level: None,
            first: 24,
        };
        let front = bodies::extent_item(alloc, &extent)?;
        bodies::inline_ref(front, &Link::Tree(self.owner), 1)
    }
}
