use crate::growth::Growth;
use crate::{Block, Child, Form, GrowFault, Items};
use btr_rack::{MemRack, PokeError};
use std::alloc::Global;

/// A tree: its blocks, of which the last is the root.
#[derive(Debug, Drop)]
pub struct Tree {
    /// The leaves in the order of their keys, then the nodes above them, level by level. Each has the address behind the
    /// block before it.
    pub blocks: Vec<Block>,
    /// The blocks of another tree to which its nodes point.
    pub shared: Vec<Child>,
}

impl Tree {
    /// The tree of these items, whose blocks stand from `addr` on. No items make one empty leaf.
    pub fn grow(alloc: Global, form: &Form, addr: u64, items: Items) -> Result<Tree, GrowFault> {
        Tree::grow_beside(alloc, form, addr, items, &[])
    }

    /// The same of a tree that shares blocks with another one, as a snapshot does: below its root, the blocks of the other
    /// one that say the same stand in the place of its own.
    pub fn grow_beside(
        alloc: Global,
        form: &Form,
        addr: u64,
        items: Items,
        others: &[Block],
    ) -> Result<Tree, GrowFault> {
        let items = items.into_list()?;
        Growth::new(alloc, form, addr, others).grow(items.as_slice())
    }

    /// The address of the root.
    pub fn root(&self) -> u64 {
        self.blocks.last().map_or(0, |root| root.addr)
    }

    /// The level of the root, 0 for a leaf.
    pub fn level(&self) -> u8 {
        self.blocks.last().map_or(0, |root| root.level)
    }

    /// Writes each block over the bytes of an image from the block's address on, as where one chunk maps each address to
    /// the same offset. It refuses as `MemRack::poke` does.
    pub fn put(&self, rack: &mut MemRack, name: &str) -> Result<(), PokeError> {
        for block in &self.blocks {
            rack.poke(name, block.addr, block.bytes.as_slice())?;
        }
        Ok(())
    }
}
