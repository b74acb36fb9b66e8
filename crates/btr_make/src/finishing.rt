// The trees that say where everything is.
ghost use Rattle.std.specs.Prelude.{◌≡◌};
ghost use Rattle.btr_make.specs.Shelf.{standing};

use crate::chunks::CHUNKS;
use crate::draft::{
    BlockPlace, CHECKSUM_TREE, CHUNK_TREE, DEVICE_TREE, Draft, EXTENT_TREE, ROOT_TREE, RootPlan,
};
use crate::fault::MakeFault;
use crate::parities::put_parities;
use crate::plan::FSID;
use crate::sums::sum_items;
use btr_items::item::{CHUNK_ITEM, DEV_ITEM};
use btr_make_blocks::{Items, Tree, bodies};
use btr_rack::MemRack;
use std::mem::replace;

// The objectid of all devices.
const DEVICES: u64 = 1;

// How often the extent tree is grown at most.
const TRIES: u32 = 16;

/// The roots that a superblock has.
#[derive(Clone, Copy)]
pub(crate) struct Roots {
    pub(crate) root: u64,
    pub(crate) root_level: u8,
    pub(crate) chunk_root: u64,
    pub(crate) chunk_root_level: u8,
}

impl Draft {
    /// Writes all that is left: the trees that say where everything is, the parities, and the superblocks.
    pub(crate) fn finish(mut self, rack: &mut MemRack) -> Result<(), MakeFault>
        ensures { standing rack.new ≡ standing rack.old }
    {
        let sums = sum_items(self.alloc, self.plan.sums, &self.sums)?;
        self.plant(rack, RootPlan::of(CHECKSUM_TREE, 4), sums)?;
        let extents = self.device_extents()?;
        self.plant(rack, RootPlan::of(DEVICE_TREE, 2), extents)?;
        let chunk_tree = self.chunk_tree()?;
        self.write_tree(rack, CHUNK_TREE, &chunk_tree)?;
        let root = self.plant_top_trees(rack)?;
        for plan in self.plan.chunks() {
            put_parities(rack, &plan.chunk(self.alloc)?)?;
        }
        let roots = Roots {
            root: root.addr,
            root_level: root.level,
            chunk_root: chunk_tree.root(),
            chunk_root_level: chunk_tree.level(),
        };
        self.put_supers(rack, roots)
    }

    // The items of the device tree: the range of a device that each stripe takes up.
    fn device_extents(&self) -> Result<Items, MakeFault> {
        let mut items = Items::new(self.alloc);
        for chunk in self.plan.chunks() {
            chunk.put_device_extents(self.alloc, &mut items)?;
        }
        Ok(items)
    }

    // The chunk tree: the devices and the chunks.
    fn chunk_tree(&self) -> Result<Tree, MakeFault> {
        let mut items = Items::new(self.alloc);
        for devid in 1..=self.plan.images {
            let device = self.plan.device(self.alloc, devid)?;
            let body = bodies::dev_item(self.alloc, &device, &FSID)?;
            items.put(DEVICES, DEV_ITEM, devid, body)?;
        }
        for chunk in self.plan.chunks() {
            let body = chunk.item(self.alloc)?;
            items.put(CHUNKS, CHUNK_ITEM, chunk.start, body)?;
        }
        let form = self.form(CHUNK_TREE);
        Ok(Tree::grow(self.alloc, &form, self.plan.system.start, items)?)
    }

    // Writes the extent tree and then the root tree, which is one leaf, and answers the place of that leaf.
    fn plant_top_trees(&mut self, rack: &mut MemRack) -> Result<BlockPlace, MakeFault>
        ensures { standing rack.new ≡ standing rack.old }
    {
        let root = BlockPlace {
            addr: self.place_of_tree(0),
            level: 0,
            owner: ROOT_TREE,
        };
        let tree = self.extent_tree(root)?;
        self.write_tree(rack, EXTENT_TREE, &tree)?;
        self.put_root(RootPlan::of(EXTENT_TREE, 1), &tree)?;
        let roots = replace(&mut self.roots, Items::new(self.alloc));
        let tree = Tree::grow(self.alloc, &self.form(ROOT_TREE), root.addr, roots)?;
        self.write_tree(rack, ROOT_TREE, &tree)?;
        if tree.blocks.len() != 1 {
            return Err(MakeFault::Unsettled);
        }
        Ok(root)
    }

    // The extent tree. It says of its own blocks too where they are, so it is grown with those that it had before, until
    // they are the same.
    fn extent_tree(&mut self, root: BlockPlace) -> Result<Tree, MakeFault> {
        let addr = self.place_of_tree(1);
        let form = self.form(EXTENT_TREE);
        let mut tree = Tree::grow(self.alloc, &form, addr, Items::new(self.alloc))?;
        for _ in 0..TRIES {
            let count = tree.blocks.len();
            let known = self.blocks.len();
            self.blocks.push(root)?;
            self.keep_places(EXTENT_TREE, &tree)?;
            tree = Tree::grow(self.alloc, &form, addr, self.extent_items()?)?;
            self.blocks.truncate(known);
            if tree.blocks.len() == count {
                return Ok(tree);
            }
        }
        Err(MakeFault::Unsettled)
    }
}
