ghost use Rattle.std.specs.Prelude.{◌≡◌};
ghost use Rattle.btr_make.specs.Shelf.{standing};

use crate::disks::write;
use crate::fault::MakeFault;
use crate::files::{Files, TOP};
use crate::plan::{CHUNK_TREE_UUID, FSID, GENERATION, NODE, Plan};
use btr_base::{Sum, sum};
use btr_chunk::ChunkTable;
use btr_items::item::ROOT_ITEM;
use btr_items::{FileExtent, Link, RootItem, Shape};
use btr_make_blocks::{Block, Body, Form, Items, Tree, bodies};
use btr_rack::MemRack;
use std::alloc::Global;
use std::collections::BTreeMap;

pub(crate) const SECTOR: usize = 4096;

/// The ids of trees.
pub(crate) const ROOT_TREE: u64 = 1;

pub(crate) const EXTENT_TREE: u64 = 2;

pub(crate) const CHUNK_TREE: u64 = 3;

pub(crate) const DEVICE_TREE: u64 = 4;

pub(crate) const TOP_TREE: u64 = 5;

pub(crate) const CHECKSUM_TREE: u64 = 7;

pub(crate) const UUID_TREE: u64 = 9;

pub(crate) const FREE_SPACE_TREE: u64 = 10;

pub(crate) const DATA_RELOCATION_TREE: u64 = 0xffff_ffff_ffff_fff7;

pub(crate) const RELOCATION_TREE: u64 = 0xffff_ffff_ffff_fff8;

/// A volume that is being made: what its further trees will say.
#[derive(Drop)]
pub(crate) struct Draft {
    pub(crate) alloc: Global,
    pub(crate) plan: Plan,
    pub(crate) table: ChunkTable,
    /// The data extents, by their addresses.
    pub(crate) extents: BTreeMap<u64, DataExtent>,
    /// The references to data extents that stand in items of their own.
    pub(crate) loose: Vec<LooseLink>,
    /// The checksums of sectors, by their addresses.
    pub(crate) sums: BTreeMap<u64, Sum>,
    /// The items of the root tree.
    pub(crate) roots: Items,
    /// The blocks of the trees that are written.
    pub(crate) blocks: Vec<BlockPlace>,
    /// The blocks of these to which a node of another tree points, and that tree.
    pub(crate) shared: Vec<BlockPlace>,
}

/// A data extent: its length, the number of references to it, and the inline ones of them.
#[derive(Drop)]
pub(crate) struct DataExtent {
    pub(crate) len: u64,
    pub(crate) refs: u64,
    pub(crate) links: Body,
}

/// A file's reference to a data extent, in an item of its own.
#[derive(Clone, Copy)]
pub(crate) struct LooseLink {
    pub(crate) addr: u64,
    pub(crate) root: u64,
    pub(crate) objectid: u64,
    pub(crate) offset: u64,
}

impl LooseLink {
    /// What refers to the extent.
    pub(crate) fn link(&self) -> Link {
        Link::File {
            root: self.root,
            objectid: self.objectid,
            offset: self.offset,
        }
    }
}

/// What the extent tree says of a tree block.
#[derive(Clone, Copy, PartialEq, Eq)]
pub(crate) struct BlockPlace {
    pub(crate) addr: u64,
    pub(crate) level: u8,
    pub(crate) owner: u64,
}

/// What the root tree says of a tree, beside where it is.
#[derive(Clone, Copy)]
pub(crate) struct RootPlan {
    pub(crate) id: u64,
    /// The offset of the key.
    pub(crate) offset: u64,
    pub(crate) dirid: u64,
    pub(crate) refs: u32,
    /// Which of the trees in the metadata it is, in the order of their places.
    pub(crate) number: u64,
}

impl RootPlan {
    /// A tree that holds no files.
    pub(crate) fn of(id: u64, number: u64) -> RootPlan {
        RootPlan {
            id,
            offset: 0,
            dirid: 0,
            refs: 1,
            number,
        }
    }

    /// A tree of files.
    pub(crate) fn of_files(id: u64, number: u64) -> RootPlan {
        RootPlan {
            dirid: TOP,
            ..RootPlan::of(id, number)
        }
    }
}

impl Draft {
    /// A volume without files.
    pub(crate) fn new(alloc: Global, plan: Plan) -> Result<Draft, MakeFault> {
        Ok(Draft {
            alloc,
            plan,
            table: plan.table(alloc)?,
            extents: BTreeMap::new(alloc),
            loose: Vec::new(alloc),
            sums: BTreeMap::new(alloc),
            roots: Items::new(alloc),
            blocks: Vec::new(alloc),
            shared: Vec::new(alloc),
        })
    }

    /// Writes the bytes of a file from an offset on into an extent of whole sectors at an address.
    pub(crate) fn write_extent(
        &mut self,
        rack: &mut MemRack,
        files: &mut Files,
        ino: u64,
        offset: u64,
        addr: u64,
        bytes: &[u8],
    ) -> Result<(), MakeFault>
        ensures { standing rack.new ≡ standing rack.old }
    {
        let len = self.store(rack, addr, bytes)?;
        let size = offset.wrapping_add(bytes.len() as u64);
        files.extent(ino, offset, &regular(addr, len), size)?;
        self.refer(addr, len, files.tree, ino, offset)
    }

    /// Writes bytes into sectors from an address on, with zeros behind them, and keeps the checksums. It answers how many
    /// bytes these sectors have.
    pub(crate) fn store(
        &mut self,
        rack: &mut MemRack,
        addr: u64,
        bytes: &[u8],
    ) -> Result<u64, MakeFault>
        ensures { standing rack.new ≡ standing rack.old }
    {
        let mut next = addr;
        for piece in bytes.chunks(SECTOR) {
            let mut sector = [0; SECTOR];
            for (to, from) in sector.iter_mut().zip(piece) {
                *to = *from;
            }
            write(rack, &self.table, next, &sector)?;
            self.sums.insert(next, sum(self.plan.sums, &sector))?;
            next = next.wrapping_add(SECTOR as u64);
        }
        Ok(next.wrapping_sub(addr))
    }

    /// Counts a reference of a file to a data extent, which stands in the extent's item.
    pub(crate) fn refer(
        &mut self,
        addr: u64,
        len: u64,
        root: u64,
        objectid: u64,
        offset: u64,
    ) -> Result<(), MakeFault> {
        let link = Link::File {
            root,
            objectid,
            offset,
        };
        let extent = DataExtent {
            len,
            refs: 1,
            links: bodies::inline_ref(Body::new(self.alloc), &link, 1)?,
        };
        self.extents.insert(addr, extent)?;
        Ok(())
    }

    /// Counts a reference of a file to a data extent, which stands in an item of its own.
    pub(crate) fn refer_loosely(&mut self, link: LooseLink) -> Result<(), MakeFault> {
        self.add_ref(link.addr);
        self.loose.push(link)?;
        Ok(())
    }

    /// Says of a data extent that it has one reference more.
    pub(crate) fn add_ref(&mut self, addr: u64) {
        if let Some(extent) = self.extents.get_mut(&addr) {
            extent.refs = extent.refs.wrapping_add(1);
        }
    }

    /// Forgets the checksums of all data.
    pub(crate) fn forget_sums(&mut self) {
        self.sums = BTreeMap::new(self.alloc);
    }

    /// The form of a tree's blocks.
    pub(crate) fn form(&self, owner: u64) -> Form {
        Form {
            sums: self.plan.sums,
            fsid: FSID,
            chunk_tree_uuid: CHUNK_TREE_UUID,
            nodesize: NODE as usize,
            generation: GENERATION,
            owner,
            items: usize::MAX,
            pointers: self.plan.pointers,
        }
    }

    /// Where the first block of a tree stands, by the tree's number.
    pub(crate) fn place_of_tree(&self, number: u64) -> u64 {
        let metadata = self.plan.metadata.start;
        metadata.wrapping_add(self.plan.room.wrapping_mul(number))
    }

    /// Writes a tree of files and its root.
    pub(crate) fn plant_files(
        &mut self,
        rack: &mut MemRack,
        root: RootPlan,
        files: Files,
    ) -> Result<(), MakeFault>
        ensures { standing rack.new ≡ standing rack.old }
    {
        self.plant_beside(rack, root, files, &[])?;
        Ok(())
    }

    /// Writes a tree of files, which shares blocks with one that has these, and its root.
    pub(crate) fn plant_beside(
        &mut self,
        rack: &mut MemRack,
        root: RootPlan,
        files: Files,
        others: &[Block],
    ) -> Result<Tree, MakeFault>
        ensures { standing rack.new ≡ standing rack.old }
    {
        let form = Form {
            items: self.plan.items,
            ..self.form(root.id)
        };
        let addr = self.place_of_tree(root.number);
        let tree = Tree::grow_beside(self.alloc, &form, addr, files.finish()?, others)?;
        self.write_tree(rack, root.id, &tree)?;
        self.put_root(root, &tree)?;
        Ok(tree)
    }

    /// Writes the tree of the top subvolume, and a tree without files that the kernel wants.
    pub(crate) fn plant_top(&mut self, rack: &mut MemRack, files: Files) -> Result<(), MakeFault>
        ensures { standing rack.new ≡ standing rack.old }
    {
        self.plant_files(rack, RootPlan::of_files(TOP_TREE, 3), files)?;
        let none = Files::new(self.alloc, DATA_RELOCATION_TREE)?;
        self.plant_files(rack, RootPlan::of_files(DATA_RELOCATION_TREE, 5), none)
    }

    /// Writes the tree of these items and its root.
    pub(crate) fn plant(
        &mut self,
        rack: &mut MemRack,
        root: RootPlan,
        items: Items,
    ) -> Result<(), MakeFault>
        ensures { standing rack.new ≡ standing rack.old }
    {
        let addr = self.place_of_tree(root.number);
        let tree = Tree::grow(self.alloc, &self.form(root.id), addr, items)?;
        self.write_tree(rack, root.id, &tree)?;
        self.put_root(root, &tree)
    }

    /// Writes the blocks of a tree.
    pub(crate) fn write_tree(
        &mut self,
        rack: &mut MemRack,
        owner: u64,
        tree: &Tree,
    ) -> Result<(), MakeFault>
        ensures { standing rack.new ≡ standing rack.old }
    {
        for block in &tree.blocks {
            write(rack, &self.table, block.addr, block.bytes.as_slice())?;
        }
        self.keep_places(owner, tree)
    }

    /// Keeps the places of a tree's blocks for the extent tree.
    pub(crate) fn keep_places(&mut self, owner: u64, tree: &Tree) -> Result<(), MakeFault> {
        for block in &tree.blocks {
            self.blocks.push(BlockPlace {
                addr: block.addr,
                level: block.level,
                owner,
            })?;
        }
        for block in &tree.shared {
            self.shared.push(BlockPlace {
                addr: block.addr,
                level: block.level,
                owner,
            })?;
        }
        Ok(())
    }

    /// Puts the root of a tree into the root tree.
    pub(crate) fn put_root(&mut self, root: RootPlan, tree: &Tree) -> Result<(), MakeFault> {
        let used = NODE.wrapping_mul(tree.blocks.len() as u64);
        let item = RootItem {
            generation: GENERATION,
            dirid: root.dirid,
            bytenr: tree.root(),
            flags: 0,
            refs: root.refs,
            level: u64::from(tree.level()),
        };
        let body = bodies::root_item(self.alloc, &item, used)?;
        self.roots.put(root.id, ROOT_ITEM, root.offset, body)?;
        Ok(())
    }
}

/// A regular extent that a file has the whole of.
pub(crate) fn regular(addr: u64, len: u64) -> FileExtent {
    FileExtent {
        generation: GENERATION,
        ram: len,
        compression: 0,
        encoded: false,
        shape: Shape::Regular {
            addr,
            disk_len: len,
            skip: 0,
            len,
        },
    }
}
