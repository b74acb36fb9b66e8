// Subvolumes in one image in memory, and the volume that reads them.
ghost use Rattle.std.specs.Prelude.{◌≡◌, ◌<◌, IfOk, length};
ghost use Rattle.btr_rack.specs.Memory.{seen_of, slots_of};
ghost use Rattle.btr_read.specs.Serves.{Serves};
ghost use Rattle.btr_read.specs.Store.{free_count};

use btr_base::SumKind;
use btr_chunk::{Chunk, ChunkTable, Stripe};
use btr_items::{FileExtent, RootItem, Shape, item};
use btr_make_blocks::{Body, Form, Items, Tree, bodies};
use btr_rack::{MemOut, MemRack, Rack};
use btr_read::Store;
use btr_resolve::resolve;
use btr_super::Super;
use btr_volume::{Stop, Volume};
use std::alloc::{AllocError, Global};
use std::test::Fail;

/// Where the chunk begins, on the device too, and with it the root tree.
pub(super) const START: u64 = 1048576;

const CHUNK: u64 = 8388608;

/// Where the first subvolume stands; each other one stands this far behind the one before.
pub(super) const TREES: u64 = 2097152;

const APART: u64 = 1048576;

/// An address in the chunk at which data may stand.
pub(super) const DATA: u64 = 8388608;

const BLOCK: u32 = 8192;

/// What stands in an item.
#[derive(Clone, Copy)]
pub(super) enum Content {
    /// A name by its index in the directory that the key has.
    Name(u64, &'static [u8]),
    /// A name by its directory and its index there.
    FarName(u64, u64, &'static [u8]),
    /// An extent by its compression, and what its shape says.
    Extent(u64, Shape),
    /// So many zeros.
    Zeros(usize),
}

/// The parts of an item's key, and a part of its body.
pub(super) type Row = (u64, u8, u64, Content);

/// Two sectors of an extent of four, which begins where data does: the first two, and the two behind the first.
pub(super) const FRONT: Content = Content::Extent(
    0,
    Shape::Regular {
        addr: DATA,
        disk_len: 16384,
        skip: 0,
        len: 8192,
    },
);

pub(super) const MIDDLE: Content = Content::Extent(
    0,
    Shape::Regular {
        addr: DATA,
        disk_len: 16384,
        skip: 4096,
        len: 8192,
    },
);

/// The same of an extent at any address, from any sector on.
pub(super) fn part(addr: u64, skip: u64) -> Content {
    Content::Extent(
        0,
        Shape::Regular {
            addr,
            disk_len: 16384,
            skip,
            len: 8192,
        },
    )
}

fn body_of(alloc: Global, content: Content) -> Result<Body, AllocError> {
    match content {
        Content::Name(index, name) => bodies::inode_ref(alloc, index, name),
        Content::FarName(parent, index, name) => bodies::ext_ref(alloc, parent, index, name),
        Content::Extent(compression, shape) => bodies::file_extent(
            alloc,
            &FileExtent {
                generation: 7,
                ram: 8192,
                compression,
                encoded: false,
                shape,
            },
        ),
        Content::Zeros(len) => Body::new(alloc).zeros(len),
    }
}

// The form of the blocks of a tree: a leaf has five items and a node five pointers at most.
fn form_of(id: u64) -> Form {
    Form {
        nodesize: BLOCK as usize,
        items: 5,
        pointers: 5,
        ..Form::DEFAULT.of(id)
    }
}

/// Adds items.
pub(super) fn add(alloc: Global, items: &mut Items, rows: &[Row]) -> Result<(), Fail> {
    for (objectid, kind, offset, content) in rows {
        let part = body_of(alloc, *content)?;
        items.append(*objectid, *kind, *offset, &part)?;
    }
    Ok(())
}

/// Trees that are put into an image one after another, and the items of the root tree that lead to them.
#[derive(Drop)]
pub(super) struct Scene {
    alloc: Global,
    rack: MemRack,
    roots: Items,
    next: u64,
}

impl Scene {
    /// An image without a tree.
    pub(super) fn new(alloc: Global) -> Result<Scene, Fail> {
        let mut rack = MemRack::new(alloc);
        rack.add("a", 16777216)?;
        Ok(Scene {
            alloc,
            rack,
            roots: Items::new(alloc),
            next: TREES,
        })
    }

    /// Adds the tree of an id, which has these items and the top directory 256.
    pub(super) fn with(mut self, id: u64, items: Items) -> Result<Scene, Fail> {
        let tree = Tree::grow(self.alloc, &form_of(id), self.next, items)?;
        tree.put(&mut self.rack, "a")?;
        self.next = self.next.saturating_add(APART);
        self.with_place(id, 0, tree.root(), tree.level())
    }

    /// Adds a ROOT_ITEM of an id and offset that leads to a leaf at an address, which may stand nowhere.
    pub(super) fn with_root(self, id: u64, offset: u64, addr: u64) -> Result<Scene, Fail> {
        self.with_place(id, offset, addr, 0)
    }

    fn with_place(mut self, id: u64, offset: u64, addr: u64, level: u8) -> Result<Scene, Fail> {
        let root = RootItem {
            generation: 7,
            dirid: 256,
            bytenr: addr,
            flags: 0,
            refs: 1,
            level: u64::from(level),
        };
        let body = bodies::root_item(self.alloc, &root, 0)?;
        self.roots.append(id, item::ROOT_ITEM, offset, &body)?;
        Ok(self)
    }

    /// Adds the tree of an id by its rows.
    pub(super) fn with_rows(self, id: u64, rows: &[Row]) -> Result<Scene, Fail> {
        let mut items = Items::new(self.alloc);
        add(self.alloc, &mut items, rows)?;
        self.with(id, items)
    }

    /// Adds another item of the root tree, of which nothing but its key may be read: its body has so many zeros.
    pub(super) fn beside(
        mut self,
        objectid: u64,
        kind: u8,
        offset: u64,
        len: usize,
    ) -> Result<Scene, Fail> {
        let body = Body::new(self.alloc).zeros(len)?;
        self.roots.append(objectid, kind, offset, &body)?;
        Ok(self)
    }

    /// What is answered of an address, and the text, where the call of a number fails on the image; 0 is none.
    pub(super) fn owners(self, addr: u64, failing: u64) -> Result<Answer, Fail> {
        let Scene {
            alloc,
            mut rack,
            roots,
            next: _,
        } = self;
        let tree = Tree::grow(alloc, &form_of(1), START, roots)?;
        tree.put(&mut rack, "a")?;
        rack.open("a", false)?;
        answer_of(alloc, rack, &tree, addr, failing)
    }
}

/// What was answered, and the text.
#[derive(Drop)]
pub(super) struct Answer {
    pub(super) result: Result<u64, Stop>,
    pub(super) out: MemOut,
}

// What is answered over an image that is open.
fn answer_of(
    alloc: Global,
    mut rack: MemRack,
    tree: &Tree,
    addr: u64,
    failing: u64,
) -> Result<Answer, Fail> {
    if rack.count() == 0 {
        return Err(Fail::from(AllocError));
    }
    rack.fail_call(failing)?;
    let mut vol = volume_over(alloc, &rack, tree)?;
    let mut out = MemOut::new(alloc);
    let result = resolve(alloc, addr, &mut rack, &mut vol, &mut out);
    Ok(Answer { result, out })
}

// The superblock of a filesystem with this root tree.
fn sup_of(tree: &Tree) -> Super {
    let fsid = Form::DEFAULT.fsid;
    Super {
        fsid,
        place: 65536,
        flags: 1,
        generation: Form::DEFAULT.generation,
        root: tree.root(),
        chunk_root: 0,
        log_root: 0,
        total_bytes: 16777216,
        bytes_used: 0,
        root_dir: 6,
        num_devices: 1,
        sectorsize: 4096,
        nodesize: BLOCK,
        leafsize: BLOCK,
        stripesize: 4096,
        sys_chunk_array_size: 0,
        chunk_root_generation: 0,
        compat: 0,
        compat_ro: 0,
        incompat: 0,
        csum_type: 0,
        root_level: tree.level(),
        chunk_root_level: 0,
        log_root_level: 0,
        devid: 1,
        dev_uuid: [0; 16],
        label: [0; 256],
        cache_generation: 0,
        uuid_tree_generation: 0,
        metadata_uuid: [0; 16],
        reserved: [0; 224],
        array: [0; 2048],
        backups: [0; 1237],
    }
}

// The volume that reads the chunk from the first image.
fn volume_over(alloc: Global, rack: &MemRack, tree: &Tree) -> Result<Volume, Fail>
    requires { 0 < length (slots_of rack.now) }
    ensures serves { IfOk result (λ vol. Serves (seen_of rack.now) vol.store) }
    ensures free { IfOk result (λ vol. free_count vol.store ≡ 24) }
{
    let stripe = Stripe {
        devid: 1,
        offset: START,
        uuid: [0; 16],
    };
    let item = bodies::chunk_item(alloc, CHUNK, 2, &[stripe])?;
    let mut chunks = ChunkTable::new(alloc);
    chunks.add(Chunk::read(alloc, START, item.as_slice())?)?;
    let mut store = Store::new(alloc, SumKind::Crc32c, Form::DEFAULT.fsid, BLOCK, chunks)?;
    store.add_device(1, 0, rack.len(0), false)?;
    Ok(Volume {
        store,
        sup: sup_of(tree),
    })
}
