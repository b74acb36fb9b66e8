// A subvolume in one image in memory, and the volume that reads it.
ghost use Rattle.std.specs.Prelude.{◌≡◌, ◌<◌, IfOk, length};
ghost use Rattle.btr_rack.specs.Memory.{seen_of, slots_of};
ghost use Rattle.btr_read.specs.Serves.{Serves};
ghost use Rattle.btr_read.specs.Store.{free_count};

use super::memory::{NOTHING, Outcome, sent_by};
use btr_base::{Key, SumKind, sum};
use btr_chunk::{Chunk, ChunkTable, Stripe};
use btr_items::{FileExtent, Inode, RootItem, Shape, item};
use btr_make_blocks::{Body, Form, Items, Tree, bodies};
use btr_rack::{MemRack, Rack};
use btr_read::Store;
use btr_super::Super;
use btr_volume::Volume;
use std::alloc::{AllocError, Global};
use std::process::Abort;
use std::test::Fail;

// Where the chunk begins, on the device too, and with it the root tree.
const START: u64 = 1048576;

const CHUNK: u64 = 8388608;

// Where the subvolume and the checksum tree stand.
const FILES: u64 = 2097152;

const SUMS: u64 = 4194304;

// Where data begins.
const DATA: u64 = 5242880;

const BLOCK: u32 = 8192;

// The objectid of all checksums: minus 10.
const CHECKSUMS: u64 = 0xffff_ffff_ffff_fff6;

/// The top directory.
pub(super) const TOP: u64 = 256;

/// The id of the subvolume.
pub(super) const ROOT: u64 = 256;

/// What the ROOT_ITEM says of who the subvolume is: nothing in its old form, or its uuid and its
/// transid.
#[derive(Clone, Copy)]
pub(super) enum Who {
    Old,
    New([u8; 16], u64),
}

/// A subvolume that grows entry by entry. The index of an entry is the number of its inode.
#[derive(Drop)]
pub(super) struct Scene {
    alloc: Global,
    rack: MemRack,
    files: Items,
    sums: Items,
    next: u64,
}

// The form of the blocks of a tree: a leaf has forty items and a node forty pointers at most.
fn form_of(id: u64) -> Form {
    Form {
        nodesize: BLOCK as usize,
        items: 40,
        pointers: 40,
        ..Form::DEFAULT.of(id)
    }
}

// An inode of a mode, with one name.
fn inode_of(mode: u32, size: u64) -> Inode {
    Inode {
        size,
        nlink: 1,
        mode,
        flags: 0,
    }
}

// An extent that isn't compressed.
fn extent_of(ram: u64, shape: Shape) -> FileExtent {
    FileExtent {
        generation: 7,
        ram,
        compression: 0,
        encoded: false,
        shape,
    }
}

impl Scene {
    /// A subvolume in which there is nothing.
    pub(super) fn new(alloc: Global) -> Result<Scene, Fail> {
        let mut rack = MemRack::new(alloc);
        rack.add("a", 16777216)?;
        Ok(Scene {
            alloc,
            rack,
            files: Items::new(alloc),
            sums: Items::new(alloc),
            next: DATA,
        })
    }

    // An entry of a directory, and its name at its inode.
    fn entry(&mut self, dir: u64, name: &[u8], ino: u64, kind: u8) -> Result<(), AllocError> {
        let location = Key {
            objectid: ino,
            kind: item::INODE_ITEM,
            offset: 0,
        };
        let entry = bodies::entry(self.alloc, location, 7, kind, name)?;
        self.files.put(dir, item::DIR_INDEX, ino, entry)?;
        let back = bodies::inode_ref(self.alloc, ino, name)?;
        self.files.put(ino, item::INODE_REF, dir, back)
    }

    /// Adds a directory.
    pub(super) fn directory(&mut self, dir: u64, name: &[u8], ino: u64) -> Result<(), AllocError> {
        let body = bodies::inode_item(self.alloc, &inode_of(0o40755, 0), 7, 0)?;
        self.files.put(ino, item::INODE_ITEM, 0, body)?;
        self.entry(dir, name, ino, 2)
    }

    /// Adds a file of a size, without an extent.
    pub(super) fn file(
        &mut self,
        dir: u64,
        name: &[u8],
        ino: u64,
        size: u64,
    ) -> Result<(), AllocError> {
        let body = bodies::inode_item(self.alloc, &inode_of(0o100644, size), 7, 0)?;
        self.files.put(ino, item::INODE_ITEM, 0, body)?;
        self.entry(dir, name, ino, 1)
    }

    /// Adds a file whose bytes stand in the tree.
    pub(super) fn inline(
        &mut self,
        dir: u64,
        name: &[u8],
        ino: u64,
        bytes: &[u8],
    ) -> Result<(), AllocError> {
        self.file(dir, name, ino, bytes.len() as u64)?;
        let body = bodies::inline(self.alloc, 7, bytes)?;
        self.files.put(ino, item::EXTENT_DATA, 0, body)
    }

    // Adds what a file has from a position on.
    fn shape(&mut self, ino: u64, at: u64, len: u64, shape: Shape) -> Result<(), AllocError> {
        let body = bodies::file_extent(self.alloc, &extent_of(len, shape))?;
        self.files.put(ino, item::EXTENT_DATA, at, body)
    }

    /// Adds a hole of so many bytes to a file, with an item of its own.
    pub(super) fn hole(&mut self, ino: u64, at: u64, len: u64) -> Result<(), AllocError> {
        let shape = Shape::Regular {
            addr: 0,
            disk_len: 0,
            skip: 0,
            len,
        };
        self.shape(ino, at, len, shape)
    }

    /// Adds a preallocated extent, which reads as zeros whatever stands in it.
    pub(super) fn preallocated(&mut self, ino: u64, at: u64, len: u64) -> Result<(), AllocError> {
        let shape = Shape::Prealloc {
            addr: DATA,
            disk_len: len,
            skip: 0,
            len,
        };
        self.shape(ino, at, len, shape)
    }

    /// Adds bytes from a position on, in an extent of whole sectors.
    pub(super) fn extent(&mut self, ino: u64, at: u64, bytes: &[u8]) -> Result<(), Fail> {
        let addr = self.next;
        let len = self.store(bytes)?;
        let shape = Shape::Regular {
            addr,
            disk_len: len,
            skip: 0,
            len,
        };
        Ok(self.shape(ino, at, len, shape)?)
    }

    // Stores bytes in sectors, the last of which ends with other bytes, and their checksums. Answers
    // how many bytes these sectors have.
    fn store(&mut self, bytes: &[u8]) -> Result<u64, Fail> {
        let addr = self.next;
        let mut sums = Body::new(self.alloc);
        for piece in bytes.chunks(4096) {
            let mut sector = [0xee; 4096];
            for (to, from) in sector.iter_mut().zip(piece) {
                *to = *from;
            }
            self.rack.poke("a", self.next, &sector)?;
            let stored = sum(SumKind::Crc32c, &sector);
            sums = bodies::with_sum(sums, SumKind::Crc32c, &stored)?;
            self.next = self.next.wrapping_add(4096);
        }
        self.sums.put(CHECKSUMS, item::EXTENT_CSUM, addr, sums)?;
        Ok(self.next.wrapping_sub(addr))
    }

    /// What came of a send of the subvolume.
    pub(super) fn sent(self, rt: &impl Abort, who: Who) -> Result<Outcome, Fail> {
        let Scene {
            alloc,
            mut rack,
            files,
            sums,
            next: _,
        } = self;
        let mut roots = Items::new(alloc);
        plant(alloc, &mut rack, &mut roots, 7, SUMS, sums, Who::Old)?;
        plant(alloc, &mut rack, &mut roots, ROOT, FILES, files, who)?;
        let tree = Tree::grow(alloc, &form_of(1), START, roots)?;
        tree.put(&mut rack, "a")?;
        rack.open("a", false)?;
        sent_over(rt, alloc, rack, &tree)
    }
}

// Writes the tree of an id from an address on, and its ROOT_ITEM.
fn plant(
    alloc: Global,
    rack: &mut MemRack,
    roots: &mut Items,
    id: u64,
    addr: u64,
    items: Items,
    who: Who,
) -> Result<(), Fail> {
    let tree = Tree::grow(alloc, &form_of(id), addr, items)?;
    tree.put(rack, "a")?;
    let body = root_of(alloc, &tree, who)?;
    Ok(roots.put(id, item::ROOT_ITEM, 0, body)?)
}

// The ROOT_ITEM of a tree: 239 bytes, or 439 with the uuid at byte 247 and the transid at byte 295.
fn root_of(alloc: Global, tree: &Tree, who: Who) -> Result<Body, AllocError> {
    let root = RootItem {
        generation: 7,
        dirid: TOP,
        bytenr: tree.root(),
        flags: 0,
        refs: 1,
        level: u64::from(tree.level()),
    };
    let body = bodies::root_item(alloc, &root, 0)?;
    let front = body.as_slice().get(..239).unwrap_or(&[]);
    let old = Body::new(alloc).bytes(front)?;
    match who {
        Who::Old => Ok(old),
        Who::New(uuid, transid) => old
            .u64(7)?
            .bytes(&uuid)?
            .zeros(32)?
            .u64(transid)?
            .zeros(136),
    }
}

// What came of a send from an image that is open.
fn sent_over(
    rt: &impl Abort,
    alloc: Global,
    mut rack: MemRack,
    tree: &Tree,
) -> Result<Outcome, Fail> {
    if rack.count() == 0 {
        return Err("no image")?;
    }
    let mut vol = volume_over(alloc, &rack, tree)?;
    sent_by(rt, alloc, ROOT, &mut rack, &mut vol, NOTHING)
}

// The superblock of a filesystem with this root tree.
fn sup_of(tree: &Tree) -> Super {
    let fsid = Form::DEFAULT.fsid;
    Super {
        fsid,
        place: 65536,
        flags: 1,
        generation: Form::DEFAULT.generation,
        root: tree.root(),
        chunk_root: 0,
        log_root: 0,
        total_bytes: 16777216,
        bytes_used: 0,
        root_dir: 6,
        num_devices: 1,
        sectorsize: 4096,
        nodesize: BLOCK,
        leafsize: BLOCK,
        stripesize: 4096,
        sys_chunk_array_size: 0,
        chunk_root_generation: 0,
        compat: 0,
        compat_ro: 0,
        incompat: 0,
        csum_type: 0,
        root_level: tree.level(),
        chunk_root_level: 0,
        log_root_level: 0,
        devid: 1,
        dev_uuid: [0; 16],
        label: [0; 256],
        cache_generation: 0,
        uuid_tree_generation: 0,
        metadata_uuid: [0; 16],
        reserved: [0; 224],
        array: [0; 2048],
        backups: [0; 1237],
    }
}

// The volume that reads the chunk from the first image.
fn volume_over(alloc: Global, rack: &MemRack, tree: &Tree) -> Result<Volume, Fail>
    requires { 0 < length (slots_of rack.now) }
    ensures serves { IfOk result (λ vol. Serves (seen_of rack.now) vol.store) }
    ensures free { IfOk result (λ vol. free_count vol.store ≡ 24) }
{
    let stripe = Stripe {
        devid: 1,
        offset: START,
        uuid: [0; 16],
    };
    let item = bodies::chunk_item(alloc, CHUNK, 2, &[stripe])?;
    let mut chunks = ChunkTable::new(alloc);
    chunks.add(Chunk::read(alloc, START, item.as_slice())?)?;
    let mut store = Store::new(alloc, SumKind::Crc32c, Form::DEFAULT.fsid, BLOCK, chunks)?;
    store.add_device(1, 0, rack.len(0), false)?;
    Ok(Volume {
        store,
        sup: sup_of(tree),
    })
}
