// Trees in one image in memory, and the volume that reads them.
ghost use Rattle.std.specs.Prelude.{◌≡◌, ◌<◌, IfOk, length};
ghost use Rattle.btr_rack.specs.Memory.{seen_of, slots_of};
ghost use Rattle.btr_read.specs.Serves.{Serves};
ghost use Rattle.btr_read.specs.Store.{free_count};

use btr_base::SumKind;
use btr_chunk::{Chunk, ChunkTable, Stripe};
use btr_make_blocks::{Form, Items, Tree, bodies};
use btr_rack::{MemRack, Rack};
use btr_read::Store;
use btr_super::Super;
use btr_volume::{TreeRoot, Volume};
use btr_walk::RootPlace;
use std::alloc::Global;
use std::test::Fail;

/// Where the chunk begins, on the device too, and with it the tree that is tested.
pub(super) const START: u64 = 1048576;

/// Where the checksum tree begins.
pub(super) const SUMS: u64 = 2097152;

/// Where data begins.
pub(super) const DATA: u64 = 3145728;

const CHUNK: u64 = 4194304;

/// The length of a block.
pub(super) const BLOCK: u32 = 8192;

/// Small blocks, of which a leaf has three items and a node three pointers at most.
pub(super) fn form(sums: SumKind) -> Form {
    Form {
        sums,
        nodesize: BLOCK as usize,
        items: 3,
        pointers: 3,
        ..Form::DEFAULT
    }
}

/// The tree of these items that begins at the chunk's start.
pub(super) fn tree_of(alloc: Global, items: Items) -> Result<Tree, Fail> {
    tree_at(alloc, &form(SumKind::Crc32c), START, items)
}

/// The tree of these items that begins at an address.
pub(super) fn tree_at(alloc: Global, form: &Form, addr: u64, items: Items) -> Result<Tree, Fail> {
    Ok(Tree::grow(alloc, form, addr, items)?)
}

/// Its root.
pub(super) fn root_of(tree: &Tree) -> TreeRoot {
    TreeRoot {
        id: 5,
        offset: 0,
        place: RootPlace {
            addr: tree.root(),
            generation: Form::DEFAULT.generation,
            level: tree.level(),
        },
        dirid: 256,
        refs: 1,
    }
}

/// A rack with the trees and the data in its one image, which is open.
pub(super) fn rack_of(alloc: Global, trees: &[&Tree], data: &[u8]) -> Result<MemRack, Fail>
    ensures { IfOk result (λ rack. 0 < length (slots_of rack)) }
{
    let mut rack = MemRack::new(alloc);
    rack.add("a", 8388608)?;
    for tree in trees {
        tree.put(&mut rack, "a")?;
    }
    rack.poke("a", DATA, data)?;
    rack.open("a", false)?;
    Ok(rack)
}

// The number of a kind of checksum.
fn type_of(sums: SumKind) -> u16 {
    match sums {
        SumKind::Crc32c => 0,
        SumKind::Xxh64 => 1,
        SumKind::Sha256 => 2,
    }
}

// The superblock of a filesystem whose root tree begins at the chunk's start.
fn sup_of(sums: SumKind, root: &RootPlace) -> Super {
    let fsid = Form::DEFAULT.fsid;
    Super {
        fsid,
        place: 65536,
        flags: 1,
        generation: root.generation,
        root: root.addr,
        chunk_root: 0,
        log_root: 0,
        total_bytes: 8388608,
        bytes_used: 0,
        root_dir: 6,
        num_devices: 1,
        sectorsize: 4096,
        nodesize: BLOCK,
        leafsize: BLOCK,
        stripesize: 4096,
        sys_chunk_array_size: 0,
        chunk_root_generation: 0,
        compat: 0,
        compat_ro: 0,
        incompat: 0,
        csum_type: type_of(sums),
        root_level: root.level,
        chunk_root_level: 0,
        log_root_level: 0,
        devid: 1,
        dev_uuid: [0; 16],
        label: [0; 256],
        cache_generation: 0,
        uuid_tree_generation: 0,
        metadata_uuid: [0; 16],
        reserved: [0; 224],
        array: [0; 2048],
        backups: [0; 1237],
    }
}

// The volume that reads the chunk from the first image. The tree is its root tree too.
fn volume_over(
    alloc: Global,
    sums: SumKind,
    rack: &MemRack,
    root: &TreeRoot,
) -> Result<Volume, Fail>
    requires { 0 < length (slots_of rack.now) }
    ensures serves { IfOk result (λ vol. Serves (seen_of rack.now) vol.store) }
    ensures free { IfOk result (λ vol. free_count vol.store ≡ 24) }
{
    let stripe = Stripe {
        devid: 1,
        offset: START,
        uuid: [0; 16],
    };
    let item = bodies::chunk_item(alloc, CHUNK, 2, &[stripe])?;
    let mut chunks = ChunkTable::new(alloc);
    chunks.add(Chunk::read(alloc, START, item.as_slice())?)?;
    let mut store = Store::new(alloc, sums, Form::DEFAULT.fsid, BLOCK, chunks)?;
    store.add_device(1, 0, rack.len(0), false)?;
    Ok(Volume {
        store,
        sup: sup_of(sums, &root.place),
    })
}

/// A rack in whose one image trees stand, and the volume that reads it.
#[derive(Drop)]
pub(super) struct Scene {
    pub(super) rack: MemRack,
    pub(super) vol: Volume,
}

/// The scene of a rack, in which the call of a number fails; 0 is none.
pub(super) fn scene_of(
    alloc: Global,
    sums: SumKind,
    mut rack: MemRack,
    root: &TreeRoot,
    failing: u64,
) -> Result<Scene, Fail>
    requires { 0 < length (slots_of rack) }
    ensures serves { IfOk result (λ scene. Serves (seen_of scene.rack) scene.vol.store) }
    ensures free { IfOk result (λ scene. free_count scene.vol.store ≡ 24) }
{
    rack.fail_call(failing)?;
    let vol = volume_over(alloc, sums, &rack, root)?;
    Ok(Scene { rack, vol })
}

/// The scene of a tree alone, by checksums of a kind.
pub(super) fn scene_by(
    alloc: Global,
    sums: SumKind,
    tree: &Tree,
    failing: u64,
) -> Result<Scene, Fail>
    ensures serves { IfOk result (λ scene. Serves (seen_of scene.rack) scene.vol.store) }
    ensures free { IfOk result (λ scene. free_count scene.vol.store ≡ 24) }
{
    let rack = rack_of(alloc, &[tree], &[])?;
    scene_of(alloc, sums, rack, &root_of(tree), failing)
}
