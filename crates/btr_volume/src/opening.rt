// From open images to a filesystem.
ghost use Rattle.std.specs.Prelude.{◌≡◌, ◌<◌, ◌≤◌, Some, Ok, IfSome, IfOk, length, map};
ghost use Rattle.btr_chunk.specs.Array.{array_of};
ghost use Rattle.btr_rack.specs.Rack.{OnlyCounts, OnlyReads};
ghost use Rattle.btr_read.specs.Serves.{Serves};
ghost use Rattle.btr_read.specs.Store.{SameLoans, free_count};
ghost use Rattle.btr_volume.specs.Start.{array_bytes, header_id};
ghost use Rattle.btr_super.specs.Newest.{newest};
ghost use Rattle.btr_volume.specs.Opening.{NoneAtFault, ReadsArray, MakesStore, BeginsVolume, Prepares, SupersCause, ReadsTable, TableCause, Opens};
ghost use Rattle.btr_volume.specs.Opening.{OpenCause, IsFresh};

use crate::devices::add_devices;
use crate::refusing::test_supers;
use crate::supers::read_supers;
use crate::table::Chunks;
use crate::tree::{chunk_root, root_want};
use crate::{OpenFault, Volume, Which};
use bitflags::Flags;
use btr_base::{FIRST_KEY, LAST_KEY, SumKind};
use btr_chunk::{ArrayFault, ChunkTable, read_array};
use btr_rack::Rack;
use btr_read::{Store, compare_candidates};
use btr_super::{Incompat, Super, choose};
use btr_walk::{FoldFault, fold};
use std::alloc::Global;

// The id in the headers of tree blocks.
fn header_id(s: &Super) -> [u8; 16]
    ensures { result ≡ header_id s.now }
{
    if s.incompat().intersects(Incompat::METADATA_UUID) {
        s.metadata_uuid
    } else {
        s.fsid
    }
}

// The chunks of the system array.
fn array_chunks(alloc: Global, s: &Super) -> Result<ChunkTable, OpenFault>
    requires { s.now.sys_chunk_array_size ≤ 2048 }
    ensures chunks { ReadsArray (array_of (array_bytes s.now)) result }
    ensures early { NoneAtFault result }
{
    match read_array(alloc, &s.array[..s.sys_chunk_array_size as usize]) {
        Ok(chunks) => Ok(chunks),
        Err(ArrayFault::BadArray) => Err(OpenFault::BadArray),
        Err(ArrayFault::Stripes(n)) => Err(OpenFault::Limit(Which::Stripes, u64::from(n))),
        Err(ArrayFault::BadChunk(start)) => Err(OpenFault::BadChunk(start)),
        Err(ArrayFault::Memory) => Err(OpenFault::Memory),
    }
}

// A store without devices, by a superblock whose sizes are those that are read.
fn new_store(alloc: Global, s: &Super) -> Result<Store, OpenFault>
    requires large { 4096 ≤ s.now.nodesize }
    requires small { s.now.nodesize ≤ 65536 }
    requires array { s.now.sys_chunk_array_size ≤ 2048 }
    ensures store { MakesStore s.now result }
    ensures nodesize { IfOk result (λ store. store.layout.setting.nodesize ≡ s.now.nodesize) }
    ensures early { NoneAtFault result }
{
    let Some(kind) = SumKind::from_type(s.csum_type) else {
        return Err(OpenFault::SumKind(s.csum_type));
    };
    let chunks = array_chunks(alloc, s)?;
    match Store::new(alloc, kind, header_id(s), s.nodesize, chunks) {
        Ok(store) => Ok(store),
        Err(_) => Err(OpenFault::Memory),
    }
}

// The volume with the chunks of the system array, by the superblocks of the images and the newest of them.
fn begin<R: Rack>(
    alloc: Global,
    chosen: &Super,
    supers: &[Super],
    rack: &R,
) -> Result<Volume, OpenFault>
    requires newest { newest supers.now ≡ Some chosen.now }
    requires count { length supers.now ≡ length (R.seen rack.now).slots }
    ensures fresh { IfOk result (IsFresh (R.seen rack.now)) }
    ensures array { IfOk result (λ volume. array_of (array_bytes volume.sup) ≡ Ok volume.store.layout.chunks) }
    ensures size { IfOk result (λ volume. volume.sup.sys_chunk_array_size ≤ 2048) }
    ensures early { NoneAtFault result }
    ensures content { BeginsVolume supers.now (map (λ slot. slot.len) (R.seen rack.now).slots) result }
{
    test_supers(chosen, supers)?;
    let mut store = new_store(alloc, chosen)?;
    match add_devices(supers, chosen.generation, rack, &mut store) {
        Ok(()) => Ok(Volume {
            store,
            sup: *chosen,
        }),
        Err(_) => Err(OpenFault::Memory),
    }
}

// The volume with the chunks of the system array, by which the chunk tree is read.
fn prepare<R: Rack>(alloc: Global, rack: &mut R) -> Result<Volume, OpenFault>
    requires some { 0 < length (R.seen rack.old).slots }
    ensures same { OnlyCounts (R.seen rack.old) (R.seen rack.new) }
    ensures cause { SupersCause (R.seen rack.old) (R.seen rack.new) result }
    ensures fresh { IfOk result (IsFresh (R.seen rack.new)) }
    ensures array { IfOk result (λ volume. array_of (array_bytes volume.sup) ≡ Ok volume.store.layout.chunks) }
    ensures size { IfOk result (λ volume. volume.sup.sys_chunk_array_size ≤ 2048) }
    ensures content { IfSome (R.seen rack.old).held (λ images. Prepares images result) }
{
    let supers = read_supers(alloc, rack)?;
    begin(alloc, &supers[choose(&supers)], &supers, rack)
}

// The chunks of the chunk tree, behind those of the array, which was read before: only memory can be wanted for it.
fn read_table<R: Rack>(
    alloc: Global,
    s: &Super,
    rack: &mut R,
    store: &mut Store,
) -> Result<ChunkTable, OpenFault>
    requires serves { Serves (R.seen rack.old) store.old }
    requires room { 4 ≤ free_count store.old }
    requires array { array_of (array_bytes s.now) ≡ Ok store.old.layout.chunks }
    requires size { s.now.sys_chunk_array_size ≤ 2048 }
    ensures serves { Serves (R.seen rack.new) store.new }
    ensures reads { OnlyReads (R.seen rack.old) (R.seen rack.new) }
    ensures loans { SameLoans store.old store.new }
    ensures cause { TableCause store.old.layout (R.seen rack.old) (R.seen rack.new) result }
    ensures content { ReadsTable s.now store.old.layout (R.seen rack.old) (R.seen rack.new) result }
{
    let Ok(table) = array_chunks(alloc, s) else {
        return Err(OpenFault::Memory);
    };
    let chunks = Chunks { alloc, table };
    match fold(&chunk_root(s), FIRST_KEY, LAST_KEY, rack, store, chunks) {
        Ok(Ok(chunks)) => Ok(chunks),
        Ok(Err(fault)) => Err(OpenFault::from(fault)),
        Err(FoldFault::Tree(fault)) => Err(OpenFault::Tree(fault)),
        Err(FoldFault::Own(_)) => Err(OpenFault::Memory),
    }
}

impl Volume {
    /// Opens the filesystem whose images are open in the rack, one at least: reads the superblock of each, tests them, reads the whole
    /// chunk tree, and compares the copies of the root tree's root block. No slot of its store is lent.
    ///
    /// The first refusal of these: `ImageFault`, `SumKind` or `NoSuper` of the first image without a superblock; `Foreign`, `Twin` and
    /// `Diverged`; `Unsupported`, `Geometry`, `LogPending` by the newest superblock; `BadArray`, `Limit` or `BadChunk` of the system array; and what the
    /// chunk tree comes to, read by the array's chunks alone: `Tree`, or `Limit` or `BadChunk` of the first of its chunks that can't be
    /// added; and `Diverged` where copies of the root tree's root block differ that can be read and pass, with the smallest slot that the
    /// first one reads that isn't the first that passes. `Memory` comes for want of it. After a refusal everything that was allocated is given back.
    pub fn open<R: Rack>(alloc: Global, rack: &mut R) -> Result<Volume, OpenFault>
        requires some { 0 < length (R.seen rack.old).slots }
        ensures reads { OnlyReads (R.seen rack.old) (R.seen rack.new) }
        ensures fresh { IfOk result (IsFresh (R.seen rack.new)) }
        ensures cause { OpenCause (R.seen rack.old) (R.seen rack.new) result }
        ensures content { IfSome (R.seen rack.old).held
            (λ images. Opens images (R.seen rack.old) (R.seen rack.new) result) }
    {
        let mut volume = prepare(alloc, rack)?;
        let chunks = read_table(alloc, &volume.sup, rack, &mut volume.store)?;
        volume.store.replace_chunks(chunks);
        match compare_candidates(&root_want(&volume.sup), rack, &mut volume.store) {
            None => Ok(volume),
            Some(slot) => Err(OpenFault::Diverged(slot)),
        }
    }
}
