// What is kept of all checked blocks.
ghost use Rattle.std.specs.Prelude.{◌≡◌, ◌≤◌, [], false, OnOk, Some};
ghost use Rattle.btr_read.specs.Serves.{Serves};
ghost use Rattle.btr_read.specs.Store.{free_count};
ghost use Rattle.btr_files.specs.Sums.{kind_in};
ghost use Rattle.btr_rack.specs.Rack.{OnlyReads};
ghost use Rattle.btr_volume.specs.Looking.{SameVolume};
ghost use Rattle.btr_scrub.specs.Gathering.{scene};
ghost use Rattle.btr_scrub.specs.Scrubbing.{CanMend, HasRooms};
ghost use Rattle.btr_scrub.specs.Sifting.{CanSift, Sieves, SiftsUnits, HasKeptOf};
ghost use Rattle.btr_scrub.specs.Units as units;
ghost use Rattle.btr_scrub.specs.declared.gathered.Gathered.{Gathered};

use crate::chunks::{Trees, sift_chunks};
use crate::extent::kind_of;
use crate::rowed::RowRoom;
use crate::sieve::{Sieve, new_sieve};
use btr_rack::Rack;
use btr_volume::{Stop, TreeRoot, Volume};
use std::alloc::Global;

const EXTENT_TREE: u64 = 2;

const CHECKSUM_TREE: u64 = 7;

// Looks the checksum tree up, which may be missing, and sifts the blocks of all chunks.
fn sift_extents<R: Rack>(
    extents: &TreeRoot,
    rack: &mut R,
    vol: &mut Volume,
    marks: &mut [bool],
    sieve: &mut Sieve,
) -> Result<(), Stop>
    requires ready { CanMend false (R.seen rack.old) vol.old.store marks.old }
    requires room { 5 ≤ free_count vol.old.store }
    requires nodesize { vol.old.sup.nodesize ≡ vol.old.store.layout.setting.nodesize }
    requires can { CanSift vol.old.store.layout sieve.old.sifted }
    requires begins { sieve.old.end ≡ 0 }
    requires kind { sieve.old.sifted.kept.kind ≡ kind_in vol.old.sup }
    ensures ready { CanMend false (R.seen rack.new) vol.new.store marks.new }
    ensures sieves { (whole : Gathered) → HasKeptOf vol.old.store.layout (R.seen rack.old).held whole sieve.old
        → Sieves (units.with_extents vol.old.sup vol.old.store.layout.chunks (Some extents.now))
        (scene (R.seen rack.old) vol.old whole) (R.seen rack.new) vol.new sieve.new result }
{
    let sums = match vol.tree(CHECKSUM_TREE, rack) {
        Ok(sums) => sums,
        Err(fault) => return Err(Stop::Tree(fault)),
    };
    let trees = Trees {
        extents: *extents,
        sums,
    };
    sift_chunks(&trees, rack, vol, marks, sieve)
}

// Looks the extent tree up, and sifts the blocks of its extents.
fn sift_all<R: Rack>(
    rack: &mut R,
    vol: &mut Volume,
    marks: &mut [bool],
    sieve: &mut Sieve,
) -> Result<(), Stop>
    requires ready { CanMend false (R.seen rack.old) vol.old.store marks.old }
    requires room { 5 ≤ free_count vol.old.store }
    requires nodesize { vol.old.sup.nodesize ≡ vol.old.store.layout.setting.nodesize }
    requires can { CanSift vol.old.store.layout sieve.old.sifted }
    requires begins { sieve.old.end ≡ 0 }
    requires kind { sieve.old.sifted.kept.kind ≡ kind_in vol.old.sup }
    ensures ready { CanMend false (R.seen rack.new) vol.new.store marks.new }
    ensures sieves { (whole : Gathered) → HasKeptOf vol.old.store.layout (R.seen rack.old).held whole sieve.old
        → Sieves (units.units_in vol.old.sup vol.old.store.layout.chunks)
        (scene (R.seen rack.old) vol.old whole) (R.seen rack.new) vol.new sieve.new result }
{
    match vol.tree(EXTENT_TREE, rack) {
        Err(fault) => Err(Stop::Tree(fault)),
        Ok(None) => Err(Stop::NoTree(EXTENT_TREE)),
        Ok(Some(extents)) => sift_extents(&extents, rack, vol, marks, sieve),
    }
}

/// Lists the checked blocks of a filesystem (`docs/FORMAT.md`, "Checked blocks"), in the order of chunks and addresses: the tree
/// blocks, and the sectors of data that have a checksum. The sectors that have none are listed between them, and counted. Behind
/// the listing of each chunk its blocks are sifted: those are kept for which something may have to be written, and of a full
/// stripe all or none. Nothing is written, and five slots are free.
///
/// `NoTree` where there is no extent tree. `Tree` where a block of the root tree, the extent tree or the checksum tree can't be
/// had or is malformed, and where an extent overlaps the one before it, is a tree block that isn't as long as a node, passes its
/// chunk's end, or is a tree block that crosses an element. `Image`: a read of an image failed as blocks were sifted, and nothing
/// was tried behind it. `Memory` for want of memory.
pub(crate) fn sift_blocks<R: Rack>(
    alloc: Global,
    room: RowRoom,
    rack: &mut R,
    vol: &mut Volume,
    marks: &mut [bool],
) -> Result<Sieve, Stop>
    requires ready { CanMend false (R.seen rack.old) vol.old.store marks.old }
    requires room { 5 ≤ free_count vol.old.store }
    requires nodesize { vol.old.sup.nodesize ≡ vol.old.store.layout.setting.nodesize }
    requires large { 4096 ≤ vol.old.sup.nodesize }
    requires rooms { HasRooms vol.old.store.layout room.buffer }
    ensures ready { CanMend false (R.seen rack.new) vol.new.store marks.new }
    ensures reads { OnlyReads (R.seen rack.old) (R.seen rack.new) }
    ensures volume { SameVolume vol.old vol.new }
    ensures sifts { SiftsUnits (units.units_in vol.old.sup vol.old.store.layout.chunks)
        vol.old.store.layout (R.seen rack.old) (R.seen rack.new) result }
{
    let mut sieve = new_sieve(alloc, kind_of(&vol.sup), vol.sup.nodesize, room);
    sift_all(rack, vol, marks, &mut sieve)?;
    Ok(sieve)
}
