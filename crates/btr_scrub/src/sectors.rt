// The sectors of a data extent.
ghost use Rattle.std.specs.Prelude.{◌+◌, ◌*◌, ◌<◌, ◌≡◌, ◌≤◌, ◌^◌, IfOk, OnOk};
ghost use Rattle.btr_read.specs.Serves.{Serves};
ghost use Rattle.btr_read.specs.Store.{free_count};
ghost use Rattle.btr_files.specs.Sums.{kind_in, tree_behind};
ghost use Rattle.btr_scrub.specs.Gathering.{Gathers, GathersSome, Lists, ListsKept, gap_met, scene};
ghost use Rattle.btr_scrub.specs.Listed.{IsList};
ghost use Rattle.btr_scrub.specs.Units as units;

use crate::gathered::Gathered;
use btr_base::Memory;
use btr_files::{Summed, SumsAhead, sum_ahead, sums_from};
use btr_rack::Rack;
use btr_volume::{Stop, TreeRoot, Volume};

// Lists so many sectors that have no checksum, which are counted.
fn gather_gap(addr: u64, count: u32, gathered: &mut Gathered) -> Result<(), Memory>
    requires is_list { IsList gathered.old.list }
    requires some { 1 ≤ count }
    requires range { addr + count * 4096 < 2 ^ 64 }
    ensures { OnOk result (Lists gathered.old gathered.new (gap_met count addr)) }
{
    gathered.unchecked = gathered.unchecked.saturating_add(u64::from(count));
    gathered.list.push_plains(addr, count)
}

// How many sectors of a gap are listed at once, where there are so many of them at most.
fn part_of(len: u64, most: u64) -> u32
    requires some { 1 ≤ len }
    requires most { 1 ≤ most }
    ensures some { 1 ≤ result }
    ensures len { result ≤ len }
    ensures most { result ≤ most }
{
    len.min(most).min(u64::from(u32::MAX)) as u32
}

// Lists those of so many sectors from an address on whose checksums are kept, up to the first whose isn't; answers how many.
fn gather_kept(
    addr: u64,
    most: u64,
    ahead: &SumsAhead,
    gathered: &mut Gathered,
) -> Result<u64, Memory>
    requires is_list { IsList gathered.old.list }
    requires range { addr + most * 4096 < 2 ^ 64 }
    ensures { IfOk result (ListsKept addr most ahead.now gathered.old gathered.new) }
{
    let kind = gathered.list.kind();
    for i in 0..most {
        let Some(sum) = ahead.get(kind, addr + i * 4096) else {
            return Ok(i);
        };
        gathered.list.push_sector(addr + i * 4096, &sum)?;
    }
    Ok(most)
}

// Lists the first of so many sectors of data with its checksum, or those of the gap that it
// begins; answers how many.
fn gather_next<R: Rack>(
    sums: Option<&TreeRoot>,
    addr: u64,
    most: u64,
    rack: &mut R,
    vol: &mut Volume,
    gathered: &mut Gathered,
) -> Result<u64, Stop>
    requires serves { Serves (R.seen rack.old) vol.old.store }
    requires room { 4 ≤ free_count vol.old.store }
    requires is_list { IsList gathered.old.list }
    requires kind { gathered.old.list.kind ≡ kind_in vol.old.sup }
    requires some { 1 ≤ most }
    requires range { addr + most * 4096 < 2 ^ 64 }
    ensures { GathersSome vol.old.sup (tree_behind sums.entry) addr most
        (scene (R.seen rack.old) vol.old gathered.old) (scene (R.seen rack.new) vol.new gathered.new) result }
{
    match sums_from(sums, addr, rack, vol) {
        Err(fault) => Err(Stop::Tree(fault)),
        Ok(Summed::Sum(sum)) => match gathered.list.push_sector(addr, &sum) {
            Ok(()) => Ok(1),
            Err(_) => Err(Stop::Memory),
        },
        Ok(Summed::Gap(len)) => {
            let count = part_of(len, most);
            match gather_gap(addr, count, gathered) {
                Ok(()) => Ok(u64::from(count)),
                Err(_) => Err(Stop::Memory),
            }
        }
    }
}

// The same, with those behind the first whose checksums its look-up keeps.
fn gather_some<R: Rack>(
    sums: Option<&TreeRoot>,
    addr: u64,
    most: u64,
    rack: &mut R,
    vol: &mut Volume,
    gathered: &mut Gathered,
) -> Result<u64, Stop>
    requires serves { Serves (R.seen rack.old) vol.old.store }
    requires room { 4 ≤ free_count vol.old.store }
    requires is_list { IsList gathered.old.list }
    requires kind { gathered.old.list.kind ≡ kind_in vol.old.sup }
    requires some { 1 ≤ most }
    requires range { addr + most * 4096 < 2 ^ 64 }
    ensures { GathersSome vol.old.sup (tree_behind sums.entry) addr most
        (scene (R.seen rack.old) vol.old gathered.old) (scene (R.seen rack.new) vol.new gathered.new) result }
{
    let mut ahead = SumsAhead::new();
    if let Err(fault) = sum_ahead(sums, addr, &mut ahead, rack, vol) {
        return Err(Stop::Tree(fault));
    }
    let Ok(count) = gather_kept(addr, most, &ahead, gathered) else {
        return Err(Stop::Memory);
    };
    if count > 0 {
        return Ok(count);
    }
    gather_next(sums, addr, most, rack, vol, gathered)
}

/// Lists so many sectors of data from an address on. Those that have no checksum are counted, and
/// listed with the others. Four slots are free.
///
/// `Tree` where a block of the checksum tree can't be had or is malformed, and `Memory` for want of
/// memory.
pub(crate) fn gather_sectors<R: Rack>(
    sums: Option<&TreeRoot>,
    addr: u64,
    count: u64,
    rack: &mut R,
    vol: &mut Volume,
    gathered: &mut Gathered,
) -> Result<(), Stop>
    requires serves { Serves (R.seen rack.old) vol.old.store }
    requires room { 4 ≤ free_count vol.old.store }
    requires is_list { IsList gathered.old.list }
    requires kind { gathered.old.list.kind ≡ kind_in vol.old.sup }
    requires range { addr + count * 4096 < 2 ^ 64 }
    ensures { Gathers (units.sectors vol.old.sup (tree_behind sums.entry) count addr)
        (scene (R.seen rack.old) vol.old gathered.old) (scene (R.seen rack.new) vol.new gathered.new) result }
{
    let mut done = 0;
    while done < count {
        done += gather_some(sums, addr + done * 4096, count - done, rack, vol, gathered)?;
    }
    Ok(())
}
