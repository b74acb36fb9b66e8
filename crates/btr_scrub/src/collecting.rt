// The checked blocks of a filesystem: extent by extent, chunk by chunk.
ghost use Rattle.std.specs.Prelude.{◌≡◌, ◌+◌, ◌<◌, ◌≤◌, ◌^◌, [], Contains, Some};
ghost use Rattle.btr_chunk.specs.declared.chunk.Chunk.{Chunk};
ghost use Rattle.btr_rack.specs.Rack.{OnlyReads};
ghost use Rattle.btr_read.specs.Serves.{Serves};
ghost use Rattle.btr_read.specs.Store.{SameLoans, free_count};
ghost use Rattle.btr_walk.specs.Going.{IsOn};
ghost use Rattle.btr_walk.specs.Reading.{HasCause, Map};
ghost use Rattle.btr_walk.specs.ScanEnds.{IsScanReady, rank_of, without_leaf};
ghost use Rattle.btr_walk.specs.Showing.{item_of};
ghost use Rattle.btr_files.specs.Sums.{kind_in, tree_behind};
ghost use Rattle.btr_scrub.specs.Extents.{span_of};
ghost use Rattle.btr_scrub.specs.Gathering.{Gathers, scene};
ghost use Rattle.btr_scrub.specs.Listed.{IsList};
ghost use Rattle.btr_scrub.specs.Scanning.{IsSpanIn, ItemRankFalls, NextTold, Says, Scanned};
ghost use Rattle.btr_scrub.specs.Units as units;

use crate::extent::{Extent, Span, extent_of, is_crossing, is_extent, is_malformed};
use crate::gathered::Gathered;
use crate::sectors::gather_sectors;
use btr_rack::Rack;
use btr_read::Store;
use btr_super::Super;
use btr_volume::{Stop, TreeRoot, Volume};
use btr_walk::{Found, Scan, TreeFault, next};

// What the next item of a scan says of extents.
#[derive(Clone, Copy)]
enum NextExtent {
    // There is no item any more.
    End,
    // It isn't an extent.
    Other,
    // It is one that breaks its form, in the leaf of this address.
    Broken(u64),
    // It is this extent, in the leaf of this address.
    Found(Extent, u64),
}

// An extent that a scan met.
#[derive(Clone, Copy)]
struct MetExtent {
    extent: Extent,
    // The address of the leaf in which it stands.
    leaf: u64,
    // Where the extent before it ends.
    end_before: u64,
}

// Lists the blocks of an extent.
fn gather_blocks<R: Rack>(
    sums: Option<&TreeRoot>,
    extent: &Extent,
    rack: &mut R,
    vol: &mut Volume,
    gathered: &mut Gathered,
) -> Result<(), Stop>
    requires serves { Serves (R.seen rack.old) vol.old.store }
    requires room { 4 ≤ free_count vol.old.store }
    requires is_list { IsList gathered.old.list }
    requires kind { gathered.old.list.kind ≡ kind_in vol.old.sup }
    requires range { extent.now.addr + extent.now.len < 2 ^ 64 }
    ensures { Gathers (units.blocks_of vol.old.sup (tree_behind sums.entry) extent.now extent.now.level)
        (scene (R.seen rack.old) vol.old gathered.old) (scene (R.seen rack.new) vol.new gathered.new) result }
{
    let Some(level) = extent.level else {
        return gather_sectors(sums, extent.addr, extent.len / 4096, rack, vol, gathered);
    };
    match gathered
        .list
        .push_tree(extent.addr, extent.generation, level)
    {
        Ok(()) => Ok(()),
        Err(_) => Err(Stop::Memory),
    }
}

// Lists the blocks of an extent that was met; answers where it ends.
fn gather_extent<R: Rack>(
    sums: Option<&TreeRoot>,
    span: &Span,
    met: &MetExtent,
    rack: &mut R,
    vol: &mut Volume,
    gathered: &mut Gathered,
) -> Result<u64, Stop>
    requires serves { Serves (R.seen rack.old) vol.old.store }
    requires room { 4 ≤ free_count vol.old.store }
    requires is_list { IsList gathered.old.list }
    requires kind { gathered.old.list.kind ≡ kind_in vol.old.sup }
    requires span { span.now.start + span.now.length < 2 ^ 64 }
    ensures { (chunk : Chunk) → span.now ≡ span_of chunk → Contains vol.old.store.layout.chunks chunk
        → Gathers (units.extent_met vol.old.sup (tree_behind sums.entry) chunk met.now.end_before met.now.leaf (Some met.now.extent))
        (scene (R.seen rack.old) vol.old gathered.old) (scene (R.seen rack.new) vol.new gathered.new) result }
{
    let extent = &met.extent;
    if is_malformed(&vol.sup, met.end_before, extent) {
        return Err(Stop::Tree(TreeFault::Malformed(met.leaf)));
    }
    if is_crossing(span, extent) {
        return Err(Stop::Tree(TreeFault::Crosses(extent.addr)));
    }
    gather_blocks(sums, extent, rack, vol, gathered)?;
    Ok(extent.addr + extent.len)
}

// What an item says of extents.
fn extent_in(s: &Super, found: &Found<'_>) -> NextExtent
    ensures { Says s.now (item_of found.now) result }
{
    if !is_extent(found.key) {
        return NextExtent::Other;
    }
    match extent_of(s, found) {
        Some(extent) => NextExtent::Found(extent, found.block),
        None => NextExtent::Broken(found.block),
    }
}

// What the next item of a scan says of extents.
fn next_extent<R: Rack>(
    s: &Super,
    scan: &mut Scan,
    rack: &mut R,
    store: &mut Store,
) -> Result<NextExtent, TreeFault>
    requires ready { IsScanReady (R.seen rack.old) store.old scan.old }
    requires room { 4 ≤ free_count (without_leaf store.old scan.old) }
    ensures ready { IsScanReady (R.seen rack.new) store.new scan.new }
    ensures reads { OnlyReads (R.seen rack.old) (R.seen rack.new) }
    ensures others { SameLoans (without_leaf store.old scan.old) (without_leaf store.new scan.new) }
    ensures lo { scan.new.lo ≡ scan.old.lo }
    ensures hi { scan.new.hi ≡ scan.old.hi }
    ensures rank_falls { ItemRankFalls (rank_of scan.old) (rank_of scan.new) result }
    ensures cause { HasCause store.old.layout (R.seen rack.old) (R.seen rack.new) result }
    ensures content { NextTold s.now (R.seen rack.old) (R.seen rack.new) store.old store.new scan.old scan.new result }
{
    match next(store, scan, rack)? {
        None => Ok(NextExtent::End),
        Some(found) => Ok(extent_in(s, &found)),
    }
}

// Lists the blocks of the extents that a scan has still to give; answers where the last one ends.
#[tactic(none)]
pub(crate) fn gather_items<R: Rack>(
    sums: Option<&TreeRoot>,
    span: &Span,
    scan: &mut Scan,
    rack: &mut R,
    vol: &mut Volume,
    gathered: &mut Gathered,
) -> Result<u64, Stop>
    requires ready { IsScanReady (R.seen rack.old) vol.old.store scan.old }
    requires room { 5 ≤ free_count (without_leaf vol.old.store scan.old) }
    requires is_list { IsList gathered.old.list }
    requires kind { gathered.old.list.kind ≡ kind_in vol.old.sup }
    requires span { span.now.start + span.now.length < 2 ^ 64 }
    requires on { (B : Map) → IsOn scan.old.lo scan.old.hi B [] scan.old.place }
    requires chunk { IsSpanIn vol.old.store.layout span.now }
    ensures ready { IsScanReady (R.seen rack.new) vol.new.store scan.new }
    ensures scanned { (chunk : Chunk) → span.now ≡ span_of chunk → Contains vol.old.store.layout.chunks chunk
        → Scanned vol.old.sup (tree_behind sums.entry) chunk
        (scene (R.seen rack.old) vol.old gathered.old) (scene (R.seen rack.new) vol.new gathered.new)
        scan.old scan.new result }
{
    let mut end = 0;
    loop {
        match next_extent(&vol.sup, scan, rack, &mut vol.store) {
            Err(fault) => return Err(Stop::Tree(fault)),
            Ok(NextExtent::End) => return Ok(end),
            Ok(NextExtent::Other) => {}
            Ok(NextExtent::Broken(leaf)) => return Err(Stop::Tree(TreeFault::Malformed(leaf))),
            Ok(NextExtent::Found(extent, leaf)) => {
                let met = MetExtent {
                    extent,
                    leaf,
                    end_before: end,
                };
                end = gather_extent(sums, span, &met, rack, vol, gathered)?;
            }
        }
    }
}
