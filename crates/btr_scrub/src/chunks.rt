// The checked blocks of the chunks, one chunk after another.
ghost use Rattle.std.specs.Prelude.{◌≡◌, ◌+◌, ◌-◌, ◌<◌, ◌≤◌, ◌^◌, false, Contains, length, OnOk};
ghost use Rattle.btr_chunk.specs.declared.chunk.Chunk.{Chunk};
ghost use Rattle.btr_read.specs.Serves.{Serves};
ghost use Rattle.btr_read.specs.Store.{free_count};
ghost use Rattle.btr_files.specs.Sums.{kind_in};
ghost use Rattle.btr_volume.specs.Looking.{SameVolume};
ghost use Rattle.btr_volume.specs.Tree.{key, last};
ghost use Rattle.btr_scrub.specs.Extents.{span_of};
ghost use Rattle.btr_scrub.specs.Gathering.{Gathers, scene};
ghost use Rattle.btr_scrub.specs.Listed.{IsList};
ghost use Rattle.btr_scrub.specs.Scanning.{IsSpanAt, IsSpanIn};
ghost use Rattle.btr_scrub.specs.Scrubbing.{CanMend};
ghost use Rattle.btr_scrub.specs.Sifting.{CanSift, Sieves, HasKeptOf};
ghost use Rattle.btr_scrub.specs.Units as units;
ghost use Rattle.btr_scrub.specs.declared.gathered.Gathered.{Gathered};

use crate::collecting::gather_items;
use crate::extent::{Span, span_of};
use crate::gathered::Gathered;
use crate::sieve::{Sieve, sift_listed, stop_of};
use btr_base::Key;
use btr_rack::Rack;
use btr_volume::{Stop, TreeRoot, Volume};
use btr_walk::{Scan, TreeFault};

/// The extent tree, and the checksum tree, if there is one.
#[derive(Clone, Copy)]
pub(crate) struct Trees {
    pub(crate) extents: TreeRoot,
    pub(crate) sums: Option<TreeRoot>,
}

// The span of the chunk of a number.
fn span_at(vol: &Volume, i: usize) -> Span
    requires { i < length vol.now.store.layout.chunks }
    ensures { IsSpanAt vol.now.store.layout i result }
{
    span_of(vol.store.chunks().at(i))
}

// The first key that an extent in a span can have.
fn first_key(span: &Span) -> Key
    ensures { result ≡ key span.now.start 0 0 }
{
    Key {
        objectid: span.start,
        kind: 0,
        offset: 0,
    }
}

// The last one.
fn last_key(span: &Span) -> Key
    requires range { span.now.start + span.now.length < 2 ^ 64 }
    requires some { 1 ≤ span.now.length }
    ensures { result ≡ key (span.now.start + span.now.length - 1) 255 last }
{
    Key {
        objectid: span.start + span.length - 1,
        kind: u8::MAX,
        offset: u64::MAX,
    }
}

// Lists the blocks of the extents that begin in a chunk; answers where the last one ends.
fn gather_chunk<R: Rack>(
    trees: &Trees,
    span: &Span,
    rack: &mut R,
    vol: &mut Volume,
    gathered: &mut Gathered,
) -> Result<u64, Stop>
    requires serves { Serves (R.seen rack.old) vol.old.store }
    requires room { 5 ≤ free_count vol.old.store }
    requires is_list { IsList gathered.old.list }
    requires kind { gathered.old.list.kind ≡ kind_in vol.old.sup }
    requires span { span.now.start + span.now.length < 2 ^ 64 }
    requires some { 1 ≤ span.now.length }
    requires chunk { IsSpanIn vol.old.store.layout span.now }
    ensures { (chunk : Chunk) → span.now ≡ span_of chunk → Contains vol.old.store.layout.chunks chunk
        → Gathers (units.in_chunk vol.old.sup trees.now.sums chunk trees.now.extents)
        (scene (R.seen rack.old) vol.old gathered.old) (scene (R.seen rack.new) vol.new gathered.new) result }
{
    let mut scan = Scan::new(&trees.extents.place, first_key(span), last_key(span));
    let end = gather_items(trees.sums.as_ref(), span, &mut scan, rack, vol, gathered);
    scan.finish(&mut vol.store);
    end
}

// Lists the blocks of the extents that begin in a chunk, and sifts them; answers where the last
// extent ends. Those that were listed after a read failed may not lie in the chunk.
fn sift_chunk<R: Rack>(
    trees: &Trees,
    span: &Span,
    rack: &mut R,
    vol: &mut Volume,
    marks: &mut [bool],
    sieve: &mut Sieve,
) -> Result<u64, Stop>
    requires ready { CanMend false (R.seen rack.old) vol.old.store marks.old }
    requires room { 5 ≤ free_count vol.old.store }
    requires nodesize { vol.old.sup.nodesize ≡ vol.old.store.layout.setting.nodesize }
    requires can { CanSift vol.old.store.layout sieve.old.sifted }
    requires kind { sieve.old.sifted.kept.kind ≡ kind_in vol.old.sup }
    requires span { span.now.start + span.now.length < 2 ^ 64 }
    requires some { 1 ≤ span.now.length }
    requires chunk { IsSpanIn vol.old.store.layout span.now }
    requires behind { sieve.old.end ≤ span.now.start }
    ensures ready { CanMend false (R.seen rack.new) vol.new.store marks.new }
    ensures volume { SameVolume vol.old vol.new }
    ensures can { OnOk result (CanSift vol.old.store.layout sieve.new.sifted) }
    ensures kind { OnOk result (sieve.new.sifted.kept.kind ≡ sieve.old.sifted.kept.kind) }
    ensures end { OnOk result (sieve.new.end ≤ span.now.start + span.now.length) }
    ensures sieves { (chunk : Chunk) (whole : Gathered) → span.now ≡ span_of chunk → Contains vol.old.store.layout.chunks chunk
        → HasKeptOf vol.old.store.layout (R.seen rack.old).held whole sieve.old
        → Sieves (units.in_chunk vol.old.sup trees.now.sums chunk trees.now.extents)
        (scene (R.seen rack.old) vol.old whole) (R.seen rack.new) vol.new sieve.new result }
{
    let mut gathered = Gathered {
        list: sieve.sifted.kept.emptied(),
        unchecked: sieve.unchecked,
    };
    let end = gather_chunk(trees, span, rack, vol, &mut gathered)?;
    match sift_listed(&gathered, span, rack, &mut vol.store, marks, sieve) {
        Ok(true) => Ok(end),
        Ok(false) => Err(Stop::Tree(TreeFault::Malformed(span.start))),
        Err(fault) => Err(stop_of(fault)),
    }
}

/// Lists the blocks of all chunks, by ascending start, and sifts those of each chunk behind its
/// listing. Five slots are free.
///
/// `Tree` where a block of the two trees can't be had or is malformed, or an extent breaks a rule.
/// `Image`: a read of an image failed as blocks were sifted,
/// and nothing was tried behind it. `Memory` for want of memory.
pub(crate) fn sift_chunks<R: Rack>(
    trees: &Trees,
    rack: &mut R,
    vol: &mut Volume,
    marks: &mut [bool],
    sieve: &mut Sieve,
) -> Result<(), Stop>
    requires ready { CanMend false (R.seen rack.old) vol.old.store marks.old }
    requires room { 5 ≤ free_count vol.old.store }
    requires nodesize { vol.old.sup.nodesize ≡ vol.old.store.layout.setting.nodesize }
    requires can { CanSift vol.old.store.layout sieve.old.sifted }
    requires begins { sieve.old.end ≡ 0 }
    requires kind { sieve.old.sifted.kept.kind ≡ kind_in vol.old.sup }
    ensures ready { CanMend false (R.seen rack.new) vol.new.store marks.new }
    ensures sieves { (whole : Gathered) → HasKeptOf vol.old.store.layout (R.seen rack.old).held whole sieve.old
        → Sieves (units.in_chunks vol.old.sup trees.now.sums trees.now.extents vol.old.store.layout.chunks)
        (scene (R.seen rack.old) vol.old whole) (R.seen rack.new) vol.new sieve.new result }
{
    for i in 0..vol.store.chunks().count() {
        let span = span_at(vol, i);
        sift_chunk(trees, &span, rack, vol, marks, sieve)?;
    }
    Ok(())
}
