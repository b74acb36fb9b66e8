// The two maps of a table: its chunks by their starts, and the ranges of devices that their stripes take up.
ghost use Rattle.std.specs.Prelude.{◌≡◌, ◌<◌, Some, None, slice_get, OnOk, OnErr, false};
ghost use Rattle.std.specs.List.{list_any};
ghost use Rattle.std.specs.Ordering.{nat_cmp};
ghost use Rattle.std.specs.BTreeMap.{values, btree_map_len, IsOrdered};
ghost use Rattle.btr_chunk.specs.Chunk.{IsChunk};
ghost use Rattle.btr_chunk.specs.Table.{overlaps, placed, same_chunk};
ghost use Rattle.btr_chunk.specs.Extents.{extent_of, IsSpaced};
ghost use Rattle.btr_chunk.specs.Index.{start_of, AreChunks, IsIndexed, AnswersLast, AnswersFirst, AnswersAddress, AnswersRange};

use crate::extents::{enter, meets};
use crate::{Chunk, StripePlace};
use std::alloc::AllocError;
use std::collections::BTreeMap;

// The last chunk that starts at or before an address.
pub(crate) fn last_at(chunks: &BTreeMap<u64, Chunk>, addr: u64) -> Option<&Chunk>
    ensures { AnswersLast (start_of chunks.now) addr result }
{
    match chunks.range(..=addr).next_back() {
        Some((_, chunk)) => Some(chunk),
        None => None,
    }
}

// The first chunk that starts at or behind an address.
pub(crate) fn first_at(chunks: &BTreeMap<u64, Chunk>, addr: u64) -> Option<&Chunk>
    ensures { AnswersFirst (start_of chunks.now) addr result }
{
    match chunks.range(addr..).next() {
        Some((_, chunk)) => Some(chunk),
        None => None,
    }
}

// The chunk at the place `i` in ascending start.
pub(crate) fn chunk_at(chunks: &BTreeMap<u64, Chunk>, i: usize) -> &Chunk
    requires { i < btree_map_len chunks.now }
    ensures { slice_get (values chunks.now) i ≡ Some result.now }
{
    match chunks.values().nth(i) {
        Some(chunk) => chunk,
        None => unreachable!(),
    }
}

// Whether the table has an equal chunk.
pub(crate) fn has_same(chunks: &BTreeMap<u64, Chunk>, chunk: &Chunk) -> bool
    requires chunks { AreChunks (start_of chunks.now) }
    requires ordered { IsOrdered nat_cmp chunks.now }
    ensures { result ≡ list_any (same_chunk chunk.now) (values chunks.now) }
{
    match chunks.get(&chunk.start) {
        Some(there) => chunk.is_same(there),
        None => false,
    }
}

// Whether the chunk shares an address or a byte with one of the table, or its own stripes share a byte.
pub(crate) fn overlaps(
    chunks: &BTreeMap<u64, Chunk>,
    extents: &BTreeMap<StripePlace, u64>,
    chunk: &Chunk,
) -> bool
    requires index { IsIndexed chunks.now extents.now }
    requires chunk { IsChunk chunk.now }
    ensures { result ≡ overlaps (values chunks.now) chunk.now }
{
    if chunk.stripes.share(chunk.stripe_length()) {
        return true;
    }
    if shares_address(chunks, chunk) {
        return true;
    }
    shares_range(extents, chunk)
}

// Only the last chunk that starts before the chunk's end can reach into it.
fn shares_address(chunks: &BTreeMap<u64, Chunk>, chunk: &Chunk) -> bool
    requires chunks { AreChunks (start_of chunks.now) }
    requires chunk { IsChunk chunk.now }
    ensures { AnswersAddress (start_of chunks.now) chunk.now result }
{
    match last_at(chunks, chunk.start + (chunk.length - 1)) {
        Some(last) => chunk.start < last.start || chunk.start - last.start < last.length,
        None => false,
    }
}

fn shares_range(extents: &BTreeMap<StripePlace, u64>, chunk: &Chunk) -> bool
    requires spaced { IsSpaced (extent_of extents.now) }
    requires chunk { IsChunk chunk.now }
    ensures { AnswersRange (extent_of extents.now) chunk.now result }
{
    let length = chunk.stripe_length();
    for i in 0..chunk.stripes.len() {
        if meets(extents, &chunk.stripes.at(i), length) {
            return true;
        }
    }
    false
}

// Puts a chunk into both maps, or into none of them.
pub(crate) fn put(
    chunks: &mut BTreeMap<u64, Chunk>,
    extents: &mut BTreeMap<StripePlace, u64>,
    chunk: Chunk,
) -> Result<(), AllocError>
    requires index { IsIndexed chunks.old extents.old }
    requires chunk { IsChunk chunk }
    requires apart { overlaps (values chunks.old) chunk ≡ false }
    requires room { btree_map_len chunks.old < 65536 }
    ensures ok { OnOk result (values chunks.new ≡ placed chunk (values chunks.old)) }
    ensures err { OnErr result (values chunks.new ≡ values chunks.old) }
    ensures index { IsIndexed chunks.new extents.new }
{
    let start = chunk.start;
    chunks.insert(start, chunk)?;
    let Some(chunk) = chunks.get(&start) else {
        unreachable!()
    };
    let entered = enter(extents, chunk.stripes.as_slice(), chunk.stripe_length());
    if entered.is_err() {
        chunks.remove(&start);
    }
    entered
}
