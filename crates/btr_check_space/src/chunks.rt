// What the chunks of a table take up.
ghost use Rattle.std.specs.Prelude.{◌≡◌, ◌++◌, IfOk, OnOk, map};
ghost use Rattle.btr_chunk.specs.Chunk.{IsChunk};
ghost use Rattle.btr_check_space.specs.Orders.{chunk_span};
ghost use Rattle.btr_check_space.specs.Devices as words;

use crate::DeviceExtent;
use crate::span::Span;
use btr_base::Memory;
use btr_chunk::{Chunk, ChunkTable};
use btr_findings::{push, with_room};
use std::alloc::Global;

// The ranges of logical addresses that chunks have.
pub(crate) fn spans_of(alloc: Global, chunks: &ChunkTable) -> Result<Vec<Span>, Memory>
    ensures { IfOk result (λ spans. spans.items ≡ map chunk_span chunks.now) }
{
    let mut spans = with_room(alloc, chunks.count())?;
    let mut from = 0;
    while let Some(chunk) = chunks.next(from) {
        let span = Span {
            start: chunk.start,
            len: chunk.length,
            flags: chunk.kind,
        };
        push(&mut spans, span)?;
        from = chunk.start + 1;
    }
    Ok(spans)
}

// Adds the ranges of devices that a chunk has.
fn add_ranges(ranges: &mut Vec<DeviceExtent>, chunk: &Chunk) -> Result<(), Memory>
    requires { IsChunk chunk.now }
    ensures { OnOk result (ranges.new.items ≡ ranges.old.items ++ words.chunk_ranges chunk.now) }
{
    let len = chunk.stripe_length();
    for i in 0..chunk.stripes.len() {
        let stripe = chunk.stripes.at(i);
        let range = DeviceExtent {
            devid: stripe.devid,
            offset: stripe.offset,
            chunk: chunk.start,
            len,
        };
        push(ranges, range)?;
    }
    Ok(())
}

// The ranges of devices that chunks have.
pub(crate) fn ranges_of(alloc: Global, chunks: &ChunkTable) -> Result<Vec<DeviceExtent>, Memory>
    ensures { IfOk result (λ ranges. ranges.items ≡ words.ranges_of chunks.now) }
{
    let mut ranges = with_room(alloc, chunks.count())?;
    let mut from = 0;
    while let Some(chunk) = chunks.next(from) {
        add_ranges(&mut ranges, chunk)?;
        from = chunk.start + 1;
    }
    Ok(ranges)
}
