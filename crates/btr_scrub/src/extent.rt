// Extents, as the items of the extent tree state them.
ghost use Rattle.std.specs.Prelude.{◌≡◌, ◌+◌, ◌<◌, ◌^◌, true};
ghost use Rattle.btr_chunk.specs.Chunk.{IsChunk, is_striped};
ghost use Rattle.btr_files.specs.Sums.{kind_in};
ghost use Rattle.btr_items.specs.Key.{key_fits};
ghost use Rattle.btr_walk.specs.Showing.{item_of};
ghost use Rattle.btr_scrub.specs.Extents.{crossing, span_of};
ghost use Rattle.btr_scrub.specs.Units.{extent_of, is_extent, is_malformed, stated_extent};

use btr_base::{Key, SumKind};
use btr_chunk::{Chunk, Profile};
use btr_items::{ExtentItem, item, item_fits};
use btr_super::Super;
use btr_walk::Found;

/// An extent, as its item states it.
#[derive(Clone, Copy, Debug, PartialEq, Eq)]
pub(crate) struct Extent {
    /// The logical address of its first byte.
    pub(crate) addr: u64,
    /// How many bytes it has.
    pub(crate) len: u64,
    /// The transaction that made it.
    pub(crate) generation: u64,
    /// The level of a tree block; `None` for data.
    pub(crate) level: Option<u8>,
}

/// Where a chunk's addresses lie, and whether its bytes lie on its stripes element by element.
#[derive(Clone, Copy, Debug, PartialEq, Eq)]
pub(crate) struct Span {
    pub(crate) start: u64,
    pub(crate) length: u64,
    pub(crate) striped: bool,
}

// Whether the profile of a chunk puts data on its stripes element by element.
fn is_striped(profile: Profile) -> bool
    ensures { result ≡ is_striped profile }
{
    matches!(
        profile,
        Profile::Raid0 | Profile::Raid10 | Profile::Raid5 | Profile::Raid6
    )
}

/// The span of a chunk.
pub(crate) fn span_of(chunk: &Chunk) -> Span
    requires { IsChunk chunk.now }
    ensures { result ≡ span_of chunk.now }
{
    Span {
        start: chunk.start,
        length: chunk.length,
        striped: is_striped(chunk.profile),
    }
}

// Whether it is the key of an extent.
pub(crate) fn is_extent(key: Key) -> bool
    ensures { result ≡ is_extent key }
{
    key.kind == item::EXTENT_ITEM || key.kind == item::METADATA_ITEM
}

// The extent of an item whose key keeps its rule.
fn stated_extent(nodesize: u32, key: Key, extent: &ExtentItem) -> Extent
    requires { key_fits key ≡ true }
    ensures { result ≡ stated_extent nodesize key extent.now }
{
    if key.kind == item::METADATA_ITEM {
        Extent {
            addr: key.objectid,
            len: u64::from(nodesize),
            generation: extent.generation,
            level: Some(key.offset as u8),
        }
    } else {
        Extent {
            addr: key.objectid,
            len: key.offset,
            generation: extent.generation,
            level: extent.level,
        }
    }
}

// The extent of an item, where the item has its form.
pub(crate) fn extent_of(s: &Super, found: &Found<'_>) -> Option<Extent>
    ensures { result ≡ extent_of s.now (item_of found.now) }
{
    if !item_fits(kind_of(s), found.key, found.body) {
        return None;
    }
    match ExtentItem::read(found.key.kind, found.body) {
        Ok(extent) => Some(stated_extent(s.nodesize, found.key, &extent)),
        Err(_) => None,
    }
}

// The kind of a filesystem's checksums.
pub(crate) fn kind_of(s: &Super) -> SumKind
    ensures { result ≡ kind_in s.now }
{
    match SumKind::from_type(s.csum_type) {
        Some(kind) => kind,
        None => SumKind::Crc32c,
    }
}

/// Whether an extent overlaps the one before, which ends at `end`, or is a tree block that isn't as long as a node.
pub(crate) fn is_malformed(s: &Super, end: u64, extent: &Extent) -> bool
    ensures { result ≡ is_malformed s.now end extent.now }
{
    extent.addr < end || extent.level.is_some() && extent.len != u64::from(s.nodesize)
}

/// Whether an extent passes the end of the chunk of a span, or is a tree block that crosses an element.
pub(crate) fn is_crossing(span: &Span, extent: &Extent) -> bool
    requires { span.now.start + span.now.length < 2 ^ 64 }
    ensures { result ≡ crossing span.now extent.now }
{
    let end = span.start + span.length;
    if extent.len > end || extent.addr > end - extent.len {
        return true;
    }
    let rest = extent.addr.saturating_sub(span.start) % 65536;
    extent.level.is_some() && span.striped && extent.len > 65536 - rest
}
