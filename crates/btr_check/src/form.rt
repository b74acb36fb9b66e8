// Whether items have their form.
ghost use Rattle.std.specs.Prelude.{◌≡◌, IfOk};
ghost use Rattle.btr_tour.specs.Tour.{Item};
ghost use Rattle.btr_walk.specs.Showing.{item_of};
ghost use Rattle.btr_check.specs.Before.{wrong};
ghost use Rattle.btr_check.specs.Filesystem.{has_form, kind_in};

use crate::block_fault::BlockFault;
use btr_base::{Key, Memory, SumKind};
use btr_chunk::{Chunk, ChunkFault};
use btr_items::{item, item_fits};
use btr_super::Super;
use btr_walk::Found;
use std::alloc::Global;

/// The kind of a filesystem's checksums.
pub(crate) fn kind_of(sup: &Super) -> SumKind
    ensures { result ≡ kind_in sup.now }
{
    match SumKind::from_type(sup.csum_type) {
        Some(kind) => kind,
        None => SumKind::Crc32c,
    }
}

// Whether an item has its form; a CHUNK_ITEM describes a chunk that starts at its key's offset.
fn has_form(alloc: Global, kind: SumKind, key: Key, body: &[u8]) -> Result<bool, Memory>
    ensures { IfOk result (λ fits. fits ≡ has_form kind key body.now) }
{
    if !item_fits(kind, key, body) {
        return Ok(false);
    }
    if key.kind != item::CHUNK_ITEM {
        return Ok(true);
    }
    match Chunk::read(alloc, key.offset, body) {
        Ok(_) => Ok(true),
        Err(ChunkFault::Memory) => Err(Memory),
        Err(ChunkFault::Stripes(_) | ChunkFault::Bad) => Ok(false),
    }
}

/// What is wrong with an item that hasn't its form: its leaf is malformed.
pub(crate) fn broken_in(
    alloc: Global,
    kind: SumKind,
    found: &Found<'_>,
) -> Result<Option<BlockFault>, Memory>
    ensures { IfOk result (λ fault. fault ≡ wrong kind (Item (item_of found.now))) }
{
    if has_form(alloc, kind, found.key, found.body)? {
        Ok(None)
    } else {
        Ok(Some(BlockFault::Malformed(found.block)))
    }
}
