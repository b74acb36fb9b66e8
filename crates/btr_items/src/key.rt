ghost use Rattle.std.specs.Prelude.{◌≡◌};
ghost use Rattle.btr_items.specs.Key as spec;

use crate::item;
use btr_base::Key;

// The objectids of ORPHAN_ITEMs and of EXTENT_CSUMs: minus 5 and minus 10.
const ORPHANS: u64 = 0xffff_ffff_ffff_fffb;

const CHECKSUMS: u64 = 0xffff_ffff_ffff_fff6;

/// Whether a key keeps the rules on keys of its type. A type that isn't read here has none.
pub fn key_fits(key: Key) -> bool
    ensures { result ≡ spec.key_fits key }
{
    let Key {
        objectid,
        kind,
        offset,
    } = key;
    match kind {
        item::INODE_ITEM => offset == 0,
        item::ORPHAN_ITEM => objectid == ORPHANS,
        item::EXTENT_DATA => is_aligned(offset),
        item::EXTENT_CSUM => objectid == CHECKSUMS && is_aligned(offset),
        item::EXTENT_ITEM => is_aligned(objectid) && is_aligned(offset),
        item::METADATA_ITEM => is_aligned(objectid) && offset <= 7,
        item::TREE_BLOCK_REF
        | item::EXTENT_DATA_REF
        | item::SHARED_BLOCK_REF
        | item::SHARED_DATA_REF => is_aligned(objectid),
        item::DEV_ITEM => objectid == 1,
        _ => true,
    }
}

// Addresses and lengths are whole sectors, of 4096 bytes.
pub(crate) fn is_aligned(n: u64) -> bool
    ensures { result ≡ spec.is_aligned n }
{
    n.is_multiple_of(4096)
}
