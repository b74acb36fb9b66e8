// What items say of checksums and of the sectors that files use.
ghost use Rattle.std.specs.Prelude.{◌≡◌};
ghost use Rattle.btr_check_sums.specs.Items as words;
ghost use Rattle.btr_walk.specs.Showing.{item_of};

use crate::UsedRange;
use bitflags::Flags;
use btr_base::SumKind;
use btr_items::{FileExtent, Inode, InodeFlags, Shape, SumRun, item};
use btr_walk::Found;

// The run of checksums that an item has, if it does.
pub(crate) fn run_in(kind: SumKind, found: &Found<'_>) -> Option<SumRun>
    ensures { result ≡ words.run_in kind (item_of found.now) }
{
    SumRun::read(kind, found.key, found.body).ok()
}

// The inode that an item describes, if its data has no checksums.
pub(crate) fn loose_in(found: &Found<'_>) -> Option<u64>
    ensures { result ≡ words.loose_in (item_of found.now) }
{
    if found.key.kind != item::INODE_ITEM {
        return None;
    }
    match Inode::read(found.body) {
        Ok(inode) if inode.flags().intersects(InodeFlags::NODATASUM) => Some(found.key.objectid),
        _ => None,
    }
}

// What a file uses of an extent.
fn used_of(inode: u64, extent: &FileExtent) -> Option<UsedRange>
    ensures { result ≡ words.used_of inode extent.now extent.now.shape }
{
    let Shape::Regular {
        addr,
        disk_len,
        skip,
        len,
    } = extent.shape
    else {
        return None;
    };
    if addr == 0 {
        return None;
    }
    let (skip, len) = if extent.compression == 0 {
        (skip, len)
    } else {
        (0, disk_len)
    };
    Some(UsedRange {
        inode,
        addr,
        skip,
        len,
    })
}

// The range that a file uses, if an item describes it.
pub(crate) fn used_in(found: &Found<'_>) -> Option<UsedRange>
    ensures { result ≡ words.used_in (item_of found.now) }
{
    if found.key.kind != item::EXTENT_DATA {
        return None;
    }
    match FileExtent::read(found.key.offset, found.body) {
        Ok(extent) => used_of(found.key.objectid, &extent),
        Err(_) => None,
    }
}
