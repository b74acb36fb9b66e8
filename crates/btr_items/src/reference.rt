// What the two forms of references to extents have in common: an item of its own, and a part of the extent's
// item. Its type says how many bytes it has; in an item of its own, the key's offset stands for 8 of them.
ghost use Rattle.std.specs.Prelude.{◌≡◌, ◌+◌, ◌≤◌, length, IfSome};
ghost use Rattle.btr_items.specs.Link as spec;

use crate::{Link, item};
use btr_base::{u32_at, u64_at};

// How many bytes stand behind the key, or the offset, of a reference of this type.
pub(crate) fn data_size(kind: u8) -> Option<usize>
    ensures { result ≡ spec.data_size kind }
{
    match kind {
        item::TREE_BLOCK_REF | item::SHARED_BLOCK_REF => Some(0),
        item::EXTENT_DATA_REF => Some(28),
        item::SHARED_DATA_REF => Some(4),
        _ => None,
    }
}

// How many bytes the offset has where the reference stands in the extent's item.
pub(crate) fn offset_size(kind: u8) -> usize
    ensures { result ≡ spec.offset_size kind }
{
    if kind == item::EXTENT_DATA_REF { 0 } else { 8 }
}

// What a reference leads back to, by its offset and the bytes from `at`.
pub(crate) fn link_at(kind: u8, offset: u64, body: &[u8], at: usize) -> Link
    requires { IfSome (spec.data_size kind) (λ size. at + size ≤ length body.now) }
    ensures { result ≡ spec.link_at kind offset at body.now }
{
    match kind {
        item::TREE_BLOCK_REF => Link::Tree(offset),
        item::SHARED_BLOCK_REF => Link::SharedTree(offset),
        item::EXTENT_DATA_REF => Link::File {
            root: u64_at(body, at),
            objectid: u64_at(body, at + 8),
            offset: u64_at(body, at + 16),
        },
        _ => Link::SharedFile(offset),
    }
}

// How often it refers: a tree's reference once.
pub(crate) fn count_at(kind: u8, body: &[u8], at: usize) -> u32
    requires { IfSome (spec.data_size kind) (λ size. at + size ≤ length body.now) }
    ensures { result ≡ spec.count_at kind at body.now }
{
    match kind {
        item::EXTENT_DATA_REF => u32_at(body, at + 24),
        item::SHARED_DATA_REF => u32_at(body, at),
        _ => 1,
    }
}
