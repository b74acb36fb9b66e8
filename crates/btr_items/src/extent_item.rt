ghost use Rattle.std.specs.Prelude.{◌≡◌, ◌≤◌, length};
ghost use Rattle.btr_items.specs.ExtentItem as spec;

use crate::field::key_at;
use crate::{ExtentFlags, ItemFault, item};
use bitflags::Flags;
use btr_base::{Key, u64_at};

/// An extent: the front of the body of an EXTENT_ITEM or a METADATA_ITEM, whose key has its logical address.
/// Inline references come behind it.
#[derive(Clone, Copy, Debug, PartialEq, Eq)]
pub struct ExtentItem {
    /// How many references there are to the extent.
    pub refs: u64,
    /// The transaction that made the extent.
    pub generation: u64,
    /// The [`ExtentFlags`], `DATA` or `TREE_BLOCK` among them.
    pub flags: u64,
    /// The level of the tree block of an EXTENT_ITEM; a METADATA_ITEM has it in its key.
    pub level: Option<u8>,
    /// Where the first inline reference begins in the body.
    pub first: usize,
}

impl ExtentItem {
    ghost use Rattle.std.specs.Prelude.{◌≡◌, ◌≤◌, length, IfOk};
    ghost use Rattle.btr_items.specs.ExtentItem.{extent_item_of, block_key};

    /// Reads the front of the body of an EXTENT_ITEM or a METADATA_ITEM, up to the place `first` in the body. `ItemFault`
    /// exactly where the type is another, the flags don't fit it, or the front doesn't all stand in the body.
    pub fn read(kind: u8, body: &[u8]) -> Result<ExtentItem, ItemFault>
        ensures form { result ≡ extent_item_of kind body.now }
        ensures first { IfOk result (λ extent. extent.first ≤ length body.now) }
    {
        if body.len() < 24 {
            return Err(ItemFault);
        }
        let flags = ExtentFlags(u64_at(body, 16));
        let first = first_place(kind, flags);
        if !flags_fit(kind, flags) || body.len() < first {
            return Err(ItemFault);
        }
        Ok(ExtentItem {
            refs: u64_at(body, 0),
            generation: u64_at(body, 8),
            flags: flags.0,
            level: level_of(first, body),
            first,
        })
    }

    /// The extent's flags.
    pub fn flags(&self) -> ExtentFlags
        ensures { result.0 ≡ self.now.flags }
    {
        ExtentFlags(self.flags)
    }

    /// The first key of the tree block of an EXTENT_ITEM, in the body that it was read from; a METADATA_ITEM has none.
    pub fn block_key(&self, body: &[u8]) -> Option<Key>
        requires { self.now.first ≤ length body.now }
        ensures { result ≡ block_key self.now.first body.now }
    {
        if self.first == 42 {
            Some(key_at(body, 24))
        } else {
            None
        }
    }
}

// Whether it is either data or a tree block, the latter where the type says so.
fn flags_fit(kind: u8, flags: ExtentFlags) -> bool
    ensures { result ≡ spec.flags_fit kind flags.0 }
{
    let is_data = flags.intersects(ExtentFlags::DATA);
    if flags.intersects(ExtentFlags::TREE_BLOCK) {
        !is_data && (kind == item::EXTENT_ITEM || kind == item::METADATA_ITEM)
    } else {
        is_data && kind == item::EXTENT_ITEM
    }
}

// Where the inline references begin: an EXTENT_ITEM of a tree block has the block's first key, of 17 bytes,
// and its level in front of them.
fn first_place(kind: u8, flags: ExtentFlags) -> usize
    ensures { result ≡ spec.first_place kind flags.0 }
{
    if kind == item::EXTENT_ITEM && flags.intersects(ExtentFlags::TREE_BLOCK) {
        42
    } else {
        24
    }
}

fn level_of(first: usize, body: &[u8]) -> Option<u8>
    requires { first ≤ length body.now }
    ensures { result ≡ spec.level_of first body.now }
{
    if first == 42 { Some(body[41]) } else { None }
}
