ghost use Rattle.std.specs.Prelude.{◌≡◌, ◌≤◌, length};
ghost use Rattle.btr_items.specs.InlineRef as spec;

use crate::reference::{count_at, data_size, link_at, offset_size};
use crate::{ItemFault, Link, Part, Parts};
use btr_base::u64_at;

/// A reference to an extent in the extent's own item: its type, then its offset, unless it is of a file, and
/// then its data.
#[derive(Clone, Copy, Debug, PartialEq, Eq)]
pub struct InlineRef {
    /// What refers to the extent.
    pub link: Link,
    /// How often it does; 1 for a tree block.
    pub count: u32,
    /// Where the reference ends in the body.
    pub end: usize,
}

impl InlineRef {
    ghost use Rattle.std.specs.Prelude.{◌≡◌, ◌≤◌, length};
    ghost use Rattle.btr_items.specs.InlineRef.{inline_ref_at};

    /// Reads the reference that begins at `at`; `ItemFault` exactly where the byte there is no type of a reference, or the
    /// offset and the data of that type don't all stand in the body.
    pub fn read(body: &[u8], at: usize) -> Result<InlineRef, ItemFault>
        requires { at ≤ length body.now }
        ensures { result ≡ inline_ref_at at body.now }
    {
        if at == body.len() {
            return Err(ItemFault);
        }
        let kind = body[at];
        let Some(size) = data_size(kind) else {
            return Err(ItemFault);
        };
        let data_at = at + 1 + offset_size(kind);
        let end = data_at + size;
        if end > body.len() {
            return Err(ItemFault);
        }
        // A file's reference has no offset, and its link doesn't look at these 8 bytes of its data.
        let offset = u64_at(body, at + 1);
        Ok(InlineRef {
            link: link_at(kind, offset, body, data_at),
            count: count_at(kind, body, data_at),
            end,
        })
    }
}

impl Part for InlineRef {
    ghost use Rattle.btr_items.specs.InlineRef.{inline_ref_at};
    ghost use Rattle.btr_items.specs.Ends.{inline_ref_ends};

    ghost part_at = { inline_ref_at };

    ghost end_of = { λ part. part.end };

    ghost ends_within = { inline_ref_ends };

    fn read_at(body: &[u8], at: usize) -> Result<InlineRef, ItemFault> {
        InlineRef::read(body, at)
    }

    fn end(&self) -> usize {
        self.end
    }
}

/// The inline references of an EXTENT_ITEM or a METADATA_ITEM, whose first begins at `first`.
pub fn inline_refs(body: &[u8], first: usize) -> Parts<'_, InlineRef>
    requires { first ≤ length body.now }
    ensures { result ≡ spec.inline_refs_of first body.now }
{
    Parts::new(body, first)
}
