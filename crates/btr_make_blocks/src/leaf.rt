ghost use Rattle.std.specs.Prelude.{◌≤◌, length};

use crate::block::{HEADER, Heading, NO_KEY, headed};
use crate::{Block, Body, Form, Item};
use std::alloc::{AllocError, Global};

// How many bytes the entry of an item in the table has.
const ENTRY: usize = 25;

/// How many of the items, from the first on, stand in a leaf.
pub(crate) fn count_fitting(form: &Form, items: &[Item]) -> usize
    ensures { result ≤ length items.now }
{
    let mut room = form.nodesize.saturating_sub(HEADER);
    for (i, item) in items.iter().enumerate() {
        let size = item.body.len().saturating_add(ENTRY);
        if size > room || i >= form.items.max(1) {
            return i;
        }
        room -= size;
    }
    items.len()
}

/// The leaf of items that fit into it. The first item stands at the block's end, and each next one before it.
pub(crate) fn leaf(
    alloc: Global,
    form: &Form,
    addr: u64,
    items: &[Item],
) -> Result<Block, AllocError> {
    let mut table = Body::new(alloc);
    let mut offset = form.nodesize.saturating_sub(HEADER);
    for item in items {
        let size = item.body.len();
        offset = offset.saturating_sub(size);
        table = table.key(item.key)?.low_u32(offset)?.low_u32(size)?;
    }
    let gap = offset.saturating_sub(table.len());
    let mut content = table.zeros(gap)?;
    for item in items.iter().rev() {
        content = content.bytes(item.body.as_slice())?;
    }
    let heading = Heading {
        addr,
        level: 0,
        first: items.first().map_or(NO_KEY, |item| item.key),
        count: items.len(),
    };
    headed(alloc, form, heading, &content)
}
