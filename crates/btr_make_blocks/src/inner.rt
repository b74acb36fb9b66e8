ghost use Rattle.std.specs.Prelude.{◌≤◌};

use crate::block::{Child, HEADER, Heading, NO_KEY, headed};
use crate::{Block, Body, Form};
use std::alloc::{AllocError, Global};

// How many bytes a pointer has.
const POINTER: usize = 33;

/// How many pointers stand in a node at most.
pub(crate) fn most_pointers(form: &Form) -> usize
    ensures { 2 ≤ result }
{
    let room = form.nodesize.saturating_sub(HEADER) / POINTER;
    form.pointers.min(room).max(2)
}

/// The node that points to these blocks.
pub(crate) fn node(
    alloc: Global,
    form: &Form,
    addr: u64,
    level: u8,
    children: &[Child],
) -> Result<Block, AllocError> {
    let mut content = Body::new(alloc);
    for child in children {
        content = content
            .key(child.first)?
            .u64(child.addr)?
            .u64(form.generation)?;
    }
    let room = form.nodesize.saturating_sub(HEADER);
    let gap = room.saturating_sub(content.len());
    let heading = Heading {
        addr,
        level,
        first: children.first().map_or(NO_KEY, |child| child.first),
        count: children.len(),
    };
    headed(alloc, form, heading, &content.zeros(gap)?)
}
