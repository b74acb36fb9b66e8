use crate::{Body, Form};
use btr_base::{Key, sum};
use std::alloc::{AllocError, Global};

/// How many bytes the header of a block has.
pub(crate) const HEADER: usize = 101;

/// The key that stands for none.
pub(crate) const NO_KEY: Key = Key {
    objectid: 0,
    kind: 0,
    offset: 0,
};

// The flag of a block that was written, and the revision of references, 1, in the last byte of the flags.
const WRITTEN: u64 = 0x0100_0000_0000_0001;

/// A tree block.
#[derive(Debug, Drop)]
pub struct Block {
    /// Its logical address.
    pub addr: u64,
    /// 0 for a leaf, else 1 to 7.
    pub level: u8,
    /// The key of its first item or pointer, or zeros where it has none.
    pub first: Key,
    /// Its bytes, as many as a node has.
    pub bytes: Body,
}

/// Where a block stands, as a pointer to it says.
#[derive(Clone, Copy, Debug, PartialEq, Eq)]
pub struct Child {
    /// Its logical address.
    pub addr: u64,
    /// 0 for a leaf, else 1 to 7.
    pub level: u8,
    /// The key of its first item or pointer.
    pub first: Key,
}

// How many bytes of a block come before the number of its items, which its level and what it holds follow.
const BEFORE_COUNT: usize = 96;

impl Block {
    /// Where it stands.
    pub(crate) fn place(&self) -> Child {
        Child {
            addr: self.addr,
            level: self.level,
            first: self.first,
        }
    }

    /// Whether another block holds the same at the same level.
    pub(crate) fn says_same(&self, other: &Block) -> bool {
        self.content() == other.content()
    }

    fn content(&self) -> &[u8] {
        self.bytes.as_slice().get(BEFORE_COUNT..).unwrap_or(&[])
    }
}

/// What the header says of a block, beside the form of its tree.
#[derive(Clone, Copy)]
pub(crate) struct Heading {
    pub(crate) addr: u64,
    pub(crate) level: u8,
    pub(crate) first: Key,
    pub(crate) count: usize,
}

/// A block, of what stands behind its header.
pub(crate) fn headed(
    alloc: Global,
    form: &Form,
    heading: Heading,
    content: &Body,
) -> Result<Block, AllocError> {
    let body = Body::new(alloc)
        .bytes(&form.fsid)?
        .u64(heading.addr)?
        .u64(WRITTEN)?
        .bytes(&form.chunk_tree_uuid)?
        .u64(form.generation)?
        .u64(form.owner)?
        .low_u32(heading.count)?
        .u8(heading.level)?
        .bytes(content.as_slice())?;
    let sum = sum(form.sums, body.as_slice());
    let bytes = Body::new(alloc).bytes(&sum.bytes)?.bytes(body.as_slice())?;
    Ok(Block {
        addr: heading.addr,
        level: heading.level,
        first: heading.first,
        bytes,
    })
}
