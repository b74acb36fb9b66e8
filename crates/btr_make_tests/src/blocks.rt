// The tree blocks of a volume, as they stand in an image.
use btr_base::{Header, SumKind, is_summed};
use btr_items::{Inode, item, item_fits};
use btr_node::{Leaf, Node};
use btr_rack::MemRack;
use std::alloc::Global;
use std::process::Abort;
use std::test::Fail;

const PAGE_SIZE: u64 = 4096;

/// A range of blocks of 16384 bytes whose logical addresses are their places in the image.
#[derive(Clone, Copy)]
pub(super) struct Range {
    pub(super) start: u64,
    pub(super) blocks: u64,
}

/// What there is in some blocks: how many are used, the greatest level, and of tree 5 the directories, the files and their bytes.
#[derive(Clone, Copy, Debug, PartialEq, Eq)]
pub(super) struct Tally {
    pub(super) blocks: u64,
    pub(super) level: u8,
    pub(super) dirs: u64,
    pub(super) files: u64,
    pub(super) bytes: u64,
}

impl Tally {
    pub(super) const NONE: Tally = Tally {
        blocks: 0,
        level: 0,
        dirs: 0,
        files: 0,
        bytes: 0,
    };

    fn add_inode(&mut self, body: &[u8]) {
        let Ok(inode) = Inode::read(body) else {
            return;
        };
        if inode.mode & 0o170000 == 0o040000 {
            self.dirs = self.dirs.wrapping_add(1);
        } else {
            self.files = self.files.wrapping_add(1);
            self.bytes = self.bytes.wrapping_add(inode.size);
        }
    }
}

/// The block at an address, or nothing where no byte was written.
pub(super) fn block_at(
    alloc: Global,
    rack: &MemRack,
    name: &str,
    addr: u64,
) -> Result<Vec<u8>, Fail> {
    let mut block = Vec::new(alloc);
    let first = addr / PAGE_SIZE;
    for i in 0..4 {
        let Some(page) = rack.page(name, first.wrapping_add(i)) else {
            break;
        };
        block.extend_from_slice(page)?;
    }
    Ok(block)
}

// The items of a leaf have their forms.
fn look_into(rt: &impl Abort, kind: SumKind, header: &Header, leaf: &Leaf<'_>, tally: &mut Tally) {
    for found in leaf.items_from(0) {
        assert!(rt; item_fits(kind, found.key, found.body));
        if header.owner == 5 && found.key.kind == item::INODE_ITEM {
            tally.add_inode(found.body);
        }
    }
}

// A block keeps the rules of one block, and says where it stands.
fn look_at(
    rt: &impl Abort,
    kind: SumKind,
    addr: u64,
    block: &[u8],
    tally: &mut Tally,
) -> Result<(), Fail> {
    if block.len() != 16384 {
        return Err("a part of a block")?;
    }
    let header = Header::read(kind, block);
    assert!(rt; is_summed(kind, block));
    assert_eq!(rt; (header.addr, header.generation), (addr, 7));
    tally.blocks = tally.blocks.wrapping_add(1);
    tally.level = tally.level.max(header.level);
    match Node::view(block) {
        Ok(Node::Leaf(leaf)) => look_into(rt, kind, &header, &leaf, tally),
        Ok(Node::Inner(_)) => {}
        Err(_) => return Err("no node")?,
    }
    Ok(())
}

/// Looks at each block of a range of image `a` that was written.
pub(super) fn look_through(
    rt: &impl Abort,
    alloc: Global,
    rack: &MemRack,
    kind: SumKind,
    range: Range,
    tally: &mut Tally,
) -> Result<(), Fail> {
    for i in 0..range.blocks {
        let addr = range.start.wrapping_add(i.wrapping_mul(16384));
        let block = block_at(alloc, rack, "a", addr)?;
        if block.len() > 0 {
            look_at(rt, kind, addr, block.as_slice(), tally)?;
        }
    }
    Ok(())
}
