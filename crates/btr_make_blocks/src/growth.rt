use crate::block::Child;
use crate::inner::{most_pointers, node};
use crate::leaf::{count_fitting, leaf};
use crate::{Block, Form, GrowFault, Item, Tree};
use std::alloc::{AllocError, Global};

// The highest level of a root.
const MAX_LEVEL: u8 = 7;

/// A tree that grows, level by level.
#[derive(Drop)]
pub(crate) struct Growth<'a> {
    alloc: Global,
    form: &'a Form,
    // The address of its next block.
    next: u64,
    // The blocks of a tree with which it shares those that say the same.
    others: &'a [Block],
    tree: Tree,
}

impl<'a> Growth<'a> {
    /// Nothing has grown yet.
    pub(crate) fn new(alloc: Global, form: &'a Form, addr: u64, others: &'a [Block]) -> Growth<'a> {
        Growth {
            alloc,
            form,
            next: addr,
            others,
            tree: Tree {
                blocks: Vec::new(alloc),
                shared: Vec::new(alloc),
            },
        }
    }

    /// The tree of these items.
    pub(crate) fn grow(mut self, items: &[Item]) -> Result<Tree, GrowFault> {
        let mut top = self.leaves(items)?;
        for level in 1..=MAX_LEVEL {
            if top.len() <= 1 {
                break;
            }
            top = self.nodes(level, top.as_slice())?;
        }
        if top.len() > 1 {
            return Err(GrowFault::Tall);
        }
        Ok(self.tree)
    }

    fn leaves(&mut self, items: &[Item]) -> Result<Vec<Child>, GrowFault> {
        let mut children = Vec::new(self.alloc);
        if items.is_empty() {
            let root = leaf(self.alloc, self.form, self.next, items)?;
            children.push(self.put_own(root)?)?;
        }
        let mut rest = items;
        while let Some(item) = rest.first() {
            let count = count_fitting(self.form, rest);
            if count == 0 {
                return Err(GrowFault::Long(item.key));
            }
            let (front, back) = rest.split_at(count);
            let block = leaf(self.alloc, self.form, self.next, front)?;
            children.push(self.put(block, count == items.len())?)?;
            rest = back;
        }
        Ok(children)
    }

    fn nodes(&mut self, level: u8, below: &[Child]) -> Result<Vec<Child>, AllocError> {
        let mut nodes = Vec::new(self.alloc);
        let most = most_pointers(self.form);
        for children in below.chunks(most) {
            let block = node(self.alloc, self.form, self.next, level, children)?;
            let placed = self.put(block, below.len() <= most)?;
            self.keep_shared(placed, children)?;
            nodes.push(placed)?;
        }
        Ok(nodes)
    }

    // Puts a block, unless another tree has one that says the same and it is no root.
    fn put(&mut self, block: Block, is_root: bool) -> Result<Child, AllocError> {
        match self.others.iter().find(|other| other.says_same(&block)) {
            Some(other) if !is_root => Ok(other.place()),
            _ => self.put_own(block),
        }
    }

    fn put_own(&mut self, block: Block) -> Result<Child, AllocError> {
        let place = block.place();
        self.next = self.next.wrapping_add(self.form.nodesize as u64);
        self.tree.blocks.push(block)?;
        Ok(place)
    }

    // Keeps which blocks of another tree an own node points to.
    fn keep_shared(&mut self, node: Child, children: &[Child]) -> Result<(), AllocError> {
        if self.is_shared(&node) {
            return Ok(());
        }
        for child in children {
            if self.is_shared(child) {
                self.tree.shared.push(*child)?;
            }
        }
        Ok(())
    }

    fn is_shared(&self, place: &Child) -> bool {
        self.others.iter().any(|other| other.addr == place.addr)
    }
}
