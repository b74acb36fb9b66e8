use crate::Leaf;
use btr_base::Key;
use std::marker::Model;

/// An item of a leaf.
#[derive(Clone, Copy, Debug, PartialEq, Eq)]
pub struct LeafItem<'a> {
    pub key: Key,
    /// Where its bytes begin, counted from the header's end.
    pub offset: u32,
    /// Its bytes, which are a part of the block.
    pub body: &'a [u8],
}

/// The items of a leaf from a place on, which contracts see as their list.
#[derive(Drop)]
pub struct Items<'a> {
    block: &'a [u8],
    next: usize,
}

impl<'a> Model for Items<'a> {
    ghost use Rattle.std.specs.Prelude.{List, drop};
    ghost use Rattle.btr_node.specs.Block.{Item, items, StandsIn};

    ghost Value = { List Item };

    ghost view = { λ left. drop left.next (items left.block.now) };

    ghost invariant = { λ left. StandsIn left.block.now left.next };
}

impl<'a> Items<'a> {
    ghost use Rattle.std.specs.Prelude.{◌≡◌, ◌≤◌, length, drop, IsTrue};
    ghost use Rattle.btr_node.specs.Block.{items, is_leaf};

    // The items of a good leaf from a place on.
    pub(crate) fn from_place(block: &'a [u8], next: usize) -> Items<'a>
        requires header { 101 ≤ length block.now }
        requires good { IsTrue (is_leaf block.now) }
        requires place { next ≤ length (items block.now) }
        ensures { result ≡ drop next (items block.now) }
    {
        Items { block, next }
    }
}

impl<'a> Iterator for Items<'a> {
    ghost use Rattle.std.specs.Iterator.{YieldsFirstBy, item_count};
    ghost use Rattle.btr_node.specs.LeafItem.{item_of};

    type Item = LeafItem<'a>;

    ghost next_gives = { YieldsFirstBy item_of (λ left. left) };

    ghost remaining = { item_count (λ left. left) };

    fn next(&mut self) -> Option<LeafItem<'a>> {
        let leaf = Leaf::of(self.block);
        if self.next == leaf.count() {
            return None;
        }
        let item = leaf.item(self.next);
        self.next += 1;
        Some(item)
    }
}
