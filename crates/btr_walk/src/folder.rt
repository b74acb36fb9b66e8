// What callers make of the items of a range.
ghost use Rattle.std.specs.Prelude.{◌≡◌};
ghost use Rattle.btr_walk.specs.Folds.{Next, TakesItem};
ghost use Rattle.btr_walk.specs.Le.{TreeItem};
ghost use Rattle.btr_walk.specs.Showing.{item_of};

use crate::{Found, TreeFault};

/// What comes of an item.
#[derive(Clone, Copy, Debug, PartialEq, Eq)]
pub enum Took<Out> {
    /// The next item is to come.
    Go,
    /// No further item is needed: this is the answer.
    End(Out),
    /// The item breaks its form, so its leaf is malformed.
    Broken,
}

/// Why a fold has no answer.
#[derive(Clone, Copy, Debug, PartialEq, Eq)]
pub enum FoldFault<E> {
    /// The tree can't be read on, or an item breaks its form: then it is `Malformed` of the item's leaf.
    Tree(TreeFault),
    /// The folder's own refusal, as want of memory.
    Own(E),
}

/// What is made of the items of a range, one after another, where no other block is read for it. The value is the state.
pub trait Folder<Out, E> {
    // what an item makes of a state: the next state, the answer, or that the item breaks its form
    ghost step: { Self → TreeItem → Next Self Out };

    // the answer where no item is left
    ghost answer: { Self → Out };

    /// Treats the next item. After a refusal of its own nothing is said of the state.
    fn take(&mut self, item: &Found<'_>) -> Result<Took<Out>, E>
        ensures { TakesItem step self.old (item_of item.now) self.new result };

    /// The answer where no item is left.
    fn end(self) -> Out
        ensures { result ≡ answer self };
}
