use btr_base::Header;
use btr_walk::{LeafAt, RootPlace, TreeFault};

/// What a step met.
#[derive(Clone, Copy)]
pub(crate) enum Step {
    /// A good block.
    Block { place: RootPlace, header: Header },
    /// A pointer of a node.
    Child { block: u64, place: RootPlace },
    /// The item at this place of the leaf in hand.
    Item(usize),
    /// A block that is left out.
    Fault(TreeFault),
    /// Nothing: all was met.
    End,
}

/// What a step came to, and the leaf in hand behind it.
pub(crate) struct Advanced {
    pub(crate) leaf: Option<LeafAt>,
    pub(crate) step: Result<Step, TreeFault>,
}
