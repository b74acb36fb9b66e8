use btr_base::Header;
use btr_walk::{Found, RootPlace, TreeFault};

/// What a tour meets.
#[derive(Clone, Copy, Debug)]
pub enum Met<'e> {
    /// A good block: where it stands, and its header.
    Block { place: RootPlace, header: Header },
    /// A pointer of the node at the address `block`: where its child stands, which is met next.
    Child { block: u64, place: RootPlace },
    /// An item of the leaf that was met last.
    Item(Found<'e>),
    /// Why a block is left out, with all that is below it. It is never `Unread`.
    Fault(TreeFault),
}
