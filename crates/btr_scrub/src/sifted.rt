// What is kept of some blocks.
use crate::listed::Listed;
use crate::rowed::RowRoom;

/// What is kept of some blocks, and how many others there are.
#[derive(Drop)]
pub(crate) struct Sifted {
    /// The blocks for which something may have to be written.
    pub kept: Listed,
    /// How many other checked blocks there are, which are sound.
    pub sound: u64,
    /// How many bytes a tree block has.
    pub nodesize: u32,
    /// Memory for the full stripes.
    pub room: RowRoom,
}
