/// What an extent is used as.
#[derive(Clone, Copy, Debug, PartialEq, Eq)]
pub enum Used {
    /// A tree block of a level.
    TreeBlock(u8),
    /// Data that is, as its file says, an extent of so many bytes.
    Data(u64),
}
