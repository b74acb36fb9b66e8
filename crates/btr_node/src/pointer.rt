/// Where a child stands.
#[derive(Clone, Copy, Debug, PartialEq, Eq)]
pub struct Pointer {
    /// The child's logical address.
    pub addr: u64,
    /// The transaction that wrote the child.
    pub generation: u64,
}
