/// A block of a tree.
#[derive(Clone, Copy, Debug)]
pub struct FoundBlock<'e> {
    /// Its logical address.
    pub addr: u64,
    /// Its level, 0 for a leaf.
    pub level: u8,
    /// Its bytes, which stand in its slot.
    pub bytes: &'e [u8],
}
