/// What came of a block.
#[derive(Clone, Copy, Debug, PartialEq, Eq)]
pub struct Mended {
    /// How many of its copies are bad: they don't pass, or aren't the bytes of the first that does, or are stale.
    pub bad: u32,
    /// How many of those were written.
    pub repaired: u32,
    /// Whether no copy passes.
    pub lost: bool,
}

/// Why the mending of a block was stopped.
#[derive(Clone, Copy, Debug, PartialEq, Eq)]
pub enum MendFault {
    /// A read or a write of the image in this slot failed.
    Image(usize),
    /// A write wanted memory.
    Memory,
}
