/// A block group, as its item states it.
#[derive(Clone, Copy, Debug, PartialEq, Eq)]
pub struct Group {
    /// Its first logical address.
    pub start: u64,
    /// How many bytes it has.
    pub len: u64,
    /// How many of them it states to lie in extents.
    pub used: u64,
    /// Its type and profile, as its chunk has them.
    pub flags: u64,
}
