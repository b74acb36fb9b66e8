/// What came of a full stripe (`docs/FORMAT.md`, "Full stripes").
#[derive(Clone, Copy, Debug, PartialEq, Eq)]
pub struct MendedRow {
    /// How many checked blocks it has.
    pub blocks: u64,
    /// How many of them don't pass at their own place, or are sectors without a checksum that are stale there.
    pub bad: u64,
    /// How many of those were written.
    pub repaired: u64,
    /// Of how many checked blocks no candidate passes.
    pub lost: u64,
    /// How many sectors of P and Q differ from those of the data.
    pub parity: u64,
}
