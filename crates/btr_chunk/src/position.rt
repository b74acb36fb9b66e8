/// Where a byte lies in its chunk's stripes.
#[derive(Clone, Copy, Debug, PartialEq, Eq)]
pub struct Elements {
    /// The row, which is one element of each stripe; 0 where the profile has no rows.
    pub row: u64,
    /// Which of the row's elements of data it is; 0 where the profile has no rows.
    pub index: u32,
    /// The byte's place in its element or, where the profile has no rows, in the chunk.
    pub rest: u64,
}
