/// Why a block can't be read.
#[derive(Clone, Copy, Debug, PartialEq, Eq)]
pub enum ReadFault {
    /// No candidate of the block at this address passes, and no read failed.
    Lost(u64),
    /// Of the block at this address no candidate that could be read passes. The last read that failed was of this slot.
    Unread(u64, usize),
    /// No chunk holds the address.
    Unmapped(u64),
    /// The block at this address passes the end of its chunk or, in a profile with rows, of an element.
    Crosses(u64),
}
