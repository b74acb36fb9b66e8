/// Which of the stripes that belong to a position is meant.
#[derive(Clone, Copy, Debug, PartialEq, Eq)]
pub enum Part {
    /// A copy, counted from 0; `Chunk::mirrors` says how many there are.
    Mirror(u32),
    /// A data slice of the row, in RAID5 and RAID6.
    Slice(u32),
    /// The parity of the row, in RAID5 and RAID6.
    P,
    /// The second parity of the row, in RAID6.
    Q,
}

/// A byte of a device. Places are ordered by their devices, then by their offsets.
#[derive(Clone, Copy, Debug, PartialEq, Eq, PartialOrd, Ord)]
pub struct StripePlace {
    /// The id of the device.
    pub devid: u64,
    /// The byte's offset on the device.
    pub offset: u64,
}
