/// A device, as its item states it.
#[derive(Clone, Copy, Debug, PartialEq, Eq)]
pub struct StatedDevice {
    /// The device's id, by the key of its item.
    pub devid: u64,
    /// How many of its bytes it states to be in device extents.
    pub used: u64,
}
