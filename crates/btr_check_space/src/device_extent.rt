/// A range of a device, and the chunk that it is given to.
#[derive(Clone, Copy, Debug, PartialEq, Eq, PartialOrd, Ord)]
pub struct DeviceExtent {
    /// The id of the device.
    pub devid: u64,
    /// The first byte on the device.
    pub offset: u64,
    /// The logical address of the chunk.
    pub chunk: u64,
    /// How many bytes there are.
    pub len: u64,
}
