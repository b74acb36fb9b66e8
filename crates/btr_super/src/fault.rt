/// Why bytes are no superblock: the first reason of these.
#[derive(Clone, Copy, Debug, PartialEq, Eq)]
pub enum SuperFault {
    /// The bytes at 40h aren't `_BHRfS_M`.
    Magic,
    /// The field bytenr isn't the place where the copy stands.
    Place,
    /// The checksum type, which isn't 0, 1 or 2.
    SumKind(u16),
    /// The stored checksum isn't that of the bytes from 32 on.
    Sum,
}

/// Why an open image has no superblock.
#[derive(Clone, Copy, Debug, PartialEq, Eq)]
pub enum SlotFault {
    /// A read failed.
    Failed,
    /// No copy is valid, and this is the checksum type of the first copy whose type isn't supported.
    SumKind(u16),
    /// No copy is valid.
    NoSuper,
}
