/// A piece of a file's bytes; it isn't empty.
#[derive(Clone, Copy, Debug)]
pub enum Piece<'e> {
    /// So many zeros: a hole, a preallocated extent, or positions that no extent covers.
    Gap(u64),
    /// Bytes of one sector or of one inline extent.
    Bytes {
        bytes: &'e [u8],
        /// A checksum covers them: the sector's own, or that of the leaf that an inline extent stands in.
        verified: bool,
        /// Their CRC-32C, where they are a whole sector that was read by a checksum of that kind.
        crc: Option<u32>,
    },
}
