/// Where the bytes of a file's extent stand.
#[derive(Clone, Copy, Debug, PartialEq, Eq)]
pub enum Shape {
    /// In the item itself, from byte 21 of its body on.
    Inline {
        /// How many bytes the item has of the extent.
        len: u64,
    },
    /// In an extent on the disk, or nowhere: a hole, which reads as zeros, has the address 0.
    Regular {
        /// The logical address of the extent on the disk.
        addr: u64,
        /// How many bytes that extent has.
        disk_len: u64,
        /// Where in that extent, decompressed, the file's bytes begin.
        skip: u64,
        /// How many bytes the file has of it.
        len: u64,
    },
    /// In an extent on the disk that is kept for the file and not written: it reads as zeros.
    Prealloc {
        /// The logical address of the extent on the disk.
        addr: u64,
        /// How many bytes that extent has.
        disk_len: u64,
        /// Where in that extent the file's bytes begin.
        skip: u64,
        /// How many bytes the file has of it.
        len: u64,
    },
}
