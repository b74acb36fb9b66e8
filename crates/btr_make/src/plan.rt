use btr_base::SumKind;

/// What a volume is made of, but for its files.
#[derive(Clone, Copy)]
pub(crate) struct Plan {
    /// The kind of all checksums.
    pub(crate) sums: SumKind,
    /// The feature bits of the superblock.
    pub(crate) incompat: u64,
    pub(crate) compat_ro: u64,
    /// How many images there are: device 1 is `a`, device 2 is `b` and so on.
    pub(crate) images: u64,
    /// How many bytes each image has.
    pub(crate) image_len: u64,
    /// Where the copies of the superblock stand in each image.
    pub(crate) supers: &'static [u64],
    /// The chunks of system blocks, of metadata and of data.
    pub(crate) system: ChunkPlan,
    pub(crate) metadata: ChunkPlan,
    pub(crate) data: ChunkPlan,
    /// How many bytes of the metadata each tree has to itself.
    pub(crate) room: u64,
    /// At most so many pointers stand in a node.
    pub(crate) pointers: usize,
    /// At most so many items stand in a leaf of a tree of files.
    pub(crate) items: usize,
}

/// A chunk, whose stripes have the id of a device and an offset on it each.
#[derive(Clone, Copy)]
pub(crate) struct ChunkPlan {
    pub(crate) start: u64,
    pub(crate) length: u64,
    pub(crate) kind: u64,
    pub(crate) stripes: &'static [(u64, u64)],
}

/// The parts of a chunk's type.
pub(crate) const DATA: u64 = 1;

pub(crate) const SYSTEM: u64 = 2;

pub(crate) const METADATA: u64 = 4;

pub(crate) const RAID1: u64 = 0x10;

pub(crate) const DUP: u64 = 0x20;

pub(crate) const RAID5: u64 = 0x80;

pub(crate) const RAID6: u64 = 0x100;

pub(crate) const RAID1C3: u64 = 0x200;

/// How many bytes a tree block has.
pub(crate) const NODE: u64 = 16384;

/// The transaction that wrote everything.
pub(crate) const GENERATION: u64 = 7;

/// The id of each filesystem.
pub(crate) const FSID: [u8; 16] = [0x11; 16];

/// The id of each chunk tree.
pub(crate) const CHUNK_TREE_UUID: [u8; 16] = [0x33; 16];

/// The name of a device's image.
pub(crate) fn image_name(devid: u64) -> &'static str {
    match devid {
        1 => "a",
        2 => "b",
        3 => "c",
        4 => "d",
        _ => "e",
    }
}

/// The id of a device itself: its number 16 times.
pub(crate) fn device_uuid(devid: u64) -> [u8; 16] {
    [(devid & 255) as u8; 16]
}
