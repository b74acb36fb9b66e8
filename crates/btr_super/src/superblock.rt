use crate::{CompatRo, Incompat, SuperFault};
use btr_base::{SumKind, array_at, is_summed, u16_at, u32_at, u64_at};

/// The fields of a superblock. Addresses and sizes are in bytes.
#[derive(Clone, Copy, Debug, PartialEq, Eq)]
pub struct Super {
    /// The id of the filesystem.
    pub fsid: [u8; 16],
    /// The field bytenr: where in its image the copy stands.
    pub place: u64,
    /// Flags of the volume, among them that this copy was written (1).
    pub flags: u64,
    /// The transaction that wrote the copy.
    pub generation: u64,
    /// The logical address of the root tree's root block.
    pub root: u64,
    /// The logical address of the chunk tree's root block.
    pub chunk_root: u64,
    /// The logical address of a pending log tree's root block, or 0.
    pub log_root: u64,
    /// The size of all devices together.
    pub total_bytes: u64,
    /// How many of these bytes are in use.
    pub bytes_used: u64,
    /// The objectid of the root tree's directory.
    pub root_dir: u64,
    /// How many devices the filesystem has.
    pub num_devices: u64,
    /// The size of a sector.
    pub sectorsize: u32,
    /// The size of a tree block.
    pub nodesize: u32,
    /// The same as `nodesize`, in filesystems of today.
    pub leafsize: u32,
    /// A size that nothing is laid out by.
    pub stripesize: u32,
    /// How many bytes of `array` are in use.
    pub sys_chunk_array_size: u32,
    /// The transaction that wrote the chunk tree's root block.
    pub chunk_root_generation: u64,
    /// Features that nobody has to know; no bit has a name.
    pub compat: u64,
    /// The features [`CompatRo`], of which none refuses a reader.
    pub compat_ro: u64,
    /// The features [`Incompat`].
    pub incompat: u64,
    /// 0 is CRC-32C, 1 xxhash64, 2 SHA-256.
    pub csum_type: u16,
    /// The level of the root tree's root block.
    pub root_level: u8,
    /// The level of the chunk tree's root block.
    pub chunk_root_level: u8,
    /// The level of the log tree's root block.
    pub log_root_level: u8,
    /// The number of the device that this image holds.
    pub devid: u64,
    /// The id of that device.
    pub dev_uuid: [u8; 16],
    /// A text that ends before its first zero byte.
    pub label: [u8; 256],
    /// The transaction of the free space cache.
    pub cache_generation: u64,
    /// The transaction of the tree of subvolumes' ids.
    pub uuid_tree_generation: u64,
    /// The id in the headers of tree blocks, where [`Incompat::METADATA_UUID`] is set.
    pub metadata_uuid: [u8; 16],
    /// Bytes that nothing is read from.
    pub reserved: [u8; 224],
    /// The chunks that hold the chunk tree itself, as keys and items back to back.
    pub array: [u8; 2048],
    /// The roots of the last four transactions, to the copy's end.
    pub backups: [u8; 1237],
}

const MAGIC: [u8; 8] = *b"_BHRfS_M";

impl Super {
    ghost use Rattle.std.specs.Prelude.{◌≡◌, length};
    ghost use Rattle.btr_super.specs.Super.{super_of, superblock};

    /// The superblock in the 4096 bytes that stand at a place of an image, or the first reason why
    /// there is none.
    pub fn read(bytes: &[u8], place: u64) -> Result<Super, SuperFault>
        requires { length bytes.now ≡ 4096 }
        ensures { result ≡ superblock bytes.now place }
    {
        if bytes[0x40..0x48] != MAGIC[..] {
            return Err(SuperFault::Magic);
        }
        if u64_at(bytes, 0x30) != place {
            return Err(SuperFault::Place);
        }
        let csum_type = u16_at(bytes, 0xc4);
        match SumKind::from_type(csum_type) {
            None => Err(SuperFault::SumKind(csum_type)),
            Some(kind) if is_summed(kind, bytes) => Ok(Super::fields(bytes)),
            Some(_) => Err(SuperFault::Sum),
        }
    }

    /// The features that only a writer has to know.
    pub fn compat_ro(&self) -> CompatRo
        ensures { result.0 ≡ self.now.compat_ro }
    {
        CompatRo(self.compat_ro)
    }

    /// The features that a reader has to know.
    pub fn incompat(&self) -> Incompat
        ensures { result.0 ≡ self.now.incompat }
    {
        Incompat(self.incompat)
    }

    fn fields(bytes: &[u8]) -> Super
        requires { length bytes.now ≡ 4096 }
        ensures { result ≡ super_of bytes.now }
    {
        Super {
            fsid: array_at(bytes, 0x20),
            place: u64_at(bytes, 0x30),
            flags: u64_at(bytes, 0x38),
            generation: u64_at(bytes, 0x48),
            root: u64_at(bytes, 0x50),
            chunk_root: u64_at(bytes, 0x58),
            log_root: u64_at(bytes, 0x60),
            total_bytes: u64_at(bytes, 0x70),
            bytes_used: u64_at(bytes, 0x78),
            root_dir: u64_at(bytes, 0x80),
            num_devices: u64_at(bytes, 0x88),
            sectorsize: u32_at(bytes, 0x90),
            nodesize: u32_at(bytes, 0x94),
            leafsize: u32_at(bytes, 0x98),
            stripesize: u32_at(bytes, 0x9c),
            sys_chunk_array_size: u32_at(bytes, 0xa0),
            chunk_root_generation: u64_at(bytes, 0xa4),
            compat: u64_at(bytes, 0xac),
            compat_ro: u64_at(bytes, 0xb4),
            incompat: u64_at(bytes, 0xbc),
            csum_type: u16_at(bytes, 0xc4),
            root_level: bytes[0xc6],
            chunk_root_level: bytes[0xc7],
            log_root_level: bytes[0xc8],
            devid: u64_at(bytes, 0xc9),
            dev_uuid: array_at(bytes, 0x10b),
            label: array_at(bytes, 0x12b),
            cache_generation: u64_at(bytes, 0x22b),
            uuid_tree_generation: u64_at(bytes, 0x233),
            metadata_uuid: array_at(bytes, 0x23b),
            reserved: array_at(bytes, 0x24b),
            array: array_at(bytes, 0x32b),
            backups: array_at(bytes, 0xb2b),
        }
    }
}
