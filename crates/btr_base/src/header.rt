use crate::field::{array_at, u32_at, u64_at};
use crate::{Sum, SumKind};

/// The header of a tree block.
#[derive(Clone, Copy, Debug, PartialEq, Eq)]
pub struct Header {
    /// The stored checksum of the bytes from 32 to the block's end.
    pub sum: Sum,
    /// The filesystem's id.
    pub fsid: [u8; 16],
    /// The block's own logical address.
    pub addr: u64,
    /// The transaction that wrote the block.
    pub generation: u64,
    /// The id of the tree that the block was written for.
    pub owner: u64,
    /// How many items or pointers the block has.
    pub items: u32,
    /// 0 for a leaf.
    pub level: u8,
}

impl Header {
    ghost use Rattle.std.specs.Prelude.{◌≡◌, ◌≤◌, length};
    ghost use Rattle.btr_base.specs.Header.{header_of};

    /// The header in the first 101 bytes of a block, where checksums are of this kind.
    pub fn read(kind: SumKind, bytes: &[u8]) -> Header
        requires { 101 ≤ length bytes.now }
        ensures { result ≡ header_of kind bytes.now }
    {
        Header {
            sum: Sum::read(kind, bytes),
            fsid: array_at(bytes, 0x20),
            addr: u64_at(bytes, 0x30),
            generation: u64_at(bytes, 0x50),
            owner: u64_at(bytes, 0x58),
            items: u32_at(bytes, 0x60),
            level: bytes[0x64],
        }
    }
}
