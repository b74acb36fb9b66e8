use btr_base::SumKind;

/// What the blocks of a tree have in common.
#[derive(Clone, Copy, Debug)]
pub struct Form {
    /// The kind of checksum.
    pub sums: SumKind,
    /// The id of the filesystem.
    pub fsid: [u8; 16],
    /// The id of the chunk tree.
    pub chunk_tree_uuid: [u8; 16],
    /// How many bytes a block has.
    pub nodesize: usize,
    /// The transaction that wrote the blocks.
    pub generation: u64,
    /// The tree that the blocks belong to.
    pub owner: u64,
    /// At most so many items stand in a leaf. 0 is taken as 1.
    pub items: usize,
    /// At most so many pointers stand in a node. 0 and 1 are taken as 2.
    pub pointers: usize,
}

impl Form {
    /// The form of blocks of 16384 bytes with CRC-32C, of generation 7, that hold as much as they have room for.
    pub const DEFAULT: Form = Form {
        sums: SumKind::Crc32c,
        fsid: [0x11; 16],
        chunk_tree_uuid: [0x33; 16],
        nodesize: 16384,
        generation: 7,
        owner: 5,
        items: usize::MAX,
        pointers: usize::MAX,
    };

    /// The same form for another tree.
    pub fn of(self, owner: u64) -> Form {
        Form { owner, ..self }
    }
}
