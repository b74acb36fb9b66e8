//! The types of items, the second part of their keys.
ghost use Rattle.std.specs.Prelude.{◌≡◌, option_map};
ghost use Rattle.btr_items.specs.Types.{type_name};

/// An inode.
pub const INODE_ITEM: u8 = 1;
/// Names of an inode in one directory.
pub const INODE_REF: u8 = 12;
/// Names of an inode, where an INODE_REF had no room.
pub const INODE_EXTREF: u8 = 13;
/// Extended attributes of an inode whose names have one hash.
pub const XATTR_ITEM: u8 = 24;
/// An inode without a name.
pub const ORPHAN_ITEM: u8 = 48;
/// Entries of a directory whose names have one hash.
pub const DIR_ITEM: u8 = 84;
/// An entry of a directory, by its index.
pub const DIR_INDEX: u8 = 96;
/// A range of a file.
pub const EXTENT_DATA: u8 = 108;
/// Checksums of consecutive sectors.
pub const EXTENT_CSUM: u8 = 128;
/// The root of a tree.
pub const ROOT_ITEM: u8 = 132;
/// A name of a subvolume, under its id.
pub const ROOT_BACKREF: u8 = 144;
/// A name of a subvolume, under the id of the one that holds the name.
pub const ROOT_REF: u8 = 156;
/// An extent, by its length.
pub const EXTENT_ITEM: u8 = 168;
/// The extent of a tree block, by its level.
pub const METADATA_ITEM: u8 = 169;
/// A reference to a tree block by a tree.
pub const TREE_BLOCK_REF: u8 = 176;
/// A reference to a data extent by a file.
pub const EXTENT_DATA_REF: u8 = 178;
/// A reference to a tree block by a block.
pub const SHARED_BLOCK_REF: u8 = 182;
/// A reference to a data extent by a block.
pub const SHARED_DATA_REF: u8 = 184;
/// A block group.
pub const BLOCK_GROUP_ITEM: u8 = 192;
/// A range of a device that a chunk has.
pub const DEV_EXTENT: u8 = 204;
/// A device.
pub const DEV_ITEM: u8 = 216;
/// A chunk.
pub const CHUNK_ITEM: u8 = 228;

/// What a type is called, if it has a name.
pub fn name_of(kind: u8) -> Option<&'static [u8]>
    ensures { option_map (λ name. name.now) result ≡ type_name kind }
{
    let name: &'static [u8] = match kind {
        INODE_ITEM => b"INODE_ITEM",
        INODE_REF => b"INODE_REF",
        INODE_EXTREF => b"INODE_EXTREF",
        XATTR_ITEM => b"XATTR_ITEM",
        ORPHAN_ITEM => b"ORPHAN_ITEM",
        DIR_ITEM => b"DIR_ITEM",
        DIR_INDEX => b"DIR_INDEX",
        EXTENT_DATA => b"EXTENT_DATA",
        EXTENT_CSUM => b"EXTENT_CSUM",
        ROOT_ITEM => b"ROOT_ITEM",
        ROOT_BACKREF => b"ROOT_BACKREF",
        ROOT_REF => b"ROOT_REF",
        EXTENT_ITEM => b"EXTENT_ITEM",
        METADATA_ITEM => b"METADATA_ITEM",
        TREE_BLOCK_REF => b"TREE_BLOCK_REF",
        EXTENT_DATA_REF => b"EXTENT_DATA_REF",
        SHARED_BLOCK_REF => b"SHARED_BLOCK_REF",
        SHARED_DATA_REF => b"SHARED_DATA_REF",
        BLOCK_GROUP_ITEM => b"BLOCK_GROUP_ITEM",
        DEV_EXTENT => b"DEV_EXTENT",
        DEV_ITEM => b"DEV_ITEM",
        CHUNK_ITEM => b"CHUNK_ITEM",
        _ => return None,
    };
    Some(name)
}
