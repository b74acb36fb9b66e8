// Bodies of items: 22 from filesystems that mkfs.btrfs and the kernel made, and seven that those lacked, put into a leaf
// of one of them. `btrfs inspect-internal dump-tree` shows each as the tests expect it.

/// An inode without checksums.
pub(crate) const FILE: &[u8; 160] =
    b"\x0a\0\0\0\0\0\0\0\x10\0\0\0\0\0\0\0@\x0d\x03\0\0\0\0\0\0\x10\x03\0\0\0\0\0\0\0\0\0\0\0\0\0\x01\0\0\0\0\0\0\0\0\0\0\0\xa4\x81\0\0\0\0\0\0\0\0\0\0\x03\0\0\0\0\0\0\0\x02\0\0\0\0\0\0\0\0\0\0\0\0\0\0\0\0\0\0\0\0\0\0\0\0\0\0\0\0\0\0\0\0\0\0\0\0\0\0\0/\x89\x08k\0\0\0\0Uz\xd79.\x89\x08k\0\0\0\05\x9e\x828.\x89\x08k\0\0\0\05\x9e\x828.\x89\x08k\0\0\0\02Di8";

/// An inode with 22 names.
pub(crate) const LINKED: &[u8; 160] =
    b"\x07\0\0\0\0\0\0\0\x10\0\0\0\0\0\0\00u\0\0\0\0\0\0\0\x80\0\0\0\0\0\0\0\0\0\0\0\0\0\0\x16\0\0\0\0\0\0\0\0\0\0\0\xa4\x81\0\0\0\0\0\0\0\0\0\0\0\0\0\0\0\0\0\0\x16\0\0\0\0\0\0\0\0\0\0\0\0\0\0\0\0\0\0\0\0\0\0\0\0\0\0\0\0\0\0\0\0\0\0\0\0\0\0\0/\x89\x08k\0\0\0\0TDi8.\x89\x08k\0\0\0\0\x80\x17\xe0\x03.\x89\x08k\0\0\0\0\xcf\xd5\xdc\x03.\x89\x08k\0\0\0\0\x9f\x19\xd1\x03";

/// 21 of those names.
pub(crate) const NAMES: &[u8; 335] =
    b"\x02\0\0\0\0\0\0\0\x05\0first\x03\0\0\0\0\0\0\0\x06\0link00\x04\0\0\0\0\0\0\0\x06\0link01\x05\0\0\0\0\0\0\0\x06\0link02\x06\0\0\0\0\0\0\0\x06\0link03\x07\0\0\0\0\0\0\0\x06\0link04\x08\0\0\0\0\0\0\0\x06\0link05\x09\0\0\0\0\0\0\0\x06\0link06\x0a\0\0\0\0\0\0\0\x06\0link07\x0b\0\0\0\0\0\0\0\x06\0link08\x0c\0\0\0\0\0\0\0\x06\0link09\x0d\0\0\0\0\0\0\0\x06\0link10\x0e\0\0\0\0\0\0\0\x06\0link11\x0f\0\0\0\0\0\0\0\x06\0link12\x10\0\0\0\0\0\0\0\x06\0link13\x11\0\0\0\0\0\0\0\x06\0link14\x12\0\0\0\0\0\0\0\x06\0link15\x13\0\0\0\0\0\0\0\x06\0link16\x14\0\0\0\0\0\0\0\x06\0link17\x15\0\0\0\0\0\0\0\x06\0link18\x16\0\0\0\0\0\0\0\x06\0link19";

/// The name of 255 bytes.
pub(crate) const LONG_NAME: &[u8; 265] =
    b"\x02\0\0\0\0\0\0\0\xff\0xxxxxxxxxxxxxxxxxxxxxxxxxxxxxxxxxxxxxxxxxxxxxxxxxxxxxxxxxxxxxxxxxxxxxxxxxxxxxxxxxxxxxxxxxxxxxxxxxxxxxxxxxxxxxxxxxxxxxxxxxxxxxxxxxxxxxxxxxxxxxxxxxxxxxxxxxxxxxxxxxxxxxxxxxxxxxxxxxxxxxxxxxxxxxxxxxxxxxxxxxxxxxxxxxxxxxxxxxxxxxxxxxxxxxxxxxxxxxxxxxxxxxxxxxxxxxxx";

/// Names in two directories.
pub(crate) const FAR_NAMES: &[u8; 47] =
    b"\x01\x01\0\0\0\0\0\0\x04\0\0\0\0\0\0\0\x04\0name\x04\x01\0\0\0\0\0\0\x09\0\0\0\0\0\0\0\x07\0another";

/// Two names with one hash.
pub(crate) const COLLISION: &[u8; 78] =
    b"5\x01\0\0\0\0\0\0\x01\0\0\0\0\0\0\0\0\x07\0\0\0\0\0\0\0\0\0\x09\0\x01k1441e8966\x01\0\0\0\0\0\0\x01\0\0\0\0\0\0\0\0\x07\0\0\0\0\0\0\0\0\0\x09\0\x02kfca1a963";

/// An extended attribute with data.
pub(crate) const COLOR: &[u8; 45] =
    b"\0\0\0\0\0\0\0\0\0\0\0\0\0\0\0\0\0\0\0\0\0U\xb4\x08k\x05\0\x0a\0\x08user.colorgreen";

/// An entry that leads to a subvolume.
pub(crate) const SUBVOLUME: &[u8; 33] =
    b"\0\x01\0\0\0\0\0\0\x84\0\0\0\0\0\0\0\0\x0a\0\0\0\0\0\0\0\0\0\x03\0\x02sv1";

/// A file of 22 bytes.
pub(crate) const INLINE: &[u8; 43] =
    b"\x07\0\0\0\0\0\0\0\x16\0\0\0\0\0\0\0\0\0\0\0\0inline data of a file\x0a";

/// A file's part of an extent.
pub(crate) const PART: &[u8; 53] =
    b"\x08\0\0\0\0\0\0\0\0\x90\x01\0\0\0\0\0\0\0\0\0\x01\0@\xde\0\0\0\0\0\0\x90\x01\0\0\0\0\0\00\0\0\0\0\0\0\0`\x01\0\0\0\0\0";

/// A range that isn't written.
pub(crate) const PREALLOC: &[u8; 53] =
    b"\x08\0\0\0\0\0\0\0\0\0\x10\0\0\0\0\0\0\0\0\0\x02\0P\xde\x03\0\0\0\0\0\0\x10\0\0\0\0\0\0\0\0\0\0\0\0\0\0\0\x10\0\0\0\0\0";

/// A compressed range.
pub(crate) const COMPRESSED: &[u8; 53] =
    b"\x09\0\0\0\0\0\0\0\0\0\x02\0\0\0\0\0\x03\0\0\0\x01\0\xc0\xf5\0\0\0\0\0\0P\0\0\0\0\0\0\0\0\0\0\0\0\0\0\0\0\x02\0\0\0\0\0";

/// A range of zeros.
pub(crate) const HOLE: &[u8; 53] =
    b"\x07\0\0\0\0\0\0\0\0 \0\0\0\0\0\0\0\0\0\0\x01\0\0\0\0\0\0\0\0\0\0\0\0\0\0\0\0\0\0\0\0\0\0\0\0\0 \0\0\0\0\0\0";

/// A part of a compressed extent, which is shorter than the part.
pub(crate) const COMPRESSED_PART: &[u8; 53] =
    b"\x07\0\0\0\0\0\0\0\0\0\x02\0\0\0\0\0\x03\0\0\0\x01\0\0\xd0\0\0\0\0\0\0 \0\0\0\0\0\0\0\0\x01\0\0\0\0\0\0\xf0\0\0\0\0\0\0";

/// Checksums of 4 bytes.
pub(crate) const CRC32C: &[u8; 28] =
    b"b\xda\xc5\x05\x89A\xf9\x98\x89A\xf9\x98i|wC\xc9kj\xe55\x84\x9eS v\x96\xea";

/// Checksums of 8 bytes.
pub(crate) const XXHASH: &[u8; 56] =
    b"<\xc6\x98N\xe7\x0f(\xdd\xdb\xbb\xd82o\x9b\x86\xac\xdb\xbb\xd82o\x9b\x86\xac8\xea<e\xed\xcf\xd5\x9c\xc0\xb1\x1c\xc6\x94\xe8\xf5\x9a\xba\xf6\xb1\xc8K\xbb\xcf\0\x0d\x87z\x91\xa2\x7fZ\xaa";

/// Checksums of 32 bytes.
pub(crate) const SHA256: &[u8; 224] =
    b"\xc5\xadl?\x81:<\x9eR\xfd\x87\x13\x0f\x0d\xbf\xe0\x82]\x8d\x98\x10\x97\x1dr\x12\x0c\xb7\xe8\xd6\xd5\x87\x9a\xad\x7f\xac\xb2Xo\xc6\xe9f\xc0\x04\xd7\xd1\xd1k\x02OX\x05\xff|\xb4|z\x85\xda\xbd\x8bH\x89,\xa7\xad\x7f\xac\xb2Xo\xc6\xe9f\xc0\x04\xd7\xd1\xd1k\x02OX\x05\xff|\xb4|z\x85\xda\xbd\x8bH\x89,\xa7\xcc\xdal\x08\xae\xe2\x831v\x8d\x1a\xc1\xa8e\x81\x07\x8ee\x9aC\xc8P\x0e\xc2\xee\xcb\xe1\x89#\x9d\x07}\xf9\x18\x90\xcbE\x10\x12\xc8\xf6\xb0N\x01\x89_H\x1d\xdd\xb4\xfeGJ\x7f\x970\xf2\xd4\xa2\x15|\xb1$\0\\\x14s\x83\xaf\xe4G\xbc\x8e\x9b\xb8e\\\xc4\xd3M\x05f\xa8_ec\"'\x07\xcb^\x17\x85y\x10\xcdYK\x1e\xb1\xb4\x8dl\x85\xf3\xb7Z\xe0\xc3\xf5ZC}G\x8c4\x14\xe9\x1f@jGO\xb37)7\x04";

/// The root of a subvolume.
pub(crate) const ROOT: &[u8; 439] =
    b"\x01\0\0\0\0\0\0\0\0\0\0\0\0\0\0\0\x03\0\0\0\0\0\0\0\0@\0\0\0\0\0\0\0\0\0\0\0\0\0\0\x01\0\0\0\0\0\0\0\0\0\0\0\xedA\0\0\0\0\0\0\0\0\0\0\0\0\0\x80\0\0\0\0\0\0\0\0\0\0\0\0\0\0\0\0\0\0\0\0\0\0\0\0\0\0\0\0\0\0\0\0\0\0\0\0\0\0\0\0\0\0\0\0\0\0\0\0\0\0\0\0\0\0\0\0\0\0\0\0\0\0\0\0\0\0\0\0\0\0\0\0\0\0\0\0\0\0\0\0\0\0\0\0\0\0\0\0\0\0\0\0\x10\0\0\0\0\0\0\0\0\x01\0\0\0\0\0\0\0@\xe0\x01\0\0\0\0\0\0\0\0\0\0\0\0\0@\x01\0\0\0\0\0\x0c\0\0\0\0\0\0\0\0\0\0\0\0\0\0\0\x01\0\0\0\0\0\0\0\0\0\0\0\0\0\0\0\0\0\0\0\0\0\x01\x10\0\0\0\0\0\0\0\xed\x9c\0\xc5-v)L\x84\xb7\xa4\xccS\xe4d\x88\0\0\0\0\0\0\0\0\0\0\0\0\0\0\0\0\0\0\0\0\0\0\0\0\0\0\0\0\0\0\0\0\x10\0\0\0\0\0\0\0\x0a\0\0\0\0\0\0\0\0\0\0\0\0\0\0\0\0\0\0\0\0\0\0\00\x89\x08k\0\0\0\0\x814\xd6\x06/\x89\x08k\0\0\0\0<\x1d\xb0\x0e\0\0\0\0\0\0\0\0\0\0\0\0\0\0\0\0\0\0\0\0\0\0\0\0\0\0\0\0\0\0\0\0\0\0\0\0\0\0\0\0\0\0\0\0\0\0\0\0\0\0\0\0\0\0\0\0\0\0\0\0\0\0\0\0\0\0\0\0\0\0\0\0\0\0\0\0\0\0\0\0\0\0\0\0\0\0\0\0";

/// A root in the old form.
pub(crate) const OLD_ROOT: &[u8; 239] =
    b"\x01\0\0\0\0\0\0\0\0\0\0\0\0\0\0\0\x03\0\0\0\0\0\0\0\0@\0\0\0\0\0\0\0\0\0\0\0\0\0\0\x01\0\0\0\0\0\0\0\0\0\0\0\xedA\0\0\0\0\0\0\0\0\0\0\0\0\0\0\0\0\0\0\0\0\0\0\0\0\0\0\0\0\0\0\0\0\0\0\0\0\0\0\0\0\0\0\0\0\0\0\0\0\0\0\0\0\0\0\0\0\0\0\0\0\0\0\0\0\0\0\0\0\0\0\0\0\0\0\0\0\0\0\0\0\0\0\0\0\0\0\0\0\0\0\0\0\0\0\0\0\0\0\0\0\0\0\0\0\0\0\x07\0\0\0\0\0\0\0\0\x01\0\0\0\0\0\0\0\x80\xd0\x01\0\0\0\0\0\0\0\0\0\0\0\0\0@\0\0\0\0\0\0\0\0\0\0\0\0\0\0\0\0\0\0\0\0\0\0\x01\0\0\0\0\0\0\0\0\0\0\0\0\0\0\0\0\0\0\0\0\0\0";

/// The name of a subvolume.
pub(crate) const ROOT_NAME: &[u8; 21] = b"\0\x01\0\0\0\0\0\0\x13\0\0\0\0\0\0\0\x03\0sv1";

/// An extent of files and of a block.
pub(crate) const SHARED_DATA: &[u8; 95] =
    b"\x04\0\0\0\0\0\0\0\x0a\0\0\0\0\0\0\0\x01\0\0\0\0\0\0\0\xb2\x04\x01\0\0\0\0\0\0\x01\x01\0\0\0\0\0\0\0\0\0\0\0\0\0\0\x02\0\0\0\xb2\0\x01\0\0\0\0\0\0\x01\x01\0\0\0\0\0\0\0\0\0\0\0\0\0\0\x01\0\0\0\xb8\0\xc0\xf5\x01\0\0\0\0\x01\0\0\0";

/// A tree block, with its key and level.
pub(crate) const BLOCK: &[u8; 51] =
    b"\x01\0\0\0\0\0\0\0\x06\0\0\0\0\0\0\0\x02\0\0\0\0\0\0\0\x01\0\0\0\0\0\0\0\xd8\x01\0\0\0\0\0\0\0\0\xb0\x03\0\0\0\0\0\0\0";

/// A tree block of a tree and of a block.
pub(crate) const SHARED_BLOCK: &[u8; 60] =
    b"\x05\0\0\0\0\0\0\0\x07\0\0\0\0\0\0\0\x02\x01\0\0\0\0\0\0\x01\x01\0\0\0\0\0\0`\x03\0\0\0\0\0\0\0\x01\xb0\x05\0\0\0\0\0\0\0\xb6\0\x80\xd0\x01\0\0\0\0";

/// A tree block, whose level is in its key.
pub(crate) const SKINNY: &[u8; 33] =
    b"\x01\0\0\0\0\0\0\0\x07\0\0\0\0\0\0\0\x02\0\0\0\0\0\0\0\xb0\x03\0\0\0\0\0\0\0";

/// A reference of a file.
pub(crate) const FILE_REF: &[u8; 28] =
    b"\x05\0\0\0\0\0\0\0\x01\x01\0\0\0\0\0\0\0 \0\0\0\0\0\0\x02\0\0\0";

/// A reference of a block to data.
pub(crate) const BLOCK_REF: &[u8; 4] = b"\x04\0\0\0";

/// A block group.
pub(crate) const GROUP: &[u8; 24] = b"\0@\0\0\0\0\0\0\0\x01\0\0\0\0\0\0\x12\0\0\0\0\0\0\0";

/// A range of a device.
pub(crate) const RANGE: &[u8; 48] =
    b"\x03\0\0\0\0\0\0\0\0\x01\0\0\0\0\0\0\0\0P\x01\0\0\0\0\0\0\x80\0\0\0\0\0y}U\x83<EI\xcc\xa1\x80\xf6\x07AN\x84:";

/// A device.
pub(crate) const DEVICE: &[u8; 98] =
    b"\x02\0\0\0\0\0\0\0\0\0\0\x0a\0\0\0\0\0\0\x80\x08\0\0\0\0\0\x10\0\0\0\x10\0\0\0\x10\0\0\0\0\0\0\0\0\0\0\0\0\0\0\0\0\0\0\0\0\0\0\0\0\0\0\0\0\0\0\0\0\x18\xab\xf9\x0d3\x94@<\xb6\xc7\x9d:\x07\xbe\x06B\xba\xdef\xe6\x1e\xd3B\xdb\x81\xfd\xffT\x1e\x8c\x7f\\";
