// Which reference to an extent is meant.
ghost use Rattle.std.specs.Prelude.{◌≡◌};
ghost use Rattle.btr_refs.specs.RefKey as spec;

use btr_items::{Link, item};

/// A reference to an extent, as it is printed: by the extent, and by what refers to it. They are ordered field by field.
#[derive(Clone, Copy, Debug, PartialEq, Eq, PartialOrd, Ord)]
pub struct RefKey {
    /// The extent's logical address.
    pub addr: u64,
    /// The type of the items that store such references: 176, 178, 182 or 184.
    pub kind: u8,
    /// The tree that refers, by its id, or the tree block, by its logical address.
    pub root: u64,
    /// The inode of a file; else 0.
    pub objectid: u64,
    /// The offset of the extent's beginning in the file, modulo 2^64; else 0.
    pub offset: u64,
}

impl RefKey {
    /// The reference by a link to the extent at an address.
    pub fn new(addr: u64, link: Link) -> RefKey
        ensures { result ≡ spec.key_of addr link }
    {
        let (kind, root, objectid, offset) = match link {
            Link::Tree(root) => (item::TREE_BLOCK_REF, root, 0, 0),
            Link::SharedTree(parent) => (item::SHARED_BLOCK_REF, parent, 0, 0),
            Link::File {
                root,
                objectid,
                offset,
            } => (item::EXTENT_DATA_REF, root, objectid, offset),
            Link::SharedFile(parent) => (item::SHARED_DATA_REF, parent, 0, 0),
        };
        RefKey {
            addr,
            kind,
            root,
            objectid,
            offset,
        }
    }
}
