ghost use Rattle.std.specs.Prelude.{◌≡◌};
ghost use Rattle.btr_items.specs.Item as spec;

use crate::item;

/// What the body of an item is, by the item's type.
#[derive(Clone, Copy, Debug, PartialEq, Eq)]
pub enum Form {
    /// An [`Inode`](crate::Inode).
    Inode,
    /// One or more [`inode_refs`](crate::inode_refs).
    InodeRefs,
    /// One or more [`ext_refs`](crate::ext_refs).
    ExtRefs,
    /// One or more [`entries`](crate::entries).
    Entries,
    /// The entry of [`Entry::index`](crate::Entry::index).
    IndexEntry,
    /// Nothing: the key of an ORPHAN_ITEM says all.
    Empty,
    /// A [`FileExtent`](crate::FileExtent).
    FileExtent,
    /// A [`SumRun`](crate::SumRun).
    Sums,
    /// A [`RootItem`](crate::RootItem).
    Root,
    /// A [`RootRef`](crate::RootRef).
    RootRef,
    /// An [`ExtentItem`](crate::ExtentItem), and its [`inline_refs`](crate::inline_refs), if there are any.
    Extent,
    /// A [`LooseRef`](crate::LooseRef).
    LooseRef,
    /// A [`BlockGroup`](crate::BlockGroup).
    BlockGroup,
    /// A [`DevExtent`](crate::DevExtent).
    DevExtent,
    /// A [`DevItem`](crate::DevItem).
    DevItem,
    /// A chunk, of which only the length is looked at here.
    Chunk,
    /// An item of a type that isn't read.
    Other,
}

impl Form {
    /// The form of the bodies of items of this type.
    pub fn of_type(kind: u8) -> Form
        ensures { result ≡ spec.form_of kind }
    {
        match kind {
            item::INODE_ITEM => Form::Inode,
            item::INODE_REF => Form::InodeRefs,
            item::INODE_EXTREF => Form::ExtRefs,
            item::XATTR_ITEM | item::DIR_ITEM => Form::Entries,
            item::DIR_INDEX => Form::IndexEntry,
            item::ORPHAN_ITEM => Form::Empty,
            item::EXTENT_DATA => Form::FileExtent,
            item::EXTENT_CSUM => Form::Sums,
            item::ROOT_ITEM => Form::Root,
            item::ROOT_BACKREF | item::ROOT_REF => Form::RootRef,
            item::EXTENT_ITEM | item::METADATA_ITEM => Form::Extent,
            item::TREE_BLOCK_REF
            | item::EXTENT_DATA_REF
            | item::SHARED_BLOCK_REF
            | item::SHARED_DATA_REF => Form::LooseRef,
            item::BLOCK_GROUP_ITEM => Form::BlockGroup,
            item::DEV_EXTENT => Form::DevExtent,
            item::DEV_ITEM => Form::DevItem,
            item::CHUNK_ITEM => Form::Chunk,
            _ => Form::Other,
        }
    }
}
