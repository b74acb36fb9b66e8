// The flags of items, as sets of named bits.
ghost use Rattle.std.specs.Prelude.{⊤, ◌≡◌};
ghost use Rattle.btr_items.specs.Flags.{extent_flag_names, inode_flag_names, root_flag_names};

use bitflags::{Flag, Flags, bitflag_items};

/// The flags of an extent. Bits without a name are kept.
#[derive(Clone, Copy, Debug, PartialEq, Eq)]
pub struct ExtentFlags(pub u64);

bitflag_items! {
    impl ExtentFlags: u64 {
        /// The extent is data of files.
        const DATA = 0x1;
        /// The extent is a tree block.
        const TREE_BLOCK = 0x2;
        /// The tree block's pointers refer by its address, and not by its owner.
        const FULL_BACKREF = 0x100;
    }
}

impl Flags for ExtentFlags {
    type Bits = u64;

    ghost exact = { ⊤ };

    ghost table = { extent_flag_names };

    ghost set_of = { λ flags. flags.0 };

    fn flags<'a>() -> &'a [Flag<ExtentFlags>] {
        ExtentFlags::FLAGS
    }

    fn bits(&self) -> u64 {
        self.0
    }

    fn from_bits_retain(bits: u64) -> ExtentFlags {
        ExtentFlags(bits)
    }
}

/// The flags of an inode. Bits without a name are kept.
#[derive(Clone, Copy, Debug, PartialEq, Eq)]
pub struct InodeFlags(pub u64);

bitflag_items! {
    impl InodeFlags: u64 {
        /// Its data has no checksums.
        const NODATASUM = 0x1;
        /// Its data is written in place.
        const NODATACOW = 0x2;
        /// It isn't written.
        const READONLY = 0x4;
        /// Its data isn't compressed.
        const NOCOMPRESS = 0x8;
        /// It has extents that were kept for it and not written.
        const PREALLOC = 0x10;
        /// Each write of it is synced.
        const SYNC = 0x20;
        /// Nothing of it changes.
        const IMMUTABLE = 0x40;
        /// It is only written at its end.
        const APPEND = 0x80;
        /// Backups leave it out.
        const NODUMP = 0x100;
        /// The time of its last use isn't kept.
        const NOATIME = 0x200;
        /// Each change of the directory is synced.
        const DIRSYNC = 0x400;
        /// Its data is compressed.
        const COMPRESS = 0x800;
        /// The inode in a ROOT_ITEM has its fields.
        const ROOT_ITEM_INIT = 0x8000_0000;
    }
}

impl Flags for InodeFlags {
    type Bits = u64;

    ghost exact = { ⊤ };

    ghost table = { inode_flag_names };

    ghost set_of = { λ flags. flags.0 };

    fn flags<'a>() -> &'a [Flag<InodeFlags>] {
        InodeFlags::FLAGS
    }

    fn bits(&self) -> u64 {
        self.0
    }

    fn from_bits_retain(bits: u64) -> InodeFlags {
        InodeFlags(bits)
    }
}

/// The flags of a tree, in its ROOT_ITEM. Bits without a name are kept.
#[derive(Clone, Copy, Debug, PartialEq, Eq)]
pub struct RootFlags(pub u64);

bitflag_items! {
    impl RootFlags: u64 {
        /// The subvolume isn't written.
        const RDONLY = 0x1;
        /// The subvolume is being deleted.
        const DEAD = 0x1_0000_0000_0000;
    }
}

impl Flags for RootFlags {
    type Bits = u64;

    ghost exact = { ⊤ };

    ghost table = { root_flag_names };

    ghost set_of = { λ flags. flags.0 };

    fn flags<'a>() -> &'a [Flag<RootFlags>] {
        RootFlags::FLAGS
    }

    fn bits(&self) -> u64 {
        self.0
    }

    fn from_bits_retain(bits: u64) -> RootFlags {
        RootFlags(bits)
    }
}
