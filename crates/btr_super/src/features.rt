// The features of a filesystem, as sets of named bits.
ghost use Rattle.std.specs.Prelude.{⊤, ◌≡◌};
ghost use Rattle.btr_super.specs.Features.{compat_ro_names, incompat_names};

use bitflags::{Flag, Flags, bitflag_items};

/// Features that only a writer has to know. Bits without a name are kept.
#[derive(Clone, Copy, Debug, PartialEq, Eq)]
pub struct CompatRo(pub u64);

bitflag_items! {
    impl CompatRo: u64 {
        /// Free space is kept in a tree.
        const FREE_SPACE_TREE = 0x1;
        /// That tree is up to date.
        const FREE_SPACE_TREE_VALID = 0x2;
        /// Files have hashes by fs-verity.
        const VERITY = 0x4;
        /// Block groups have a tree of their own.
        const BLOCK_GROUP_TREE = 0x8;
    }
}

impl Flags for CompatRo {
    type Bits = u64;

    ghost exact = { ⊤ };

    ghost table = { compat_ro_names };

    ghost set_of = { λ features. features.0 };

    fn flags<'a>() -> &'a [Flag<CompatRo>] {
        CompatRo::FLAGS
    }

    fn bits(&self) -> u64 {
        self.0
    }

    fn from_bits_retain(bits: u64) -> CompatRo {
        CompatRo(bits)
    }
}

/// Features that a reader has to know. Bits without a name are kept.
#[derive(Clone, Copy, Debug, PartialEq, Eq)]
pub struct Incompat(pub u64);

bitflag_items! {
    impl Incompat: u64 {
        /// References to extents stand in the extents' own items.
        const MIXED_BACKREF = 0x1;
        /// Another subvolume than the top one is mounted unless one is named.
        const DEFAULT_SUBVOL = 0x2;
        /// A block group may hold data and tree blocks.
        const MIXED_GROUPS = 0x4;
        /// Some file was compressed by LZO.
        const COMPRESS_LZO = 0x8;
        /// Some file was compressed by Zstandard.
        const COMPRESS_ZSTD = 0x10;
        /// Tree blocks are longer than a page.
        const BIG_METADATA = 0x20;
        /// Names of an inode may stand in INODE_EXTREFs.
        const EXTENDED_IREF = 0x40;
        /// Some chunk is RAID5 or RAID6.
        const RAID56 = 0x80;
        /// Extents of tree blocks stand in METADATA_ITEMs.
        const SKINNY_METADATA = 0x100;
        /// A hole of a file needs no item.
        const NO_HOLES = 0x200;
        /// The id in tree blocks is the superblock's `metadata_uuid`, and not its `fsid`.
        const METADATA_UUID = 0x400;
        /// Some chunk is RAID1C3 or RAID1C4.
        const RAID1C34 = 0x800;
        /// The devices have zones, which are written from their beginning on.
        const ZONED = 0x1000;
        /// The extent tree has its second form.
        const EXTENT_TREE_V2 = 0x2000;
        /// The stripes of data extents stand in a tree of their own.
        const RAID_STRIPE_TREE = 0x4000;
        /// Extents name the subvolume that is charged for them.
        const SIMPLE_QUOTA = 0x10000;
    }
}

impl Flags for Incompat {
    type Bits = u64;

    ghost exact = { ⊤ };

    ghost table = { incompat_names };

    ghost set_of = { λ features. features.0 };

    fn flags<'a>() -> &'a [Flag<Incompat>] {
        Incompat::FLAGS
    }

    fn bits(&self) -> u64 {
        self.0
    }

    fn from_bits_retain(bits: u64) -> Incompat {
        Incompat(bits)
    }
}
