use btr_items::ExtentFlags;

/// An extent, as its item in the extent tree states it: an EXTENT_ITEM, or a METADATA_ITEM of a tree block.
#[derive(Clone, Copy, Debug, PartialEq, Eq)]
pub struct Extent {
    /// Its logical address.
    pub addr: u64,
    /// Its length in bytes; a METADATA_ITEM's is as long as a node.
    pub len: u64,
    /// How many references there are to it.
    pub refs: u64,
    /// The [`ExtentFlags`], `DATA` or `TREE_BLOCK` among them.
    pub flags: u64,
    /// The level of a tree block.
    pub level: Option<u8>,
}

impl Extent {
    ghost use Rattle.std.specs.Prelude.{◌≡◌};

    /// The extent's flags.
    pub fn flags(&self) -> ExtentFlags
        ensures { result.0 ≡ self.now.flags }
    {
        ExtentFlags(self.flags)
    }
}
