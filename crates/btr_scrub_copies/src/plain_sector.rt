use crate::copied_block::CopiedBlock;

// A plain sector, which has no checksum.
#[derive(Clone, Copy)]
pub(crate) struct PlainSector<'a> {
    pub(crate) block: CopiedBlock<'a>,
    // By slot, on which images some checked block doesn't pass.
    pub(crate) failing: &'a [bool],
}
