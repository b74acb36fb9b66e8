use crate::copied_block::CopiedBlock;
use crate::finding::Bad;

// The copies of a wanted block, and which of them are bad.
#[derive(Clone, Copy)]
pub(crate) struct JudgedCopies<'a> {
    pub(crate) block: CopiedBlock<'a>,
    pub(crate) bad: Bad,
}
