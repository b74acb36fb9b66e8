use btr_read::Want;

// A wanted block in a chunk with copies.
#[derive(Clone, Copy)]
pub(crate) struct CopiedBlock<'a> {
    pub(crate) want: &'a Want,
    // How many copies it has.
    pub(crate) copies: u32,
}
