use btr_volume::TreeRoot;

/// What is checked: whether data is read, the trees that the root tree lists, and all trees.
#[derive(Clone, Copy)]
pub(crate) struct Checked<'a> {
    pub(crate) read_data: bool,
    pub(crate) listed: &'a [TreeRoot],
    pub(crate) trees: &'a [TreeRoot],
}
