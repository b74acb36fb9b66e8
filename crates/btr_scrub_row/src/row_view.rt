use crate::wanted_row::WantedRow;
use btr_read::Store;

// A row of wanted blocks that was read.
#[derive(Clone, Copy)]
pub(crate) struct RowView<'a> {
    pub(crate) wanted: WantedRow<'a>,
    pub(crate) store: &'a Store,
    // Its elements as they were read: the slices, P, and Q.
    pub(crate) old: &'a [u8],
}
