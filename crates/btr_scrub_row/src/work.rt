use crate::RowAt;
use btr_read::Want;

/// What is to be done at a full stripe.
#[derive(Clone, Copy)]
pub struct RowWork<'a> {
    /// Which one it is.
    pub at: RowAt,
    /// The blocks of it.
    pub wants: &'a [Want],
    /// By slot, on which images some checked block doesn't pass.
    pub failing: &'a [bool],
    /// Whether it is written, or only read.
    pub write: bool,
}
