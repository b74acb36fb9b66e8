// The slots that a row with P and Q is solved in.
use btr_pool::Loan;

/// Four slots: of the slice that is sought, of what P and Q leave of it, and one to spare for another slice.
#[derive(Clone, Copy)]
pub(crate) struct RowSlots<'a> {
    pub(crate) sought: &'a Loan,
    pub(crate) p: &'a Loan,
    pub(crate) q: &'a Loan,
    pub(crate) spare: &'a Loan,
}
