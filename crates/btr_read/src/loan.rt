use std::marker::Model;

/// A loan of a slot of a [`Store`](crate::Store) that holds the block of a want, with the want's length. It can't be
/// copied, and has to be given back to the store.
#[derive(Debug)]
pub struct Loan {
    pub(crate) slot: btr_pool::Loan,
    pub(crate) len: usize,
}

impl Model for Loan {
    ghost use Rattle.btr_read.specs.Store.{Lent};

    ghost Value = { Lent };

    ghost view = { λ loan. record { slot = loan.slot; len = loan.len } };
}
