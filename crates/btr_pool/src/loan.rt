ghost use Rattle.std.specs.Prelude.{◌≡◌};

use std::marker::Model;

/// The right to one slot of a pool. It can't be copied, and has to be given back to the pool.
///
/// Clauses see it as the number of its slot.
#[derive(Debug)]
pub struct Loan {
    pub(crate) slot: usize,
}

impl Model for Loan {
    ghost use Rattle.std.specs.Prelude.{ℕ};

    ghost Value = { ℕ };

    ghost view = { λ loan. loan.slot };
}

impl Loan {
    /// The number of the slot, from 0 on. The same slot can be asked for by it once the loan is given back.
    pub fn slot(&self) -> usize
        ensures { result ≡ self.now }
    {
        self.slot
    }
}
