// Two visitors of one tree.
ghost use Rattle.btr_tour.specs.Pairs.{FoldsBoth};

use crate::{Met, Visitor};

/// Two visitors that meet a tree at once, so that its blocks are read once for both.
#[derive(Drop)]
pub struct Both<A, B> {
    /// Each mark is met by this one first,
    pub first: A,
    /// and then by this one.
    pub second: B,
}

impl<E, A: Visitor<E>, B: Visitor<E>> Visitor<E> for Both<A, B> {
    ghost use Rattle.btr_tour.specs.Pairs.{both_step};

    ghost step = { both_step A.step B.step };

    fn meet(&mut self, met: &Met<'_>) -> Result<(), E> {
        self.first.meet(met)?;
        self.second.meet(met)
    }
}

/// What two visitors come to at once, each comes to alone. This function is the law: its contract says it, and its body is empty.
pub fn folds_both<E, A: Visitor<E>, B: Visitor<E>>()
    ensures { FoldsBoth A.step B.step }
{}
