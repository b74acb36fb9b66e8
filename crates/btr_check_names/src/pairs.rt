// Names that two items each are to give.
ghost use Rattle.std.specs.Prelude.{◌≡◌, IfOk, OnOk};
ghost use Rattle.btr_check_names.specs.Pairs.{no_pairs, met, met_fits, waiting_at, waiting_then, are_met};

use crate::claim::Claim;
use crate::waiting::Waiting;
use btr_base::Memory;
use std::alloc::Global;
use std::marker::Model;

/// Names that two items each are to give: those that one has given and the other hasn't yet, and whether two have given different names.
#[derive(Drop)]
pub(crate) struct Pairs {
    waiting: Waiting,
    differ: bool,
}

impl Model for Pairs {
    ghost use Rattle.btr_check_names.specs.Pairs as pairs;

    ghost Value = { pairs.Pairs };

    ghost coded = { pairs.coded_pairs };

    ghost view = { λ pairs. record { waiting = pairs.waiting; differ = pairs.differ } };
}

impl Pairs {
    /// No name is given yet.
    pub(crate) fn new(alloc: Global) -> Pairs
        ensures { result ≡ no_pairs }
    {
        Pairs {
            waiting: Waiting::new(alloc),
            differ: false,
        }
    }

    /// The first of two items, or the second one, gives a name. `Memory`: there is no memory for it; then nothing is said of the names.
    pub(crate) fn meet(&mut self, claim: Claim, is_first: bool, name: &[u8]) -> Result<(), Memory>
        ensures { OnOk result (self.new ≡ met self.old claim is_first name.now) }
    {
        if !meet_other(&mut self.waiting, claim, is_first, name)? {
            self.differ = true;
        }
        Ok(())
    }

    /// Whether each name was given by both, and none waits.
    pub(crate) fn are_met(&self) -> bool
        ensures { result ≡ are_met self.now }
    {
        !self.differ && self.waiting.is_empty()
    }
}

// A name is given: where the other item waits for it, that is let go, and the answer is whether it gives the same; else it waits itself.
fn meet_other(
    waiting: &mut Waiting,
    claim: Claim,
    is_first: bool,
    name: &[u8],
) -> Result<bool, Memory>
    ensures fits { IfOk result (λ same. same ≡ met_fits (waiting_at waiting.old claim) is_first name.now) }
    ensures left { OnOk result (waiting.new ≡ waiting_then waiting.old claim is_first name.now) }
{
    if let Some(fits) = waiting.meet(&claim, is_first, name)? {
        return Ok(fits);
    }
    waiting.wait(claim, is_first, name)?;
    Ok(true)
}
