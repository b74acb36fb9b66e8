use crate::items::run_in;
use btr_base::{Memory, SumKind};
use btr_findings::push;
use btr_items::SumRun;
use btr_tour::{Met, Visitor};
use std::alloc::Global;
use std::marker::Model;

/// The runs of checksums that a visit of the checksum tree meets, in the order of their items.
#[derive(Drop)]
pub struct Runs {
    kind: SumKind,
    list: Vec<SumRun>,
}

impl Model for Runs {
    ghost use Rattle.btr_check_sums.specs.Items.{RunsMet};

    ghost Value = { RunsMet };

    ghost view = { λ runs. record { kind = runs.kind; runs = runs.list.items } };
}

impl Runs {
    ghost use Rattle.std.specs.Prelude.{◌≡◌, []};

    /// None yet. Checksums are of this kind.
    pub fn new(alloc: Global, kind: SumKind) -> Runs
        ensures { result ≡ record { kind = kind; runs = [] } }
    {
        Runs {
            kind,
            list: Vec::new(alloc),
        }
    }

    /// Those that were met, in the order of their items.
    pub fn as_slice(&self) -> &[SumRun]
        ensures { result.now ≡ self.now.runs }
    {
        self.list.as_slice()
    }
}

impl Visitor<Memory> for Runs {
    ghost use Rattle.btr_check_sums.specs.Items.{runs_step};

    ghost step = { runs_step };

    fn meet(&mut self, met: &Met<'_>) -> Result<(), Memory> {
        let Met::Item(found) = met else {
            return Ok(());
        };
        match run_in(self.kind, found) {
            Some(run) => push(&mut self.list, run),
            None => Ok(()),
        }
    }
}
