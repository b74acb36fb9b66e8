ghost use Rattle.std.specs.Prelude.{◌≡◌, ◌++◌, OnOk, option_to_list};
ghost use Rattle.btr_check_sums.specs.Items as words;
ghost use Rattle.btr_walk.specs.Showing.{item_of};

use crate::UsedRange;
use crate::items::{loose_in, used_in};
use btr_base::Memory;
use btr_findings::push;
use btr_tour::{Met, Visitor};
use btr_walk::Found;
use std::alloc::Global;
use std::marker::Model;

/// What a visit of a tree of files meets: the inodes whose data has no checksums, and the ranges of extents that files use.
#[derive(Drop)]
pub struct Uses {
    loose: Vec<u64>,
    used: Vec<UsedRange>,
}

impl Model for Uses {
    ghost use Rattle.btr_check_sums.specs.Items.{UsesMet};

    ghost Value = { UsesMet };

    ghost view = { λ uses. record { loose = uses.loose.items; used = uses.used.items } };
}

impl Uses {
    ghost use Rattle.std.specs.Prelude.{◌≡◌, []};

    /// None yet.
    pub fn new(alloc: Global) -> Uses
        ensures { result ≡ record { loose = []; used = [] } }
    {
        Uses {
            loose: Vec::new(alloc),
            used: Vec::new(alloc),
        }
    }

    /// The inodes whose data has no checksums.
    pub fn loose(&self) -> &[u64]
        ensures { result.now ≡ self.now.loose }
    {
        self.loose.as_slice()
    }

    /// The ranges that files use, in the order of their items.
    pub fn used(&self) -> &[UsedRange]
        ensures { result.now ≡ self.now.used }
    {
        self.used.as_slice()
    }
}

// Keeps an inode whose data has no checksums.
fn keep_loose(loose: &mut Vec<u64>, found: &Found<'_>) -> Result<(), Memory>
    ensures { OnOk result (loose.new.items ≡ loose.old.items ++ option_to_list (words.loose_in (item_of found.now))) }
{
    match loose_in(found) {
        Some(inode) => push(loose, inode),
        None => Ok(()),
    }
}

// Keeps a range that a file uses.
fn keep_used(used: &mut Vec<UsedRange>, found: &Found<'_>) -> Result<(), Memory>
    ensures { OnOk result (used.new.items ≡ used.old.items ++ option_to_list (words.used_in (item_of found.now))) }
{
    match used_in(found) {
        Some(range) => push(used, range),
        None => Ok(()),
    }
}

impl Visitor<Memory> for Uses {
    ghost use Rattle.btr_check_sums.specs.Items.{uses_step};

    ghost step = { uses_step };

    fn meet(&mut self, met: &Met<'_>) -> Result<(), Memory> {
        let Met::Item(found) = met else {
            return Ok(());
        };
        keep_loose(&mut self.loose, found)?;
        keep_used(&mut self.used, found)
    }
}
