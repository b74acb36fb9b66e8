use crate::Group;
use crate::items::group_in;
use btr_base::Memory;
use btr_findings::push;
use btr_tour::{Met, Visitor};
use std::alloc::Global;
use std::marker::Model;

/// The block groups that a visit of a tree meets, seen as their list, in the order of their items.
#[derive(Drop)]
pub struct Groups {
    list: Vec<Group>,
}

impl Model for Groups {
    ghost use Rattle.std.specs.Prelude.{List};
    ghost use Rattle.btr_check_space.specs.declared.group.Group.{Group};

    ghost Value = { List Group };

    ghost view = { λ groups_met. groups_met.list.items };
}

impl Groups {
    ghost use Rattle.std.specs.Prelude.{◌≡◌, []};

    /// None yet.
    pub fn new(alloc: Global) -> Groups
        ensures { result ≡ [] }
    {
        Groups {
            list: Vec::new(alloc),
        }
    }

    /// Those that were met, in the order of their items.
    pub fn as_slice(&self) -> &[Group]
        ensures { result.now ≡ self.now }
    {
        self.list.as_slice()
    }
}

impl Visitor<Memory> for Groups {
    ghost use Rattle.btr_check_space.specs.Items.{with_mark, group_in};

    ghost step = { with_mark group_in };

    fn meet(&mut self, met: &Met<'_>) -> Result<(), Memory> {
        let Met::Item(found) = met else {
            return Ok(());
        };
        match group_in(found) {
            Some(one) => push(&mut self.list, one),
            None => Ok(()),
        }
    }
}
