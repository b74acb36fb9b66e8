use crate::DeviceExtent;
use crate::items::device_extent_in;
use btr_base::Memory;
use btr_findings::push;
use btr_tour::{Met, Visitor};
use std::alloc::Global;
use std::marker::Model;

/// The device extents that a visit of a tree meets, seen as their list, in the order of their items.
#[derive(Drop)]
pub struct DeviceExtents {
    list: Vec<DeviceExtent>,
}

impl Model for DeviceExtents {
    ghost use Rattle.std.specs.Prelude.{List};
    ghost use Rattle.btr_check_space.specs.declared.device_extent.DeviceExtent.{DeviceExtent};

    ghost Value = { List DeviceExtent };

    ghost view = { λ extents_met. extents_met.list.items };
}

impl DeviceExtents {
    ghost use Rattle.std.specs.Prelude.{◌≡◌, []};

    /// None yet.
    pub fn new(alloc: Global) -> DeviceExtents
        ensures { result ≡ [] }
    {
        DeviceExtents {
            list: Vec::new(alloc),
        }
    }

    /// Those that were met, in the order of their items.
    pub fn as_slice(&self) -> &[DeviceExtent]
        ensures { result.now ≡ self.now }
    {
        self.list.as_slice()
    }
}

impl Visitor<Memory> for DeviceExtents {
    ghost use Rattle.btr_check_space.specs.Items.{with_mark, device_extent_in};

    ghost step = { with_mark device_extent_in };

    fn meet(&mut self, met: &Met<'_>) -> Result<(), Memory> {
        let Met::Item(found) = met else {
            return Ok(());
        };
        match device_extent_in(found) {
            Some(one) => push(&mut self.list, one),
            None => Ok(()),
        }
    }
}
