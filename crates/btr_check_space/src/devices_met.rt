use crate::StatedDevice;
use crate::items::device_in;
use btr_base::Memory;
use btr_findings::push;
use btr_tour::{Met, Visitor};
use std::alloc::Global;
use std::marker::Model;

/// The devices that a visit of a tree meets, seen as their list, in the order of their items.
#[derive(Drop)]
pub struct Devices {
    list: Vec<StatedDevice>,
}

impl Model for Devices {
    ghost use Rattle.std.specs.Prelude.{List};
    ghost use Rattle.btr_check_space.specs.declared.stated_device.StatedDevice.{StatedDevice};

    ghost Value = { List StatedDevice };

    ghost view = { λ devices_met. devices_met.list.items };
}

impl Devices {
    ghost use Rattle.std.specs.Prelude.{◌≡◌, []};

    /// None yet.
    pub fn new(alloc: Global) -> Devices
        ensures { result ≡ [] }
    {
        Devices {
            list: Vec::new(alloc),
        }
    }

    /// Those that were met, in the order of their items.
    pub fn as_slice(&self) -> &[StatedDevice]
        ensures { result.now ≡ self.now }
    {
        self.list.as_slice()
    }
}

impl Visitor<Memory> for Devices {
    ghost use Rattle.btr_check_space.specs.Items.{with_mark, device_in};

    ghost step = { with_mark device_in };

    fn meet(&mut self, met: &Met<'_>) -> Result<(), Memory> {
        let Met::Item(found) = met else {
            return Ok(());
        };
        match device_in(found) {
            Some(one) => push(&mut self.list, one),
            None => Ok(()),
        }
    }
}
