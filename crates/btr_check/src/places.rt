// The blocks that are met, each once.
ghost use Rattle.std.specs.Prelude.{◌≡◌, OnOk};
ghost use Rattle.btr_check.specs.Walking.{with_place};

use btr_base::Memory;
use btr_walk::RootPlace;
use std::alloc::Global;
use std::collections::BTreeSet;
use std::marker::Model;

/// Which block is meant.
#[derive(Clone, Copy, Debug, PartialEq, Eq, PartialOrd, Ord)]
pub(crate) struct BlockId {
    pub(crate) addr: u64,
    pub(crate) generation: u64,
    pub(crate) level: u8,
}

/// Blocks in the order that they were first met in.
#[derive(Drop)]
pub(crate) struct MetBlocks {
    keys: BTreeSet<BlockId>,
    list: Vec<RootPlace>,
}

impl Model for MetBlocks {
    ghost use Rattle.btr_check.specs.Walking.{MetPlaces};

    ghost Value = { MetPlaces };

    ghost view = { λ places. record { keys = places.keys.keys; list = places.list.items } };
}

impl MetBlocks {
    ghost use Rattle.std.specs.Prelude.{◌≡◌, OnOk};
    ghost use Rattle.btr_check.specs.Walking.{no_places, with_place};

    /// No block was met yet.
    pub(crate) fn new(alloc: Global) -> MetBlocks
        ensures { result ≡ no_places }
    {
        MetBlocks {
            keys: BTreeSet::new(alloc),
            list: Vec::new(alloc),
        }
    }

    /// Puts a block behind the others, unless it was met before. `Memory`: there is no memory for it; then nothing is said of the list.
    pub(crate) fn put(&mut self, place: &RootPlace) -> Result<(), Memory>
        ensures { OnOk result (self.new ≡ with_place self.old place.now) }
    {
        let key = BlockId {
            addr: place.addr,
            generation: place.generation,
            level: place.level,
        };
        match self.keys.insert(key) {
            Err(_) => Err(Memory),
            Ok(false) => Ok(()),
            Ok(true) => match self.list.push(*place) {
                Ok(()) => Ok(()),
                Err(_) => Err(Memory),
            },
        }
    }

    /// The blocks, in their order.
    pub(crate) fn list(&self) -> &[RootPlace]
        ensures { result.now ≡ self.now.list }
    {
        self.list.as_slice()
    }

    /// The blocks alone, in their order.
    pub(crate) fn into_list(self) -> Vec<RootPlace>
        ensures { result.items ≡ self.list }
    {
        self.list
    }
}
