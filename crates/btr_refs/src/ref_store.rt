// References as they come.
ghost use Rattle.std.specs.Prelude.{◌≡◌, [], OnOk};

use crate::{Counted, RefKey};
use btr_base::Memory;
use btr_findings::push;
use btr_items::Link;
use std::alloc::Global;
use std::marker::Model;

/// References with how often each is stored, in the order in which they come.
#[derive(Drop)]
pub(crate) struct RefStore {
    refs: Vec<Counted>,
}

impl Model for RefStore {
    ghost use Rattle.std.specs.Prelude.{[]};
    ghost use Rattle.btr_refs.specs.Counts.{RefCounts, counted_all};

    ghost Value = { RefCounts };

    ghost view = { λ store. counted_all [] store.refs.items };
}

impl RefStore {
    ghost use Rattle.std.specs.Prelude.{◌≡◌, [], OnOk};
    ghost use Rattle.btr_refs.specs.Counts.{counted, counted_all};
    ghost use Rattle.btr_refs.specs.RefKey.{key_of};

    /// None came yet.
    pub(crate) fn new(alloc: Global) -> RefStore
        ensures { result ≡ [] }
    {
        RefStore {
            refs: Vec::new(alloc),
        }
    }

    /// A link to the extent at an address is stored so often. `Memory`: there is no memory for it.
    pub(crate) fn keep(&mut self, addr: u64, link: Link, count: u32) -> Result<(), Memory>
        ensures { OnOk result (self.new ≡ counted self.old (record { key = key_of addr link; count = count })) }
    {
        let key = RefKey::new(addr, link);
        let count = u64::from(count);
        push(&mut self.refs, Counted { key, count })
    }

    /// All that came.
    pub(crate) fn into_refs(self) -> Vec<Counted>
        ensures { counted_all [] result.items ≡ self }
    {
        self.refs
    }
}
