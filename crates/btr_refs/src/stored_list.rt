// What the extent tree says of extents, as lists.
use crate::Counted;
use crate::extent_list::ExtentList;
use crate::ref_list::RefList;
use btr_base::Memory;
use btr_findings::Extent;
use std::alloc::Global;
use std::marker::Model;

/// The extents of the extent tree, in the order of their items, and the references to them that it stores, in their order and each once.
#[derive(Drop)]
pub struct StoredList {
    pub(crate) nodesize: u64,
    pub(crate) refs: RefList,
    pub(crate) extents: ExtentList,
}

impl Model for StoredList {
    ghost use Rattle.btr_refs.specs.Extents.{KeptExtents};

    ghost Value = { KeptExtents };

    ghost view = { λ list. record { nodesize = list.nodesize; refs = list.refs; extents = list.extents } };
}

impl StoredList {
    ghost use Rattle.std.specs.Prelude.{◌≡◌, [], IfOk};
    ghost use Rattle.btr_refs.specs.Counts.{counted_all};
    ghost use Rattle.btr_refs.specs.Listed.{entries_of, Ascends};

    // References as they came, and extents. `Memory`: as `RefList::of` says.
    pub(crate) fn of(
        alloc: Global,
        nodesize: u64,
        refs: Vec<Counted>,
        extents: Vec<Extent>,
    ) -> Result<StoredList, Memory>
        ensures { IfOk result (λ list. list ≡ record { nodesize = nodesize; refs = counted_all [] refs.items; extents = extents.items }) }
    {
        Ok(StoredList {
            nodesize,
            refs: RefList::of(alloc, refs)?,
            extents: ExtentList::new(extents),
        })
    }

    /// The references, in their order.
    pub fn refs(&self) -> &[Counted]
        ensures ascends { Ascends result.now }
        ensures same { entries_of result.now ≡ self.now.refs }
    {
        self.refs.as_slice()
    }

    /// The extents, in the order of their items.
    pub fn extents(&self) -> &[Extent]
        ensures { result.now ≡ self.now.extents }
    {
        self.extents.as_slice()
    }
}
