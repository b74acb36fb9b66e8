// The walk of trees.
ghost use Rattle.std.specs.Prelude.{◌≡◌, ◌++◌, OnOk};
ghost use Rattle.std.specs.Option.{option_map, option_to_list};
ghost use Rattle.btr_check.specs.Walking.{behind_last, is_nothing, or_last};
ghost use Rattle.btr_check.specs.Walks.{fault_finding, not_apart, range_in};

use crate::block_fault::BlockFault;
use crate::form::broken_in;
use crate::places::MetBlocks;
use crate::subtrees::Edges;
use btr_base::{Key, Memory, SumKind};
use btr_findings::Finding;
use btr_items::{FileExtent, ItemFault, item};
use btr_walk::{Found, RootPlace};
use std::alloc::Global;
use std::marker::Model;

/// The range of a file that an extent has, and the leaf that it stands in.
#[derive(Clone, Copy)]
pub(crate) struct FileRange {
    pub(crate) inode: u64,
    pub(crate) start: u64,
    pub(crate) end: u128,
    pub(crate) leaf: u64,
}

/// What is kept of trees: what is broken in them, the ranges of files that aren't apart, the last range of the tree that is
/// walked, and the blocks that were met.
#[derive(Drop)]
pub struct Walk {
    alloc: Global,
    kind: SumKind,
    broken: Vec<Finding>,
    overlapping: Vec<Finding>,
    last: Option<FileRange>,
    places: MetBlocks,
}

impl Model for Walk {
    ghost use Rattle.btr_check.specs.Walking.{WalkSeen};

    ghost Value = { WalkSeen };

    ghost view = { λ walk. record { kind = walk.kind; broken = walk.broken.items; overlapping = walk.overlapping.items; last = walk.last; places = walk.places } };
}

impl Walk {
    ghost use Rattle.std.specs.Prelude.{◌≡◌, ◌++◌, List, Some, OnOk, IfOk};
    ghost use Rattle.btr_read.specs.Fate.{Fault};
    ghost use Rattle.btr_tour.specs.Tour.{Block, Item, Left};
    ghost use Rattle.btr_walk.specs.Showing.{item_of};
    ghost use Rattle.btr_check.specs.Before.{left_by};
    ghost use Rattle.btr_check.specs.Passing.{passed};
    ghost use Rattle.btr_check.specs.Walking.{nothing_walked, begun, is_nothing, walk_step};
    ghost use Rattle.btr_check.specs.Walks.{range_of};

    /// Nothing was met yet. Checksums are of this kind.
    pub(crate) fn new(alloc: Global, kind: SumKind) -> Walk
        ensures { result ≡ nothing_walked kind }
    {
        Walk {
            alloc,
            kind,
            broken: Vec::new(alloc),
            overlapping: Vec::new(alloc),
            last: None,
            places: MetBlocks::new(alloc),
        }
    }

    /// Another tree begins.
    pub(crate) fn begin(&mut self)
        ensures { self.new ≡ begun self.old }
    {
        self.last = None;
    }

    /// Where memory is taken from.
    pub(crate) fn alloc(&self) -> Global {
        self.alloc
    }

    /// A good block was met.
    pub(crate) fn meet_block(&mut self, place: &RootPlace) -> Result<(), Memory>
        ensures { OnOk result
            ((block : List _) → self.new ≡ walk_step self.old (Block place.now block)) }
    {
        self.places.put(place)
    }

    /// A block was left out.
    pub(crate) fn meet_fault(&mut self, fault: BlockFault) -> Result<(), Memory>
        ensures { OnOk result
            ((f : Fault) → left_by f ≡ Some fault → self.new ≡ walk_step self.old (Left f)) }
    {
        push(&mut self.broken, Some(fault.finding()))
    }

    /// An item was met; the answer is the range of a file that it has.
    pub(crate) fn meet_item(&mut self, found: &Found<'_>) -> Result<Option<FileRange>, Memory>
        ensures seen { OnOk result (self.new ≡ walk_step self.old (Item (item_of found.now))) }
        ensures range { IfOk result (λ range. range ≡ range_of (item_of found.now)) }
    {
        let fault = broken_in(self.alloc, self.kind, found)?;
        push(&mut self.broken, finding_of(fault))?;
        let range = range_in(found.key, found.block, found.body);
        keep_range(&mut self.overlapping, &mut self.last, range)?;
        Ok(range)
    }

    /// A subtree was met again that has nothing wrong: of its ranges of files only those at its
    /// edges can be wrong here.
    pub(crate) fn pass(&mut self, edges: Option<Edges>) -> Result<(), Memory>
        ensures { OnOk result (self.new ≡ passed self.old edges) }
    {
        let Some(edges) = edges else {
            return Ok(());
        };
        let first = Some(edges.first);
        let mut last = self.last;
        keep_range(&mut self.overlapping, &mut last, first)?;
        self.last = Some(edges.last);
        Ok(())
    }

    /// What is broken in the trees: a block that is left out, or the leaf of an item that hasn't its form.
    pub fn broken(&self) -> &[Finding]
        ensures { result.now ≡ self.now.broken }
    {
        self.broken.as_slice()
    }

    /// `Kind::Malformed`, of the leaf of each extent of a file that begins before the end of the one before it.
    pub fn overlapping(&self) -> &[Finding]
        ensures { result.now ≡ self.now.overlapping }
    {
        self.overlapping.as_slice()
    }

    /// Whether nothing is broken in the trees, and the extents of each file are apart.
    pub fn is_sound(&self) -> bool
        ensures { result ≡ is_nothing (self.now.broken ++ self.now.overlapping) }
    {
        is_nothing(self.broken()) && is_nothing(self.overlapping())
    }

    /// Where the blocks stand that were met, in the order that they were first met in, and each once.
    pub fn places(&self) -> &[RootPlace]
        ensures { result.now ≡ self.now.places.list }
    {
        self.places.list()
    }

    /// The same, where nothing else is asked of the walk any more.
    pub(crate) fn into_places(self) -> Vec<RootPlace>
        ensures { result.items ≡ self.places.list }
    {
        self.places.into_list()
    }
}

// Whether nothing was found.
fn is_nothing(list: &[Finding]) -> bool
    ensures { result ≡ is_nothing list.now }
{
    list.is_empty()
}

// The finding of what is wrong with a block.
fn finding_of(fault: Option<BlockFault>) -> Option<Finding>
    ensures { result ≡ option_map fault_finding fault }
{
    match fault {
        None => None,
        Some(fault) => Some(fault.finding()),
    }
}

// Puts a finding behind others.
fn push(list: &mut Vec<Finding>, finding: Option<Finding>) -> Result<(), Memory>
    ensures { OnOk result (list.new.items ≡ list.old.items ++ option_to_list finding) }
{
    let Some(finding) = finding else {
        return Ok(());
    };
    match list.push(finding) {
        Ok(()) => Ok(()),
        Err(_) => Err(Memory),
    }
}

// The range of a file that an item has.
fn range_in(key: Key, leaf: u64, body: &[u8]) -> Option<FileRange>
    ensures { result ≡ range_in key leaf body.now }
{
    if key.kind != item::EXTENT_DATA {
        return None;
    }
    match FileExtent::read(key.offset, body) {
        Err(ItemFault) => None,
        Ok(extent) => Some(FileRange {
            inode: key.objectid,
            start: key.offset,
            end: extent.end(key.offset),
            leaf,
        }),
    }
}

// An extent of a file begins before the end of the one before it.
fn overlap(last: &FileRange, range: &FileRange) -> Option<Finding>
    ensures { result ≡ not_apart (last.now, range.now) }
{
    if last.inode != range.inode || last.end <= u128::from(range.start) {
        None
    } else {
        Some(BlockFault::Malformed(range.leaf).finding())
    }
}

// Keeps the range of a file that an item has.
fn keep_range(
    overlapping: &mut Vec<Finding>,
    last: &mut Option<FileRange>,
    range: Option<FileRange>,
) -> Result<(), Memory>
    ensures overlapping { OnOk result (overlapping.new.items ≡ overlapping.old.items ++ behind_last last.old range) }
    ensures last { OnOk result (last.new ≡ or_last last.old range) }
{
    let Some(range) = range else {
        return Ok(());
    };
    if let Some(before) = *last {
        push(overlapping, overlap(&before, &range))?;
    }
    *last = Some(range);
    Ok(())
}
