// What uses extents: trees use their root blocks, nodes their children, and files their data.
ghost use Rattle.std.specs.Prelude.{◌≡◌, ◌≤◌, ◌+◌, length, fold, map, replicate, IfOk, OnOk, OnErr};
ghost use Rattle.btr_refs.specs.Counts.{counted};
ghost use Rattle.btr_refs.specs.Forward.{tree_link, file_link, tally_with, root_use, range_uses, item_uses, leaf_uses, child_use, block_uses};
ghost use Rattle.btr_refs.specs.Listed.{tallied, AreTallied};

use crate::counts::add;
use crate::extent_list::ExtentList;
use crate::misusing::keep_all_misused;
use crate::ref_list::place;
use crate::{Counted, RefKey, StoredList, Used};
use btr_base::{Key, Memory, u64_at};
use btr_findings::{Extent, Finding};
use btr_items::{FileExtent, Link, Shape, item};
use btr_node::{Inner, Leaf, Node};
use btr_volume::TreeRoot;
use std::alloc::Global;
use std::collections::{BTreeMap, BTreeSet};
use std::marker::Model;

// Where the owner's id stands in a block's header.
const OWNER: usize = 0x58;

/// The references to extents that are counted: each use of an extent by a tree, a node or a file is one. Most are stored, and
/// are counted beside the list of those; only the others stand in a map. What is wrong with extents by their uses is kept too.
#[derive(Drop)]
pub struct Forward {
    pub(crate) stored: Vec<Counted>,
    pub(crate) times: Vec<u64>,
    pub(crate) others: BTreeMap<RefKey, u64>,
    nodesize: u64,
    extents: ExtentList,
    pub(crate) misused: BTreeSet<Finding>,
}

/// The block that uses extents, and whether it refers to them by its address or by its owner.
#[derive(Clone, Copy)]
pub(crate) struct Origin {
    pub(crate) addr: u64,
    pub(crate) owner: u64,
    pub(crate) by_address: bool,
}

impl Model for Forward {
    ghost use Rattle.btr_refs.specs.Forward.{Tally};
    ghost use Rattle.btr_refs.specs.Listed.{AreTallied, entries_of, tallied};

    ghost Value = { Tally };

    ghost view = { λ forward. record {
      stored = record { nodesize = forward.nodesize; refs = entries_of forward.stored.items; extents = forward.extents };
      uses = record {
        refs = tallied forward.stored.items forward.times.items forward.others.entries;
        misused = forward.misused.keys;
      };
    } };

    ghost invariant = { λ forward. AreTallied forward.stored.items forward.times.items forward.others.entries };
}

// A list of so many zeros. `Memory`: there is no memory for it.
fn zeros(alloc: Global, count: usize) -> Result<Vec<u64>, Memory>
    ensures { IfOk result (λ list. list.items ≡ replicate count 0) }
{
    let mut list = Vec::new(alloc);
    match list.resize(count, 0) {
        Ok(()) => Ok(list),
        Err(_) => Err(Memory),
    }
}

// Counts once more by the number beside a reference that is stored. `Memory`: it is the greatest there is.
fn count_again(times: &mut u64) -> Result<(), Memory>
    ensures ok { OnOk result (times.new ≡ times.old + 1) }
    ensures err { OnErr result (times.new ≡ times.old) }
{
    match times.checked_add(1) {
        Some(more) => {
            *times = more;
            Ok(())
        }
        None => Err(Memory),
    }
}

// Counts a reference once more, beside those that are stored, if it is one of them.
fn count(
    stored: &[Counted],
    times: &mut [u64],
    others: &mut BTreeMap<RefKey, u64>,
    key: RefKey,
) -> Result<(), Memory>
    requires { AreTallied stored.now times.old others.old.entries }
    ensures kept { AreTallied stored.now times.new others.new.entries }
    ensures counted { OnOk result
        (tallied stored.now times.new others.new.entries ≡ counted (tallied stored.now times.old others.old.entries) (record { key = key; count = 1 })) }
{
    match place(stored, &key) {
        Some(at) => count_again(&mut times[at]),
        None => add(others, Counted { key, count: 1 }),
    }
}

// What refers to a child of a node.
fn tree_link(from: &Origin) -> Link
    ensures { result ≡ tree_link from.now }
{
    if from.by_address {
        Link::SharedTree(from.addr)
    } else {
        Link::Tree(from.owner)
    }
}

// What refers to data of a file that would begin at an offset.
fn file_link(from: &Origin, objectid: u64, offset: u64) -> Link
    ensures { result ≡ file_link from.now objectid offset }
{
    if from.by_address {
        Link::SharedFile(from.addr)
    } else {
        Link::File {
            root: from.owner,
            objectid,
            offset,
        }
    }
}

impl Forward {
    ghost use Rattle.std.specs.Prelude.{◌≡◌, ◌≤◌, length, fold, IfOk, OnOk};
    ghost use Rattle.btr_refs.specs.Forward.{nothing_counted, tally_with, root_use, block_uses};

    /// Nothing is counted yet, where these extents and references are stored. `Memory`: there is no memory to count them.
    pub fn new(alloc: Global, stored: StoredList) -> Result<Forward, Memory>
        ensures { IfOk result (λ forward. forward ≡ nothing_counted stored) }
    {
        let refs = stored.refs.into_refs();
        let times = zeros(alloc, refs.len())?;
        Ok(Forward {
            stored: refs,
            times,
            others: BTreeMap::new(alloc),
            nodesize: stored.nodesize,
            extents: stored.extents,
            misused: BTreeSet::new(alloc),
        })
    }

    /// The extents that are stored, in the order of their items, where nothing else is asked any more.
    pub fn into_extents(self) -> Vec<Extent>
        ensures { result.items ≡ self.stored.extents }
    {
        self.extents.into_extents()
    }

    /// Counts a use of the extent at an address. `Memory`: there is no memory for it; then nothing is said of what was counted.
    pub fn use_extent(&mut self, addr: u64, link: Link, used: Used) -> Result<(), Memory>
        ensures { OnOk result (self.new ≡ tally_with self.old (record { addr = addr; link = link; what = used })) }
    {
        count(
            &self.stored,
            &mut self.times,
            &mut self.others,
            RefKey::new(addr, link),
        )?;
        keep_all_misused(&mut self.misused, self.nodesize, &self.extents, addr, used)
    }

    /// Counts the use of a tree's root block, to which it refers by its id. `Memory`: as in `use_extent`.
    pub fn add_root(&mut self, root: &TreeRoot) -> Result<(), Memory>
        ensures { OnOk result (self.new ≡ tally_with self.old (root_use root.now)) }
    {
        let used = Used::TreeBlock(root.place.level);
        self.use_extent(root.place.addr, Link::Tree(root.id), used)
    }

    /// Counts what the block of a level at an address uses: a node its children, and a leaf the data that its files have. Where
    /// `by_address` is true the block refers by its address, and else by its owner. `Memory`: as in `use_extent`.
    pub fn add_block(
        &mut self,
        addr: u64,
        level: u8,
        by_address: bool,
        block: &[u8],
    ) -> Result<(), Memory>
        requires { 101 ≤ length block.now }
        ensures { OnOk result (self.new ≡ fold tally_with self.old (block_uses by_address addr level block.now)) }
    {
        let from = Origin {
            addr,
            owner: u64_at(block, OWNER),
            by_address,
        };
        match Node::view(block) {
            Ok(Node::Leaf(leaf)) => add_items(self, &from, &leaf),
            Ok(Node::Inner(inner)) => add_children(self, &from, level, &inner),
            Err(_) => Ok(()),
        }
    }
}

// Counts a range of a file whose extent has an address; one without is a hole.
fn add_range(
    forward: &mut Forward,
    from: &Origin,
    key: Key,
    place: (u64, u64),
    skip: u64,
) -> Result<(), Memory>
    ensures { OnOk result (forward.new ≡ fold tally_with forward.old (range_uses from.now key place.0 place.1 skip)) }
{
    let (addr, disk_len) = place;
    if addr == 0 {
        return Ok(());
    }
    let link = file_link(from, key.objectid, key.offset.wrapping_sub(skip));
    forward.use_extent(addr, link, Used::Data(disk_len))
}

// Counts the use by an item of a leaf.
fn add_item(forward: &mut Forward, from: &Origin, key: Key, body: &[u8]) -> Result<(), Memory>
    ensures { OnOk result (forward.new ≡ fold tally_with forward.old (item_uses from.now key body.now)) }
{
    if key.kind != item::EXTENT_DATA {
        return Ok(());
    }
    let Ok(extent) = FileExtent::read(key.offset, body) else {
        return Ok(());
    };
    match extent.shape {
        Shape::Inline { .. } => Ok(()),
        Shape::Regular {
            addr,
            disk_len,
            skip,
            ..
        }
        | Shape::Prealloc {
            addr,
            disk_len,
            skip,
            ..
        } => add_range(forward, from, key, (addr, disk_len), skip),
    }
}

// Counts what the items of a leaf use.
fn add_items(forward: &mut Forward, from: &Origin, leaf: &Leaf<'_>) -> Result<(), Memory>
    ensures { OnOk result (forward.new ≡ fold tally_with forward.old (leaf_uses from.now leaf.now)) }
{
    for item in leaf.items_from(0) {
        add_item(forward, from, item.key, item.body)?;
    }
    Ok(())
}

// Counts the children of a node of a level.
fn add_children(
    forward: &mut Forward,
    from: &Origin,
    level: u8,
    node: &Inner<'_>,
) -> Result<(), Memory>
    ensures { OnOk result (forward.new ≡ fold tally_with forward.old (map (child_use from.now level) node.now)) }
{
    let link = tree_link(from);
    let used = Used::TreeBlock(level.saturating_sub(1));
    for i in 0..node.count() {
        forward.use_extent(node.child(i).addr, link, used)?;
    }
    Ok(())
}
