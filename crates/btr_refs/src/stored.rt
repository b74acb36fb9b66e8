// What the extent tree says of extents.
ghost use Rattle.std.specs.Prelude.{◌≡◌, ◌≤◌, ◌++◌, length, IsTrue, OnOk};
ghost use Rattle.btr_items.specs.ExtentItem.{extent_item_of};
ghost use Rattle.btr_items.specs.InlineRef.{inline_refs_of};
ghost use Rattle.btr_items.specs.Key as key_rules;
ghost use Rattle.btr_refs.specs.Counts.{counted_all};
ghost use Rattle.btr_refs.specs.Extents.{StoredLaw, is_extent, extent_with, extent_of, extent_in, inline_refs, loose_refs, parts_counted, refs_in};

use crate::StoredList;
use crate::ref_store::RefStore;
use btr_base::{Key, Memory};
use btr_findings::{Extent, push};
use btr_items::{ExtentItem, LooseRef, inline_refs, item, key_fits};
use btr_tour::{Met, Visitor};
use std::alloc::Global;
use std::marker::Model;

/// What a visit of the extent tree meets: the extents, in the order of their items, and how often each reference to an extent is
/// stored, in the extents' items and in items of their own.
#[derive(Drop)]
pub struct Stored {
    nodesize: u64,
    refs: RefStore,
    extents: Vec<Extent>,
}

impl Model for Stored {
    ghost use Rattle.btr_refs.specs.Extents.{KeptExtents};

    ghost Value = { KeptExtents };

    ghost view = { λ stored. record { nodesize = stored.nodesize; refs = stored.refs; extents = stored.extents.items } };
}

impl Stored {
    ghost use Rattle.std.specs.Prelude.{◌≡◌, IfOk};
    ghost use Rattle.btr_refs.specs.Extents.{nothing_kept};

    /// Nothing is stored yet. A node has `nodesize` bytes.
    pub fn new(alloc: Global, nodesize: u64) -> Stored
        ensures { result ≡ nothing_kept nodesize }
    {
        Stored {
            nodesize,
            refs: RefStore::new(alloc),
            extents: Vec::new(alloc),
        }
    }

    /// The same as lists, by which references and extents are found. `Memory`: some references are met again, and there is no memory
    /// for their sums, or one would pass the greatest number there is.
    pub fn into_list(self, alloc: Global) -> Result<StoredList, Memory>
        ensures { IfOk result (λ list. list ≡ self) }
    {
        StoredList::of(alloc, self.nodesize, self.refs.into_refs(), self.extents)
    }
}

// The extent that an item of this key describes.
fn extent_with(nodesize: u64, key: Key, extent: &ExtentItem) -> Extent
    requires kind { IsTrue (is_extent key.kind) }
    requires key { IsTrue (key_rules.key_fits key) }
    ensures { result ≡ extent_with nodesize key extent.now }
{
    let is_metadata = key.kind == item::METADATA_ITEM;
    Extent {
        addr: key.objectid,
        len: if is_metadata { nodesize } else { key.offset },
        refs: extent.refs,
        flags: extent.flags,
        level: if is_metadata {
            Some(key.offset as u8)
        } else {
            extent.level
        },
    }
}

// Keeps the inline references from a place of an extent's item on that have their form.
fn add_inline(refs: &mut RefStore, addr: u64, body: &[u8], first: usize) -> Result<(), Memory>
    requires { first ≤ length body.now }
    ensures { OnOk result (refs.new ≡ counted_all refs.old (parts_counted addr (inline_refs_of first body.now))) }
{
    for part in inline_refs(body, first) {
        if let Ok(part) = part {
            refs.keep(addr, part.link, part.count)?;
        }
    }
    Ok(())
}

// Keeps an extent and the references in its item, if that is one.
fn add_extent(
    refs: &mut RefStore,
    extents: &mut Vec<Extent>,
    nodesize: u64,
    key: Key,
    body: &[u8],
) -> Result<(), Memory>
    requires kind { IsTrue (is_extent key.kind) }
    requires key { IsTrue (key_rules.key_fits key) }
    ensures refs { OnOk result (refs.new ≡ counted_all refs.old (inline_refs key.objectid body.now (extent_item_of key.kind body.now))) }
    ensures extents { OnOk result (extents.new.items ≡ extents.old.items ++ extent_of nodesize key body.now) }
{
    let Ok(extent) = ExtentItem::read(key.kind, body) else {
        return Ok(());
    };
    add_inline(refs, key.objectid, body, extent.first)?;
    push(extents, extent_with(nodesize, key, &extent))
}

// Keeps the reference in an item of its own, if that is one.
fn add_loose(refs: &mut RefStore, key: Key, body: &[u8]) -> Result<(), Memory>
    ensures { OnOk result (refs.new ≡ counted_all refs.old (loose_refs key body.now)) }
{
    match LooseRef::read(key, body) {
        Ok(part) => refs.keep(key.objectid, part.link, part.count),
        Err(_) => Ok(()),
    }
}

// Keeps what an item says of extents.
fn keep(
    refs: &mut RefStore,
    extents: &mut Vec<Extent>,
    nodesize: u64,
    key: Key,
    body: &[u8],
) -> Result<(), Memory>
    requires { IsTrue (key_rules.key_fits key) }
    ensures refs { OnOk result (refs.new ≡ counted_all refs.old (refs_in key body.now)) }
    ensures extents { OnOk result (extents.new.items ≡ extents.old.items ++ extent_in nodesize key body.now) }
{
    match key.kind {
        item::EXTENT_ITEM | item::METADATA_ITEM => add_extent(refs, extents, nodesize, key, body),
        item::TREE_BLOCK_REF
        | item::EXTENT_DATA_REF
        | item::SHARED_BLOCK_REF
        | item::SHARED_DATA_REF => add_loose(refs, key, body),
        _ => Ok(()),
    }
}

impl Visitor<Memory> for Stored {
    ghost use Rattle.btr_refs.specs.Extents.{stored_step};

    ghost step = { stored_step };

    fn meet(&mut self, met: &Met<'_>) -> Result<(), Memory> {
        let Met::Item(found) = met else {
            return Ok(());
        };
        if !key_fits(found.key) {
            return Ok(());
        }
        let (key, body) = (found.key, found.body);
        keep(&mut self.refs, &mut self.extents, self.nodesize, key, body)
    }
}

/// Where the keys of all items keep the rules of their types, what a visit keeps is what the items say. This function is the law: its
/// contract says it, and its body is empty.
pub fn stored_law()
    ensures { StoredLaw }
{}
