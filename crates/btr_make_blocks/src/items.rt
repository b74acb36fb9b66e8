use crate::Body;
use btr_base::Key;
use std::alloc::{AllocError, Global};
use std::collections::BTreeMap;

/// An item of a tree.
#[derive(Debug, Drop)]
pub struct Item {
    pub key: Key,
    pub body: Body,
}

/// The items of a tree, by their keys.
#[derive(Drop)]
pub struct Items {
    alloc: Global,
    bodies: BTreeMap<Key, Body>,
}

impl Items {
    /// No items.
    pub fn new(alloc: Global) -> Items {
        Items {
            alloc,
            bodies: BTreeMap::new(alloc),
        }
    }

    /// How many items there are.
    pub fn len(&self) -> usize {
        self.bodies.len()
    }

    /// Whether there are none.
    pub fn is_empty(&self) -> bool {
        self.bodies.is_empty()
    }

    /// Puts an item, in the place of one with this key. `AllocError`: want of memory.
    pub fn put(
        &mut self,
        objectid: u64,
        kind: u8,
        offset: u64,
        body: Body,
    ) -> Result<(), AllocError> {
        let key = Key {
            objectid,
            kind,
            offset,
        };
        self.bodies.insert(key, body)?;
        Ok(())
    }

    /// Appends a part to the body of the item with this key, as entries with one hash stand together, or puts it.
    /// `AllocError`: want of memory, and there may be no item with this key any more.
    pub fn append(
        &mut self,
        objectid: u64,
        kind: u8,
        offset: u64,
        part: &Body,
    ) -> Result<(), AllocError> {
        let key = Key {
            objectid,
            kind,
            offset,
        };
        let body = self.bodies.remove(&key).unwrap_or(Body::new(self.alloc));
        self.bodies.insert(key, body.bytes(part.as_slice())?)?;
        Ok(())
    }

    /// The items in the order of their keys.
    pub(crate) fn into_list(self) -> Result<Vec<Item>, AllocError> {
        let Items { alloc, bodies } = self;
        let mut list = Vec::new(alloc);
        for (key, body) in bodies {
            list.push(Item { key, body })?;
        }
        Ok(list)
    }
}
