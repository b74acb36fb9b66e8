// The names of an inode, kept one behind another.
ghost use Rattle.std.specs.Prelude.{◌≡◌, ◌<◌, ◌++◌, ◌∷◌, [], length, OnOk};
ghost use Rattle.std.specs.List.{HoldsAt};
ghost use Rattle.btr_files.specs.Names.{link};

use btr_base::Memory;
use std::alloc::Global;
use std::marker::Model;
use std::mem;

/// A name of an inode: the inode of its directory, its index there, and its bytes.
#[derive(Clone, Copy, Debug)]
pub struct NameRef<'a> {
    /// The inode of its directory.
    pub parent: u64,
    /// Its index there.
    pub index: u64,
    /// Its bytes.
    pub name: &'a [u8],
}

// A name of an inode, whose bytes stand among those of all names.
#[derive(Clone, Copy, Debug)]
pub(crate) struct NamePlace {
    pub(crate) parent: u64,
    pub(crate) index: u64,
    pub(crate) at: usize,
    pub(crate) len: usize,
}

/// Names of an inode, in the order in which they were added. Its memory grows with them, and stays with it for those of the next inode. Clauses see
/// the list of the names.
#[derive(Drop)]
pub struct NameList {
    alloc: Global,
    places: Vec<NamePlace>,
    bytes: Vec<u8>,
}

impl Model for NameList {
    ghost use Rattle.std.specs.Prelude.{List, All, length, map};
    ghost use Rattle.btr_files.specs.Gathering.{IsNameWithin, link_at};
    ghost use Rattle.btr_files.specs.Names.{Link};

    ghost Value = { List Link };

    ghost view = { λ list. map (link_at list.bytes.items) list.places.items };

    ghost invariant = { λ list. All (IsNameWithin (length list.bytes.items)) list.places.items };
}

impl NameList {
    /// A list without names, which has no memory yet.
    pub fn new(alloc: Global) -> NameList
        ensures { result ≡ [] }
    {
        NameList {
            alloc,
            places: Vec::new(alloc),
            bytes: Vec::new(alloc),
        }
    }

    /// How many names there are.
    pub fn len(&self) -> usize
        ensures { result ≡ length self.now }
    {
        self.places.len()
    }

    /// The name at the place `i`, counted from 0.
    pub fn get(&self, i: usize) -> NameRef<'_>
        requires { i < length self.now }
        ensures { HoldsAt (λ found. found ≡ link result.parent result.index result.name.now) self.now i }
    {
        let place = self.places[i];
        NameRef {
            parent: place.parent,
            index: place.index,
            name: &self.bytes[place.at..place.at + place.len],
        }
    }

    /// Adds a name behind the others.
    pub fn push(&mut self, parent: u64, index: u64, name: &[u8]) -> Result<(), Memory>
        ensures { OnOk result (self.new ≡ self.old ++ link parent index name.now ∷ []) }
    {
        let at = self.bytes.len();
        if self.bytes.extend_from_slice(name).is_err() {
            return Err(Memory);
        }
        let place = NamePlace {
            parent,
            index,
            at,
            len: name.len(),
        };
        if self.places.push(place).is_err() {
            return Err(Memory);
        }
        Ok(())
    }

    // The memory of the list, without a name; the list itself has none then.
    pub(crate) fn emptied(&mut self) -> NameList
        ensures { result ≡ [] }
    {
        let mut places = mem::replace(&mut self.places, Vec::new(self.alloc));
        let mut bytes = mem::replace(&mut self.bytes, Vec::new(self.alloc));
        places.clear();
        bytes.clear();
        NameList {
            alloc: self.alloc,
            places,
            bytes,
        }
    }
}
