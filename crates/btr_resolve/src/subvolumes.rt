// The ids of all subvolumes.
ghost use Rattle.std.specs.Prelude.{◌≡◌, ◌-◌, [], OnOk, length, slice_get};
ghost use Rattle.btr_resolve.specs.Resolving as spec;
ghost use Rattle.btr_volume.specs.Readable.{CanRead};
ghost use Rattle.btr_resolve.specs.Running.{RanBeside, listed};

use btr_base::{FIRST_KEY, Key, LAST_KEY, Memory};
use btr_items::item;
use btr_rack::Rack;
use btr_volume::{Stop, Volume, root_root};
use btr_walk::{FoldFault, Folder, Found, Took, fold};
use std::alloc::Global;
use std::marker::Model;

// The id of the first tree of files, and the least and the greatest id of the other subvolumes.
const TOP_SUBVOLUME: u64 = 5;

const FIRST_SUBVOLUME: u64 = 256;

const LAST_SUBVOLUME: u64 = u64::MAX - 255;

/// Ids, ascending. Clauses see them as a list.
#[derive(Drop)]
pub(crate) struct IdList {
    ids: Vec<u64>,
}

impl Model for IdList {
    ghost use Rattle.std.specs.Prelude.{List, ℕ};

    ghost Value = { List ℕ };

    ghost view = { λ list. list.ids.items };
}

// Whether this is the key of an item with the root of a subvolume.
fn is_subvolume(key: Key) -> bool
    ensures { result ≡ spec.is_subvolume key }
{
    let id = key.objectid;
    key.kind == item::ROOT_ITEM
        && (id == TOP_SUBVOLUME || FIRST_SUBVOLUME <= id && id <= LAST_SUBVOLUME)
}

impl IdList {
    // A list without ids, which has no memory yet.
    fn new(alloc: Global) -> IdList
        ensures { result ≡ [] }
    {
        IdList {
            ids: Vec::new(alloc),
        }
    }

    /// The ids.
    pub(crate) fn as_slice(&self) -> &[u64]
        ensures { result.now ≡ self.now }
    {
        self.ids.as_slice()
    }

    // Whether the last id is this one.
    fn ends_with(&self, id: u64) -> bool
        ensures { result ≡ spec.is_id id (slice_get self.now (length self.now - 1)) }
    {
        match self.ids.as_slice().last() {
            None => false,
            Some(last) => *last == id,
        }
    }

    // Adds the id of an item, if it has the root of a subvolume that isn't there yet.
    fn add(&mut self, key: Key) -> Result<(), Memory>
        ensures { OnOk result (self.new ≡ spec.with_id self.old key) }
    {
        if !is_subvolume(key) || self.ends_with(key.objectid) {
            return Ok(());
        }
        match self.ids.push(key.objectid) {
            Ok(()) => Ok(()),
            Err(_) => Err(Memory),
        }
    }
}

impl Folder<IdList, Memory> for IdList {
    ghost use Rattle.btr_walk.specs.Folds.{Go};
    ghost use Rattle.btr_resolve.specs.Resolving.{with_id};

    ghost step = { λ ids item. Go (with_id ids item.key) };

    ghost answer = { λ ids. ids };

    fn take(&mut self, item: &Found<'_>) -> Result<Took<IdList>, Memory> {
        self.add(item.key)?;
        Ok(Took::Go)
    }

    fn end(self) -> IdList {
        self
    }
}

/// The ids of all subvolumes, ascending. The memory is that of the list.
pub(crate) fn subvolumes<R: Rack>(
    alloc: Global,
    rack: &mut R,
    vol: &mut Volume,
) -> Result<IdList, Stop>
    requires { CanRead 4 (R.seen rack.old) vol.old }
    ensures { RanBeside (spec.subvolumes vol.old.sup) (R.seen rack.old) vol.old (R.seen rack.new) vol.new result }
{
    let root = root_root(&vol.sup);
    let list = IdList::new(alloc);
    match fold(&root, FIRST_KEY, LAST_KEY, rack, &mut vol.store, list) {
        Ok(ids) => Ok(ids),
        Err(FoldFault::Tree(fault)) => Err(Stop::Tree(fault)),
        Err(FoldFault::Own(_)) => Err(Stop::Memory),
    }
}
