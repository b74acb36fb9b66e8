// The owners of an address in a tree, one after another.
ghost use Rattle.std.specs.Prelude.{◌≡◌, ◌≤◌, []};
ghost use Rattle.btr_rack.specs.Rack.{OnlyReads};
ghost use Rattle.btr_read.specs.Serves.{Serves};
ghost use Rattle.btr_read.specs.Store.{SameLoans, free_count};
ghost use Rattle.btr_walk.specs.Reading.{HasCause, Map};
ghost use Rattle.btr_walk.specs.ScanEnds.{IsScanReady, rank_of, without_leaf};
ghost use Rattle.btr_walk.specs.Showing.{item_of};
ghost use Rattle.btr_volume.specs.Looking.{SameVolume};
ghost use Rattle.btr_resolve.specs.Owning as spec;
ghost use Rattle.btr_resolve.specs.Cursor.{owners_left, rank_of_owners, AreOn, AreOwners, FoundRankFalls, Meets, TellsFound, TellsNext, TellsTurn};
ghost use Rattle.btr_resolve.specs.Cursor.{TurnRankFalls};

use crate::extent::position_in;
use crate::owner::{Met, Owner};
use btr_base::{FIRST_KEY, LAST_KEY};
use btr_items::{FileExtent, item};
use btr_rack::Rack;
use btr_read::Store;
use btr_volume::{TreeRoot, Volume};
use btr_walk::{Found, Rest, Scan, TreeFault, next};

// What the next item of a scan comes to.
#[derive(Clone, Copy)]
pub(crate) enum Turn {
    // There is no item any more.
    End,
    // The address isn't in it.
    Other,
    // It is an extent that has the address.
    Owner(Owner),
}

// Where the extents of a file end that were met.
fn end_in(met: &Met, inode: u64) -> u128
    ensures { result ≡ spec.end_in met.now inode }
{
    if met.inode == inode { met.end } else { 0 }
}

// The owner in an item behind the extents that were met, if it is an extent that has the address.
fn owner_in(
    addr: u64,
    tree: &TreeRoot,
    met: &mut Met,
    found: &Found<'_>,
) -> Result<Option<Owner>, TreeFault>
    ensures { Meets addr tree.now met.old (item_of found.now) met.new result }
{
    if found.key.kind != item::EXTENT_DATA {
        return Ok(None);
    }
    let inode = found.key.objectid;
    let start = found.key.offset;
    let Ok(extent) = FileExtent::read(start, found.body) else {
        return Err(TreeFault::Malformed(found.block));
    };
    if u128::from(start) < end_in(met, inode) {
        return Err(TreeFault::Malformed(found.block));
    }
    *met = Met {
        inode,
        end: extent.end(start),
    };
    match position_in(addr, start, &extent) {
        None => Ok(None),
        Some(position) => Ok(Some(Owner {
            tree: *tree,
            inode,
            position,
        })),
    }
}

// What the next item of a scan comes to.
fn next_turn<R: Rack>(
    addr: u64,
    tree: &TreeRoot,
    met: &mut Met,
    scan: &mut Scan,
    rack: &mut R,
    store: &mut Store,
) -> Result<Turn, TreeFault>
    requires ready { IsScanReady (R.seen rack.old) store.old scan.old }
    requires room { 4 ≤ free_count (without_leaf store.old scan.old) }
    ensures ready { IsScanReady (R.seen rack.new) store.new scan.new }
    ensures reads { OnlyReads (R.seen rack.old) (R.seen rack.new) }
    ensures others { SameLoans (without_leaf store.old scan.old) (without_leaf store.new scan.new) }
    ensures lo { scan.new.lo ≡ scan.old.lo }
    ensures hi { scan.new.hi ≡ scan.old.hi }
    ensures rank_falls { TurnRankFalls scan.old scan.new result }
    ensures cause { HasCause store.old.layout (R.seen rack.old) (R.seen rack.new) result }
    ensures content { TellsTurn addr tree.now store.old store.new (R.seen rack.old) (R.seen rack.new)
        scan.old scan.new met.old met.new result }
{
    match next(store, scan, rack)? {
        None => Ok(Turn::End),
        Some(found) => match owner_in(addr, tree, met, &found)? {
            None => Ok(Turn::Other),
            Some(owner) => Ok(Turn::Owner(owner)),
        },
    }
}

// The next owner of a scan.
fn find_owner<R: Rack>(
    addr: u64,
    tree: &TreeRoot,
    met: &mut Met,
    scan: &mut Scan,
    rack: &mut R,
    store: &mut Store,
) -> Result<Option<Owner>, TreeFault>
    requires ready { IsScanReady (R.seen rack.old) store.old scan.old }
    requires room { 4 ≤ free_count (without_leaf store.old scan.old) }
    ensures ready { IsScanReady (R.seen rack.new) store.new scan.new }
    ensures reads { OnlyReads (R.seen rack.old) (R.seen rack.new) }
    ensures others { SameLoans (without_leaf store.old scan.old) (without_leaf store.new scan.new) }
    ensures lo { scan.new.lo ≡ scan.old.lo }
    ensures hi { scan.new.hi ≡ scan.old.hi }
    ensures rank_falls { FoundRankFalls (rank_of scan.old) (rank_of scan.new) result }
    ensures cause { HasCause store.old.layout (R.seen rack.old) (R.seen rack.new) result }
    ensures content { TellsFound addr tree.now store.old store.new (R.seen rack.old) (R.seen rack.new)
        scan.old scan.new met.old met.new result }
{
    loop {
        match next_turn(addr, tree, met, scan, rack, store)? {
            Turn::End => return Ok(None),
            Turn::Other => {}
            Turn::Owner(owner) => return Ok(Some(owner)),
        }
    }
}

/// The owners of an address in a tree, by ascending inode and then position. It keeps no loan, and may be copied and let go.
#[derive(Clone, Copy, Debug)]
pub(crate) struct Owners {
    pub(crate) addr: u64,
    pub(crate) tree: TreeRoot,
    pub(crate) met: Met,
    pub(crate) rest: Rest,
}

impl Owners {
    /// The owners of an address in a tree; nothing is read yet.
    pub(crate) fn new(addr: u64, tree: TreeRoot) -> Owners
        ensures owners { AreOwners result }
        ensures program { (B : Map) → owners_left B result ≡ spec.owners addr tree }
        ensures on { (B : Map) → AreOn B [] result }
    {
        Owners {
            addr,
            tree,
            met: Met { inode: 0, end: 0 },
            rest: Rest::new(&tree.place, FIRST_KEY, LAST_KEY),
        }
    }

    /// Answers the next owner; `None` exactly after the last. It takes no memory. Four slots are free.
    ///
    /// The faults are those of the blocks of the tree, in their order: `Lost`, `Unread`, `Unmapped` and `Crosses` of a block, and `Malformed` where one
    /// breaks a rule, doesn't fit its place, or has an extent that breaks its form or begins before the end of the one before.
    pub(crate) fn next<R: Rack>(
        &mut self,
        rack: &mut R,
        vol: &mut Volume,
    ) -> Result<Option<Owner>, TreeFault>
        requires serves { Serves (R.seen rack.old) vol.old.store }
        requires room { 4 ≤ free_count vol.old.store }
        requires owners { AreOwners self.old }
        ensures serves { Serves (R.seen rack.new) vol.new.store }
        ensures reads { OnlyReads (R.seen rack.old) (R.seen rack.new) }
        ensures volume { SameVolume vol.old vol.new }
        ensures owners { AreOwners self.new }
        ensures rank_falls { FoundRankFalls (rank_of_owners self.old) (rank_of_owners self.new) result }
        ensures cause { HasCause vol.old.store.layout (R.seen rack.old) (R.seen rack.new) result }
        ensures content { TellsNext vol.old (R.seen rack.old) (R.seen rack.new) self.old self.new result }
    {
        let mut scan = self.rest.scan();
        match find_owner(
            self.addr,
            &self.tree,
            &mut self.met,
            &mut scan,
            rack,
            &mut vol.store,
        ) {
            Ok(Some(owner)) => {
                self.rest = scan.rest(&mut vol.store);
                Ok(Some(owner))
            }
            Ok(None) => {
                scan.finish(&mut vol.store);
                Ok(None)
            }
            Err(fault) => {
                scan.finish(&mut vol.store);
                Err(fault)
            }
        }
    }
}
