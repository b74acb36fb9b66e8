// The entries of a directory.
ghost use Rattle.std.specs.Prelude.{◌≡◌, ◌≤◌, []};
ghost use Rattle.btr_rack.specs.Rack.{OnlyReads};
ghost use Rattle.btr_read.specs.Serves.{Serves};
ghost use Rattle.btr_read.specs.Store.{SameLoans, free_count};
ghost use Rattle.btr_walk.specs.Reading.{Map, HasCause};
ghost use Rattle.btr_walk.specs.ScanEnds.{IsScanReady, without_leaf};
ghost use Rattle.btr_walk.specs.Showing.{item_of};
ghost use Rattle.btr_volume.specs.Looking.{SameVolume};
ghost use Rattle.btr_files.specs.Entries.{entries};
ghost use Rattle.btr_files.specs.Listing.{dir_left, DirRankFalls, IsDirOn, IsDir, IsRow, KeepsName, RowRankFalls, StaysIn};
ghost use Rattle.btr_files.specs.Told.{TellsRow, TellsEntry};

use crate::lookup::key_of;
use crate::{DirRow, NameBuf};
use btr_items::{Entry, item};
use btr_rack::Rack;
use btr_read::Store;
use btr_volume::{TreeRoot, Volume};
use btr_walk::{Found, Rest, Scan, TreeFault, next};

// The entry in an item that was met, whose name is put into `name`.
fn row_found(found: &Found<'_>, name: &mut NameBuf) -> Result<Option<DirRow>, TreeFault>
    ensures row { IsRow (item_of found.now) name.new result }
    ensures name { KeepsName name.old name.new result }
{
    match Entry::index(found.body) {
        Ok(entry) => {
            name.set(entry.name(found.body));
            Ok(Some(DirRow {
                index: found.key.offset,
                kind: entry.kind,
                location: entry.location,
            }))
        }
        Err(_) => Err(TreeFault::Malformed(found.block)),
    }
}

// The next entry of a scan of a directory's items.
fn read_row<R: Rack>(
    scan: &mut Scan,
    rack: &mut R,
    store: &mut Store,
    name: &mut NameBuf,
) -> Result<Option<DirRow>, TreeFault>
    requires ready { IsScanReady (R.seen rack.old) store.old scan.old }
    requires room { 4 ≤ free_count (without_leaf store.old scan.old) }
    ensures ready { IsScanReady (R.seen rack.new) store.new scan.new }
    ensures reads { OnlyReads (R.seen rack.old) (R.seen rack.new) }
    ensures others { SameLoans (without_leaf store.old scan.old) (without_leaf store.new scan.new) }
    ensures lo { scan.new.lo ≡ scan.old.lo }
    ensures hi { scan.new.hi ≡ scan.old.hi }
    ensures name { KeepsName name.old name.new result }
    ensures rank_falls { RowRankFalls scan.old scan.new result }
    ensures cause { HasCause store.old.layout (R.seen rack.old) (R.seen rack.new) result }
    ensures content { TellsRow store.old store.new (R.seen rack.old) (R.seen rack.new)
        scan.old scan.new name.new result }
{
    match next(store, scan, rack)? {
        None => Ok(None),
        Some(found) => row_found(&found, name),
    }
}

/// The entries of a directory, in ascending index. It keeps no loan, and may be copied and let go.
#[derive(Clone, Copy, Debug, PartialEq, Eq)]
pub struct Dir {
    pub(crate) rest: Rest,
}

impl Dir {
    /// The entries of the directory with this inode; nothing is read yet.
    pub fn new(tree: TreeRoot, ino: u64) -> Dir
        ensures dir { IsDir result }
        ensures program { (B : Map) → dir_left B result ≡ entries tree ino }
        ensures on { (B : Map) → IsDirOn B [] result }
    {
        let lo = key_of(ino, item::DIR_INDEX, 0);
        let hi = key_of(ino, item::DIR_INDEX, u64::MAX);
        Dir {
            rest: Rest::new(&tree.place, lo, hi),
        }
    }

    /// Answers the next entry and puts its name into `name`; `None` exactly after the last. It takes no memory. Four slots are free.
    ///
    /// The faults are those of the blocks of the directory's items, in their order: `Lost`, `Unread`, `Unmapped` and `Crosses` of a block, and
    /// `Malformed` where one breaks a rule, doesn't fit its place, or has an entry that breaks its form. After a fault and after the last entry `name`
    /// and the directory are as before, so the next call goes on from the same place.
    pub fn next<R: Rack>(
        &mut self,
        rack: &mut R,
        vol: &mut Volume,
        name: &mut NameBuf,
    ) -> Result<Option<DirRow>, TreeFault>
        requires serves { Serves (R.seen rack.old) vol.old.store }
        requires room { 4 ≤ free_count vol.old.store }
        requires dir { IsDir self.old }
        ensures serves { Serves (R.seen rack.new) vol.new.store }
        ensures reads { OnlyReads (R.seen rack.old) (R.seen rack.new) }
        ensures volume { SameVolume vol.old vol.new }
        ensures dir { IsDir self.new }
        ensures name { KeepsName name.old name.new result }
        ensures place { StaysIn self.old self.new result }
        ensures rank_falls { DirRankFalls self.old self.new result }
        ensures cause { HasCause vol.old.store.layout (R.seen rack.old) (R.seen rack.new) result }
        ensures content { TellsEntry vol.old (R.seen rack.old) (R.seen rack.new) self.old self.new name.new result }
    {
        let mut scan = self.rest.scan();
        match read_row(&mut scan, rack, &mut vol.store, name) {
            Ok(Some(row)) => {
                let after = scan.rest(&mut vol.store);
                self.rest = after;
                Ok(Some(row))
            }
            Ok(None) => {
                scan.finish(&mut vol.store);
                Ok(None)
            }
            Err(fault) => {
                scan.finish(&mut vol.store);
                Err(fault)
            }
        }
    }
}
