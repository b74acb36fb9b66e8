// The entries of a directory, also behind blocks that can't be had.
ghost use Rattle.std.specs.Prelude.{◌≡◌, ◌≤◌, []};
ghost use Rattle.btr_rack.specs.Rack.{OnlyReads};
ghost use Rattle.btr_read.specs.Serves.{Serves};
ghost use Rattle.btr_read.specs.Store.{SameLoans, free_count};
ghost use Rattle.btr_tour.specs.TourEnds.{IsTourReady, without_leaf};
ghost use Rattle.btr_walk.specs.Reading.{Map, HasCause};
ghost use Rattle.btr_walk.specs.Showing.{item_of};
ghost use Rattle.btr_volume.specs.Looking.{SameVolume};
ghost use Rattle.btr_files.specs.declared.name.NameBuf.{NameBuf};
ghost use Rattle.btr_salvage.specs.Folders.{folder_left, FolderRankFalls, IsFolder, IsFolderOn, IsItemFound, IsLeftOut, MetRankFalls, TellsFound, TellsMet};
ghost use Rattle.btr_salvage.specs.Marks.{folder_tour};

use crate::damage::{Damage, damage_of};
use btr_base::{Key, SumKind};
use btr_files::{DirRow, NameBuf};
use btr_items::{Entry, item};
use btr_rack::Rack;
use btr_read::Store;
use btr_tour::{Met, Rest, Tour, next};
use btr_volume::{TreeRoot, Volume};
use btr_walk::{Found as FoundItem, TreeFault};

/// What is found in a directory.
#[derive(Clone, Copy, Debug)]
pub(crate) enum Found {
    /// Nothing but a block on the way.
    Passing,
    /// An entry.
    Entry(DirRow),
    /// A part of the directory that can't be had.
    Part(Damage),
}

/// How far a directory has been read. It keeps no loan, and may be copied and let go.
#[derive(Clone, Copy)]
pub(crate) struct Folder {
    pub(crate) rest: Rest,
}

// What an item holds, whose name is put into `name`.
fn in_item(met: &FoundItem<'_>, name: &mut NameBuf) -> Found
    ensures { IsItemFound (item_of met.now) name.new result }
{
    match Entry::index(met.body) {
        Ok(entry) => {
            name.set(entry.name(met.body));
            Found::Entry(DirRow {
                index: met.key.offset,
                kind: entry.kind,
                location: entry.location,
            })
        }
        Err(_) => Found::Part(Damage::Malformed(met.block)),
    }
}

// A block that is left out of the tour.
fn left_out(fault: TreeFault) -> Result<Option<Found>, TreeFault>
    ensures { (name : NameBuf) → IsLeftOut fault name result }
{
    match damage_of(fault) {
        Some(damage) => Ok(Some(Found::Part(damage))),
        None => Err(fault),
    }
}

// What a tour of a directory's items meets next.
fn meet_next<R: Rack>(
    tour: &mut Tour,
    rack: &mut R,
    store: &mut Store,
    name: &mut NameBuf,
) -> Result<Option<Found>, TreeFault>
    requires ready { IsTourReady (R.seen rack.old) store.old tour.old }
    requires room { 4 ≤ free_count (without_leaf store.old tour.old) }
    ensures ready { IsTourReady (R.seen rack.new) store.new tour.new }
    ensures reads { OnlyReads (R.seen rack.old) (R.seen rack.new) }
    ensures others { SameLoans (without_leaf store.old tour.old) (without_leaf store.new tour.new) }
    ensures rank_falls { MetRankFalls tour.old tour.new result }
    ensures cause { HasCause store.old.layout (R.seen rack.old) (R.seen rack.new) result }
    ensures content { TellsMet store.old store.new (R.seen rack.old) (R.seen rack.new) tour.old tour.new name.new result }
{
    match next(store, tour, rack)? {
        None => Ok(None),
        Some(met) => match met {
            Met::Block { .. } => Ok(Some(Found::Passing)),
            Met::Child { .. } => Ok(Some(Found::Passing)),
            Met::Item(found) => Ok(Some(in_item(&found, name))),
            Met::Fault(fault) => left_out(fault),
        },
    }
}

impl Folder {
    /// The directory with this inode; nothing is read yet.
    pub(crate) fn new(tree: &TreeRoot, dirid: u64) -> Folder
        ensures folder { IsFolder result }
        ensures program { (B : Map) → folder_left B result ≡ folder_tour tree.now dirid }
        ensures on { (B : Map) → IsFolderOn B [] result }
    {
        let lo = Key {
            objectid: dirid,
            kind: item::DIR_INDEX,
            offset: 0,
        };
        let hi = Key {
            objectid: dirid,
            kind: item::DIR_INDEX,
            offset: u64::MAX,
        };
        Folder {
            rest: Rest::new(&tree.place, lo, hi, SumKind::Crc32c),
        }
    }

    /// Answers what is found next, the name of an entry in `name`; `None` exactly after the last. It takes no memory. Four slots are free.
    ///
    /// A block that can't be had is found as a part, with all that is below it; so is an entry that breaks its form. The fault is `Unread` where no
    /// block came to other bytes than before, and then nothing more may be found.
    pub(crate) fn next<R: Rack>(
        &mut self,
        rack: &mut R,
        vol: &mut Volume,
        name: &mut NameBuf,
    ) -> Result<Option<Found>, TreeFault>
        requires serves { Serves (R.seen rack.old) vol.old.store }
        requires room { 4 ≤ free_count vol.old.store }
        requires folder { IsFolder self.old }
        ensures serves { Serves (R.seen rack.new) vol.new.store }
        ensures reads { OnlyReads (R.seen rack.old) (R.seen rack.new) }
        ensures volume { SameVolume vol.old vol.new }
        ensures folder { IsFolder self.new }
        ensures rank_falls { FolderRankFalls self.old self.new result }
        ensures cause { HasCause vol.old.store.layout (R.seen rack.old) (R.seen rack.new) result }
        ensures content { TellsFound vol.old (R.seen rack.old) (R.seen rack.new) self.old self.new name.new result }
    {
        let mut tour = self.rest.tour(rack, &mut vol.store)?;
        let found = meet_next(&mut tour, rack, &mut vol.store, name);
        let after = tour.rest(&mut vol.store);
        self.rest = after;
        found
    }
}
