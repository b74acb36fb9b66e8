// The names of inodes and of subvolumes.
ghost use Rattle.std.specs.Prelude.{◌≡◌, ◌≤◌};
ghost use Rattle.btr_rack.specs.Rack.{OnlyReads};
ghost use Rattle.btr_read.specs.Serves.{Serves};
ghost use Rattle.btr_read.specs.Store.{free_count};
ghost use Rattle.btr_walk.specs.Reading.{HasCause};
ghost use Rattle.btr_volume.specs.Looking.{SameVolume};
ghost use Rattle.btr_files.specs.Names.{ext_link, inode_link, linked, links_of, mounted};
ghost use Rattle.btr_files.specs.Steps.{link_in, links_met, parts_met};
ghost use Rattle.btr_items.specs.ExtRef.{ext_refs_of};
ghost use Rattle.btr_items.specs.InodeRef.{inode_refs_of};
ghost use Rattle.btr_files.specs.Told.{TellsLink, TellsMount};

use crate::NameBuf;
use crate::lookup::{key_of, lookup};
use crate::met::{Met, Wanted};
use btr_base::Key;
use btr_items::{RootRef, ext_refs, inode_refs, item};
use btr_rack::Rack;
use btr_volume::{TreeRoot, Volume, root_root};
use btr_walk::{Folder, Found, Took, TreeFault};
use std::convert::Infallible;

// The names met with those of an INODE_REF of this directory, or nothing where one breaks its form.
fn with_refs(body: &[u8], parent: u64, wanted: &Wanted, met: Met) -> Option<Met>
    ensures { result ≡ parts_met (link_in wanted.now) (inode_link parent body.now) met (inode_refs_of body.now) }
{
    let mut met = met;
    let mut parts = inode_refs(body);
    while let Some(part) = parts.next() {
        match part {
            Ok(part) => met = met.with(wanted.is(parent, part.index, part.name(body))),
            Err(_) => return None,
        }
    }
    Some(met)
}

// The names met with those of an INODE_EXTREF, or nothing where one breaks its form.
fn with_ext_refs(body: &[u8], wanted: &Wanted, met: Met) -> Option<Met>
    ensures { result ≡ parts_met (link_in wanted.now) (ext_link body.now) met (ext_refs_of body.now) }
{
    let mut met = met;
    let mut parts = ext_refs(body);
    while let Some(part) = parts.next() {
        match part {
            Ok(part) => met = met.with(wanted.is(part.parent, part.index, part.name(body))),
            Err(_) => return None,
        }
    }
    Some(met)
}

// The names met with those of an item, or nothing where it breaks its form.
fn with_names(key: Key, body: &[u8], wanted: &Wanted, met: Met) -> Option<Met>
    ensures { result ≡ links_met (link_in wanted.now) met (links_of key body.now) }
{
    if body.is_empty() {
        return None;
    }
    if key.kind == item::INODE_REF {
        with_refs(body, key.offset, wanted, met)
    } else {
        with_ext_refs(body, wanted, met)
    }
}

/// A search of all names of an inode for one that is wanted.
#[derive(Drop)]
pub(crate) struct LinkSearch {
    pub(crate) wanted: Wanted,
    pub(crate) met: Met,
}

impl Folder<bool, Infallible> for LinkSearch {
    ghost use Rattle.btr_files.specs.Steps.{is_one, link_step};

    ghost step = { link_step };

    ghost answer = { λ search. is_one search.met };

    fn take(&mut self, item: &Found<'_>) -> Result<Took<bool>, Infallible> {
        match with_names(item.key, item.body, &self.wanted, self.met) {
            Some(met) => {
                self.met = met;
                Ok(Took::Go)
            }
            None => Ok(Took::Broken),
        }
    }

    fn end(self) -> bool {
        self.met.is_one()
    }
}

/// A search of all names of a subvolume for one that is wanted.
#[derive(Drop)]
pub(crate) struct MountSearch {
    pub(crate) tree: u64,
    pub(crate) wanted: Wanted,
    pub(crate) met: Met,
}

impl Folder<bool, Infallible> for MountSearch {
    ghost use Rattle.btr_files.specs.Steps.{is_one, mount_step};

    ghost step = { mount_step };

    ghost answer = { λ search. is_one search.met };

    fn take(&mut self, item: &Found<'_>) -> Result<Took<bool>, Infallible> {
        match RootRef::read(item.body) {
            Ok(part) => {
                let is_link = self
                    .wanted
                    .is(part.dirid, part.sequence, part.name(item.body));
                self.met = self.met.with(item.key.offset == self.tree && is_link);
                Ok(Took::Go)
            }
            Err(_) => Ok(Took::Broken),
        }
    }

    fn end(self) -> bool {
        self.met.is_one()
    }
}

/// Answers whether an inode has one name in all, and it is this one: in the directory `parent`, at this index there. All names of the inode are read.
/// It takes no memory, and four slots are free.
///
/// The faults are those of the blocks that are read, in their order: `Lost`, `Unread`, `Unmapped` and `Crosses` of a block, and `Malformed` where one
/// breaks a rule, doesn't fit its place, or has an item that breaks its form.
pub fn linked<R: Rack>(
    tree: &TreeRoot,
    ino: u64,
    parent: u64,
    index: u64,
    name: &NameBuf,
    rack: &mut R,
    vol: &mut Volume,
) -> Result<bool, TreeFault>
    requires serves { Serves (R.seen rack.old) vol.old.store }
    requires room { 4 ≤ free_count vol.old.store }
    ensures serves { Serves (R.seen rack.new) vol.new.store }
    ensures reads { OnlyReads (R.seen rack.old) (R.seen rack.new) }
    ensures volume { SameVolume vol.old vol.new }
    ensures cause { HasCause vol.old.store.layout (R.seen rack.old) (R.seen rack.new) result }
    ensures content { TellsLink vol.old (R.seen rack.old) (R.seen rack.new) parent index name.now tree.now ino result }
{
    let wanted = Wanted {
        parent,
        index,
        name: *name,
    };
    let lo = key_of(ino, item::INODE_REF, 0);
    let hi = key_of(ino, item::INODE_EXTREF, u64::MAX);
    let search = LinkSearch {
        wanted,
        met: Met::None,
    };
    lookup(&tree.place, lo, hi, rack, vol, search)
}

/// Answers whether a subvolume has one name in all, and it is this one: in the tree `parent`, in its directory `dirid`, at this index there. All names
/// of the subvolume are read. It takes no memory, and four slots are free.
///
/// The faults are those of the blocks that are read, in their order: `Lost`, `Unread`, `Unmapped` and `Crosses` of a block, and `Malformed` where one
/// breaks a rule, doesn't fit its place, or has an item that breaks its form.
pub fn mounted<R: Rack>(
    id: u64,
    parent: u64,
    dirid: u64,
    index: u64,
    name: &NameBuf,
    rack: &mut R,
    vol: &mut Volume,
) -> Result<bool, TreeFault>
    requires serves { Serves (R.seen rack.old) vol.old.store }
    requires room { 4 ≤ free_count vol.old.store }
    ensures serves { Serves (R.seen rack.new) vol.new.store }
    ensures reads { OnlyReads (R.seen rack.old) (R.seen rack.new) }
    ensures volume { SameVolume vol.old vol.new }
    ensures cause { HasCause vol.old.store.layout (R.seen rack.old) (R.seen rack.new) result }
    ensures content { TellsMount vol.old (R.seen rack.old) (R.seen rack.new) parent dirid index name.now id result }
{
    let wanted = Wanted {
        parent: dirid,
        index,
        name: *name,
    };
    let lo = key_of(id, item::ROOT_BACKREF, 0);
    let hi = key_of(id, item::ROOT_BACKREF, u64::MAX);
    let search = MountSearch {
        tree: parent,
        wanted,
        met: Met::None,
    };
    let root = root_root(&vol.sup);
    lookup(&root, lo, hi, rack, vol, search)
}
