// The inode of a number.
ghost use Rattle.std.specs.Prelude.{◌≤◌};
ghost use Rattle.btr_rack.specs.Rack.{OnlyReads};
ghost use Rattle.btr_read.specs.Serves.{Serves};
ghost use Rattle.btr_read.specs.Store.{free_count};
ghost use Rattle.btr_walk.specs.Reading.{HasCause};
ghost use Rattle.btr_volume.specs.Looking.{Looks, SameVolume};
ghost use Rattle.btr_files.specs.Names.{inode_in};

use crate::lookup::{key_of, lookup};
use btr_items::{Inode, item};
use btr_rack::Rack;
use btr_volume::{TreeRoot, Volume};
use btr_walk::{Folder, Found, Took, TreeFault};
use std::convert::Infallible;

/// A search of an inode's item.
#[derive(Drop)]
pub(crate) struct InodeSearch {}

impl Folder<Option<Inode>, Infallible> for InodeSearch {
    ghost use Rattle.std.specs.Prelude.{None};
    ghost use Rattle.btr_files.specs.Steps.{inode_step};

    ghost step = { inode_step };

    ghost answer = { λ search. None };

    fn take(&mut self, item: &Found<'_>) -> Result<Took<Option<Inode>>, Infallible> {
        match Inode::read(item.body) {
            Ok(inode) => Ok(Took::End(Some(inode))),
            Err(_) => Ok(Took::Broken),
        }
    }

    fn end(self) -> Option<Inode> {
        None
    }
}

/// Answers the inode with a number; `None` exactly where the tree has no item for it. It takes no memory, and four slots are free.
///
/// The faults are those of the blocks that are read, in their order: `Lost`, `Unread`, `Unmapped` and `Crosses` of a block, and `Malformed` where one
/// breaks a rule, doesn't fit its place, or has an item that breaks its form.
pub fn inode<R: Rack>(
    tree: &TreeRoot,
    ino: u64,
    rack: &mut R,
    vol: &mut Volume,
) -> Result<Option<Inode>, TreeFault>
    requires serves { Serves (R.seen rack.old) vol.old.store }
    requires room { 4 ≤ free_count vol.old.store }
    ensures serves { Serves (R.seen rack.new) vol.new.store }
    ensures reads { OnlyReads (R.seen rack.old) (R.seen rack.new) }
    ensures volume { SameVolume vol.old vol.new }
    ensures cause { HasCause vol.old.store.layout (R.seen rack.old) (R.seen rack.new) result }
    ensures content { Looks vol.old.store.layout (R.seen rack.old) (R.seen rack.new) (inode_in tree.now ino) result }
{
    let key = key_of(ino, item::INODE_ITEM, 0);
    lookup(&tree.place, key, key, rack, vol, InodeSearch {})
}
