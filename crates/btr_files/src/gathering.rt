// All names of an inode.
ghost use Rattle.std.specs.Prelude.{◌≡◌, ◌≤◌};
ghost use Rattle.btr_rack.specs.Rack.{OnlyReads};
ghost use Rattle.btr_read.specs.Serves.{Serves};
ghost use Rattle.btr_read.specs.Store.{free_count};
ghost use Rattle.btr_walk.specs.Folding.{FoldCause};
ghost use Rattle.btr_volume.specs.Looking.{SameVolume};
ghost use Rattle.btr_items.specs.ExtRef.{ext_refs_of};
ghost use Rattle.btr_items.specs.InodeRef.{inode_refs_of};
ghost use Rattle.btr_files.specs.Names.{ext_link, inode_link, links, links_of};
ghost use Rattle.btr_files.specs.Gathering.{links_more, parts_linked, IsGathered, TellsNames};

use crate::NameList;
use crate::lookup::key_of;
use btr_base::{Key, Memory};
use btr_items::{ext_refs, inode_refs, item};
use btr_rack::Rack;
use btr_volume::{TreeRoot, Volume};
use btr_walk::{FoldFault, Folder, Found, Took, fold};

// Adds the names in an INODE_REF of this directory; `false` where one breaks its form.
fn add_refs(body: &[u8], parent: u64, list: &mut NameList) -> Result<bool, Memory>
    ensures { IsGathered (parts_linked (inode_link parent body.now) list.old (inode_refs_of body.now)) list.new result }
{
    let mut parts = inode_refs(body);
    while let Some(part) = parts.next() {
        match part {
            Ok(part) => list.push(parent, part.index, part.name(body))?,
            Err(_) => return Ok(false),
        }
    }
    Ok(true)
}

// Adds the names in an INODE_EXTREF; `false` where one breaks its form.
fn add_ext_refs(body: &[u8], list: &mut NameList) -> Result<bool, Memory>
    ensures { IsGathered (parts_linked (ext_link body.now) list.old (ext_refs_of body.now)) list.new result }
{
    let mut parts = ext_refs(body);
    while let Some(part) = parts.next() {
        match part {
            Ok(part) => list.push(part.parent, part.index, part.name(body))?,
            Err(_) => return Ok(false),
        }
    }
    Ok(true)
}

// Adds the names in an item; `false` where it breaks its form.
fn add_names(key: Key, body: &[u8], list: &mut NameList) -> Result<bool, Memory>
    ensures { IsGathered (links_more list.old (links_of key body.now)) list.new result }
{
    if body.is_empty() {
        return Ok(false);
    }
    if key.kind == item::INODE_REF {
        add_refs(body, key.offset, list)
    } else {
        add_ext_refs(body, list)
    }
}

impl Folder<NameList, Memory> for NameList {
    ghost use Rattle.btr_files.specs.Gathering.{names_step};

    ghost step = { names_step };

    ghost answer = { λ found. found };

    fn take(&mut self, item: &Found<'_>) -> Result<Took<NameList>, Memory> {
        if add_names(item.key, item.body, self)? {
            Ok(Took::Go)
        } else {
            Ok(Took::Broken)
        }
    }

    fn end(self) -> NameList {
        self
    }
}

/// Puts all names of an inode into a list, in the order of the keys and in an item in that of its bytes; those that were there are gone. The list's
/// memory is used again, and four slots are free.
///
/// `Tree`: the faults are those of the blocks that are read, in their order: `Lost`, `Unread`, `Unmapped` and `Crosses` of a block, and `Malformed`
/// where one breaks a rule, doesn't fit its place, or has an item that breaks its form. `Own`: there is no memory for the names. Of the list nothing
/// is said then.
pub fn names<R: Rack>(
    tree: &TreeRoot,
    ino: u64,
    list: &mut NameList,
    rack: &mut R,
    vol: &mut Volume,
) -> Result<(), FoldFault<Memory>>
    requires serves { Serves (R.seen rack.old) vol.old.store }
    requires room { 4 ≤ free_count vol.old.store }
    ensures serves { Serves (R.seen rack.new) vol.new.store }
    ensures reads { OnlyReads (R.seen rack.old) (R.seen rack.new) }
    ensures volume { SameVolume vol.old vol.new }
    ensures cause { FoldCause vol.old.store.layout (R.seen rack.old) (R.seen rack.new) result }
    ensures content { TellsNames vol.old (R.seen rack.old) (R.seen rack.new) (links tree.now ino) list.new result }
{
    let lo = key_of(ino, item::INODE_REF, 0);
    let hi = key_of(ino, item::INODE_EXTREF, u64::MAX);
    *list = fold(&tree.place, lo, hi, rack, &mut vol.store, list.emptied())?;
    Ok(())
}
