// What an item says of a name.
ghost use Rattle.std.specs.Prelude.{◌≡◌};
ghost use Rattle.btr_check_names.specs.Entry.{entry_of, ref_of};
ghost use Rattle.btr_check_names.specs.Pairs.{entry_claim, link_claim, ref_claim};

use crate::mode_at::mode_of_kind;
use crate::{DirEntry, LinkName, Target};
use btr_items::item;

/// What an item says of a name, but for the name itself: in which directory it stands, at which offset, and where it leads. Two items
/// that belong together claim the same. Claims are ordered field by field.
#[derive(Clone, Copy, Debug, PartialEq, Eq, PartialOrd, Ord)]
pub(crate) struct Claim {
    /// The inode of the directory.
    pub(crate) dir: u64,
    /// The index of the name in the directory, or the hash of the name.
    pub(crate) offset: u64,
    pub(crate) target: Target,
    /// The kind of an entry, or the kind of a file as its mode says it.
    pub(crate) kind: u32,
}

impl Claim {
    /// What an entry of a directory says.
    pub(crate) fn of_entry(entry: &DirEntry<'_>) -> Claim
        ensures { result ≡ entry_claim (entry_of entry.now) }
    {
        Claim {
            dir: entry.dir,
            offset: entry.offset,
            target: entry.target,
            kind: u32::from(entry.kind),
        }
    }

    /// What an entry that leads to an inode says of the inode.
    pub(crate) fn of_link(entry: &DirEntry<'_>) -> Claim
        ensures { result ≡ link_claim (entry_of entry.now) }
    {
        Claim {
            dir: entry.dir,
            offset: entry.offset,
            target: inode_target(entry.target.objectid),
            kind: mode_of_kind(entry.kind),
        }
    }

    /// What a reference says of its inode, whose mode has this kind of a file.
    pub(crate) fn of_ref(link: &LinkName<'_>, format: u32) -> Claim
        ensures { result ≡ ref_claim format (ref_of link.now) }
    {
        Claim {
            dir: link.parent,
            offset: link.index,
            target: inode_target(link.inode),
            kind: format,
        }
    }
}

// Where an entry leads whose inode has a number.
fn inode_target(number: u64) -> Target
    ensures { result ≡ record { objectid = number; kind = 1; offset = 0 } }
{
    Target {
        objectid: number,
        kind: item::INODE_ITEM,
        offset: 0,
    }
}
