// An entry of a directory.
ghost use Rattle.std.specs.Prelude.{◌≡◌};
ghost use Rattle.btr_check_names.specs.Entry as spec;

use btr_base::Key;

/// Where an entry leads: a key whose parts are ordered one after another.
#[derive(Clone, Copy, Debug, PartialEq, Eq, PartialOrd, Ord)]
pub(crate) struct Target {
    pub(crate) objectid: u64,
    pub(crate) kind: u8,
    pub(crate) offset: u64,
}

/// An entry of a directory. Entries are ordered field by field.
#[derive(Clone, Copy, Debug, PartialEq, Eq, PartialOrd, Ord)]
pub(crate) struct DirEntry<'a> {
    /// The inode of the directory.
    pub(crate) dir: u64,
    /// The offset of its item's key: the entry's index, or the hash of its name.
    pub(crate) offset: u64,
    /// The inode, or the subvolume's root item, that it leads to.
    pub(crate) target: Target,
    /// 1 file, 2 directory, 3 character device, 4 block device, 5 pipe, 6 socket, 7 symbolic link.
    pub(crate) kind: u8,
    pub(crate) name: &'a [u8],
}

impl Target {
    /// The key where an entry leads.
    pub(crate) fn of(key: Key) -> Target
        ensures { spec.location_of result ≡ key }
    {
        Target {
            objectid: key.objectid,
            kind: key.kind,
            offset: key.offset,
        }
    }
}
