// The kinds of files that inodes have.
ghost use Rattle.std.specs.Prelude.{◌≡◌};
ghost use Rattle.btr_check_names.specs.Names.{format_of, mode_of_kind};

use btr_items::Inode;

/// An inode by its number, and the kind of file that its mode says.
#[derive(Clone, Copy, Debug, PartialEq, Eq, PartialOrd, Ord)]
pub(crate) struct ModeAt {
    pub(crate) number: u64,
    pub(crate) format: u32,
}

/// The kind of a directory in its mode.
pub(crate) const DIRECTORY: u32 = 0o040000;

/// The kind of a file in its mode.
pub(crate) fn format_of(inode: &Inode) -> u32
    ensures { result ≡ format_of inode.now }
{
    inode.mode & 0o170000
}

/// The kind that the mode has of a file of an entry's kind.
pub(crate) fn mode_of_kind(kind: u8) -> u32
    ensures { result ≡ mode_of_kind kind }
{
    match kind {
        1 => 0o100000,
        2 => DIRECTORY,
        3 => 0o020000,
        4 => 0o060000,
        5 => 0o010000,
        6 => 0o140000,
        _ => 0o120000,
    }
}
