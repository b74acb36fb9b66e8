// Why entries are left out.
ghost use Rattle.std.specs.Prelude.{◌≡◌};
ghost use Rattle.btr_listing.specs.Causes.{cause_text};

/// Why an entry is left out.
#[derive(Clone, Copy, Debug, PartialEq, Eq)]
pub enum Cause {
    /// No destination has such a name.
    Name,
    /// Its path is longer than the rules allow.
    Path,
    /// A symbolic link.
    Symlink,
    /// A device, a pipe or a socket.
    Special,
    /// Its inode, or its subvolume's tree, isn't there.
    Missing,
    /// A file of more than 2^60 bytes.
    Size,
    /// A file with an extent that is compressed.
    Compressed,
    /// A file with an extent that is encrypted or otherwise encoded.
    Encoded,
    /// A directory or subvolume below 512 directories.
    Depth,
    /// A directory of which it isn't the one name.
    Link,
    /// A subvolume, where the rules enter none.
    Subvolume,
    /// A snapshot, where the rules enter none.
    Snapshot,
}

/// The word of a cause.
pub fn cause_text(cause: Cause) -> &'static [u8]
    ensures { result.now ≡ cause_text cause }
{
    match cause {
        Cause::Name => b"name",
        Cause::Path => b"path",
        Cause::Symlink => b"symlink",
        Cause::Special => b"special",
        Cause::Missing => b"missing",
        Cause::Size => b"size",
        Cause::Compressed => b"compressed",
        Cause::Encoded => b"encoded",
        Cause::Depth => b"depth",
        Cause::Link => b"link",
        Cause::Subvolume => b"subvolume",
        Cause::Snapshot => b"snapshot",
    }
}
