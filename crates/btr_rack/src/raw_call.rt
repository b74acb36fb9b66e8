use crate::file_id::FileId;

/// A call of the system on a file or a folder, as a history has it. A call that failed, and a read or a write of no
/// byte, is `Refused`, but for a read or a write that the system interrupted.
#[derive(Clone, Copy, Debug, PartialEq, Eq)]
pub(crate) enum RawCall {
    /// An opening: for writing, and of a file that wasn't there.
    Opened { write: bool, made: bool },
    /// A look at which file it is: at a path, or at the file that is open.
    Looked(FileId),
    /// A read from an offset on.
    Read(u64),
    /// A write from an offset on.
    Stored(u64),
    /// A change of the length.
    Cut(u64),
    /// A wait until what was written is stored.
    Synced,
    /// A change of the working directory to the folder of a path.
    Entered,
    Interrupted,
    Refused,
}
