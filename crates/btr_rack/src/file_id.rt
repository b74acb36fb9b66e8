use std::fs::Metadata;
use std::os::unix::fs::{FileTypeExt, MetadataExt};

/// Which file, folder or device of the system it is.
#[derive(Clone, Copy, Debug, PartialEq, Eq)]
pub(crate) struct FileId {
    device: u64,
    inode: u64,
}

impl FileId {
    pub(crate) fn of(found: &Metadata) -> FileId {
        FileId {
            device: found.dev(),
            inode: found.ino(),
        }
    }

    /// `None` for what is no image: a folder, a pipe, a socket, a terminal.
    pub(crate) fn of_image(found: &Metadata) -> Option<FileId> {
        let kind = found.file_type();
        (kind.is_file() || kind.is_block_device()).then_some(FileId::of(found))
    }
}
