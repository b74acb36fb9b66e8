ghost use Rattle.std.specs.Prelude.{◌≡◌, length};

use crate::buffer::Buffer;
use crate::folders::Folders;
use btr_base::Memory;
use std::alloc::Global;

/// The memory that a folder that is a sink needs.
#[derive(Drop)]
pub(crate) struct Room {
    pub(crate) buffer: Buffer,
    pub(crate) folders: Folders,
    ghost unused: { length folders ≡ 0 },
}

impl Room {
    pub(crate) fn new(alloc: Global) -> Result<Room, Memory> {
        let buffer = Buffer::new(alloc)?;
        let folders = Folders::new(alloc)?;
        Ok(Room { buffer, folders })
    }
}
