// A sink that is a real folder.
ghost use Rattle.std.specs.Prelude.{◌≡◌, None, Err, false, is_some, ◌||◌};
ghost use Rattle.btr_rack.specs.CallsLaws.{unsure_count_left};
ghost use Rattle.btr_rack.specs.Rack.{Rose};
ghost use Rattle.btr_rack.specs.FolderTree.{folder_sink, folder_sound, folder_waits, folder_settled};

use crate::destination::Destination;
use crate::entry::{Entry, enter, enter_path, leave};
use crate::new_file::NewFile;
use crate::room::Room;
use crate::{SinkError, TreeSink};
use std::alloc::Global;
use std::fs::File;
use std::rt::{Env, Files};

/// A sink that is a real folder. Folders are made, or entered where they are there, one by one: the process's
/// working directory moves along, so that no path is longer than a name. A symbolic link is never followed by
/// the last part of a name, a file that is there is a fault, and at most 512 folders lie in one another below the
/// destination. After each change of folder the working directory is the folder that was looked at before;
/// otherwise that call and all later ones that use a folder are faults.
///
/// What it tells is what the calls of the system were given, where one that failed is taken to change nothing. Its
/// memory is taken by `new`; where that failed, `start` says so, and otherwise no call wants memory.
#[derive(Drop)]
pub struct FolderTree<R: Files<File = File> + Env + Drop> {
    rt: R,
    // What a destination needs, until it is started.
    room: Option<Room>,
    at: Option<Destination>,
    // The working directory isn't the folder that it should be.
    astray: bool,
    faults: u64,
}

impl<R: Files<File = File> + Env + Drop> FolderTree<R> {
    /// A sink that isn't started.
    pub fn new(rt: R, alloc: Global) -> FolderTree<R>
        ensures { result.at ≡ None }
    {
        FolderTree {
            rt,
            room: Room::new(alloc).ok(),
            at: None,
            astray: false,
            faults: 0,
        }
    }
}

// Counts a fault, and answers it.
fn fault(faults: &mut u64) -> Result<(), SinkError>
    ensures answer { result ≡ Err SinkError.Failed }
    ensures counted { Rose faults.old faults.new }
{
    *faults = faults.saturating_add(1);
    Err(SinkError::Failed)
}

impl<R: Files<File = File> + Env + Drop> TreeSink for FolderTree<R> {
    ghost sink = { λ t. folder_sink t.at };

    ghost account = { λ t. record { faults = t.faults; sure = false; ample = is_some t.room || is_some t.at } };

    ghost count_left = { λ t. unsure_count_left t.faults (is_some t.room || is_some t.at) };

    ghost sound = { λ t. folder_sound t.at };

    ghost waits = { λ t. folder_waits t.at };

    ghost settled = { λ t. folder_settled t.at };

    fn start(&mut self, name: &str) -> Result<(), SinkError> {
        if self.astray {
            return fault(&mut self.faults);
        }
        let Some(room) = self.room.take() else {
            return Err(SinkError::Memory);
        };
        match enter_path(&self.rt, name) {
            Entry::Entered(folder, calls) => {
                self.at = Some(Destination::new(folder, &calls, room));
                Ok(())
            }
            Entry::Astray => {
                self.room = Some(room);
                self.astray = true;
                fault(&mut self.faults)
            }
            Entry::Refused => {
                self.room = Some(room);
                fault(&mut self.faults)
            }
        }
    }

    fn dir(&mut self, name: &str) -> Result<(), SinkError> {
        let Some(at) = &mut self.at else {
            unreachable!()
        };
        if self.astray {
            return fault(&mut self.faults);
        }
        match enter(&self.rt, name) {
            Entry::Entered(folder, calls) => {
                at.enter(folder, &calls);
                Ok(())
            }
            Entry::Astray => {
                self.astray = true;
                fault(&mut self.faults)
            }
            Entry::Refused => fault(&mut self.faults),
        }
    }

    fn up(&mut self) -> Result<(), SinkError> {
        let Some(at) = &mut self.at else {
            unreachable!()
        };
        if self.astray {
            return fault(&mut self.faults);
        }
        match leave(&self.rt, at.above()) {
            Entry::Entered(above, calls) => {
                at.leave(above, &calls);
                Ok(())
            }
            Entry::Astray => {
                self.astray = true;
                fault(&mut self.faults)
            }
            Entry::Refused => fault(&mut self.faults),
        }
    }

    fn file(&mut self, name: &str) -> Result<(), SinkError> {
        let Some(at) = &mut self.at else {
            unreachable!()
        };
        if self.astray {
            return fault(&mut self.faults);
        }
        let Some(file) = NewFile::make(&self.rt, name) else {
            return fault(&mut self.faults);
        };
        at.begin(file);
        Ok(())
    }

    fn put(&mut self, bytes: &[u8]) -> Result<(), SinkError> {
        let Some(at) = &mut self.at else {
            unreachable!()
        };
        if !at.put(bytes) {
            return fault(&mut self.faults);
        }
        Ok(())
    }

    fn gap(&mut self, count: u64) -> Result<(), SinkError> {
        let Some(at) = &mut self.at else {
            unreachable!()
        };
        if !at.gap(count) {
            return fault(&mut self.faults);
        }
        Ok(())
    }

    // A file whose last bytes can't be stored stays unfinished, and can be tried again.
    fn done(&mut self) -> Result<(), SinkError> {
        let Some(at) = &mut self.at else {
            unreachable!()
        };
        if !at.finish() {
            return fault(&mut self.faults);
        }
        Ok(())
    }

    fn flush(&mut self) -> Result<(), SinkError> {
        let Some(at) = &mut self.at else {
            return Ok(());
        };
        if !at.flush() {
            return fault(&mut self.faults);
        }
        Ok(())
    }
}
