// Where a folder that is a sink stands.
ghost use Rattle.std.specs.Prelude.{◌≡◌, ◌<◌, ℕ, take, replicate, true, false, IsTrue};
ghost use Rattle.btr_rack.specs.Sink.{InFile, started, entered, left, begun, grown, finished};
ghost use Rattle.btr_rack.specs.Told.{path_of};
ghost use Rattle.btr_rack.specs.Folders.{IsAbove};
ghost use Rattle.btr_rack.specs.FolderTree.{at_sink, at_waits, unstarted};

use crate::buffer::Buffer;
use crate::file_id::FileId;
use crate::folders::Folders;
use crate::history::History;
use crate::new_file::NewFile;
use crate::room::Room;
use crate::step::Step;
use crate::trail::{DoneBy, Steps, Trail};

/// Where a folder that is a sink stands, once it is started.
#[derive(Drop)]
pub(crate) struct Destination {
    top: FileId,
    // The folders that were entered below it.
    folders: Folders,
    file: Option<NewFile>,
    // The bytes of the file that wait to be stored.
    buffer: Buffer,
    // What was done.
    trail: Trail,
}

impl Destination {
    /// The destination was entered by these calls.
    #[tactic(auto, unfolding(crate::specs::FolderTree::at_sink))]
    pub(crate) fn new(folder: FileId, calls: &History, room: Room) -> Destination
        ensures { at_sink result ≡ started (path_of calls.now) unstarted }
    {
        let Room { buffer, folders } = room;
        Destination {
            top: folder,
            folders,
            file: None,
            buffer,
            trail: Trail::new(&Steps).with(&DoneBy(Step::Started, calls)),
        }
    }

    /// The folder above the one that is entered.
    #[tactic(auto, unfolding(crate::specs::FolderTree::at_sink))]
    pub(crate) fn above(&self) -> FileId
        requires { 0 < (at_sink self.now).depth }
        ensures { IsAbove self.now.top self.now.folders result }
    {
        self.folders.above(self.top)
    }

    /// A folder was entered by these calls.
    #[tactic(auto, unfolding(crate::specs::FolderTree::at_sink))]
    pub(crate) fn enter(&mut self, folder: FileId, calls: &History)
        requires { (at_sink self.old).depth < 512 }
        ensures { at_sink self.new ≡ entered (path_of calls.now) (at_sink self.old) }
    {
        self.folders.enter(folder);
        self.trail = self.trail.with(&DoneBy(Step::Entered, calls));
    }

    /// A folder was left to this one by these calls.
    #[tactic(auto, unfolding(crate::specs::FolderTree::at_sink))]
    pub(crate) fn leave(&mut self, _folder: FileId, calls: &History)
        requires below { 0 < (at_sink self.old).depth }
        requires above { IsAbove self.old.top self.old.folders _folder }
        ensures { at_sink self.new ≡ left (at_sink self.old) }
    {
        self.folders.leave();
        self.trail = self.trail.with(&DoneBy(Step::Left, calls));
    }

    /// An empty file was made.
    #[tactic(auto, unfolding(crate::specs::FolderTree::at_sink))]
    pub(crate) fn begin(&mut self, file: NewFile)
        requires { file.position ≡ 0 }
        ensures { at_sink self.new ≡ begun (path_of file.history) (at_sink self.old) }
    {
        self.buffer.clear();
        self.trail = self.trail.with(&DoneBy(Step::Begun, file.history()));
        self.file = Some(file);
    }

    /// Appends bytes to the file, or says that it could not: then a first part of them may stand there.
    #[tactic(auto, unfolding(crate::specs::FolderTree::at_sink))]
    pub(crate) fn put(&mut self, bytes: &[u8]) -> bool
        requires { (at_sink self.old).stage ≡ InFile }
        ensures all { IsTrue result → at_sink self.new ≡ grown bytes.now (at_sink self.old) }
        ensures some { result ≡ false → (n : ℕ) × (at_sink self.new ≡ grown (take n bytes.now) (at_sink self.old)) }
    {
        let Some(file) = &mut self.file else {
            unreachable!()
        };
        file.put(&mut self.buffer, bytes)
    }

    /// Appends zeros to the file, or says that it could not: then none of them stand there.
    #[tactic(auto, unfolding(crate::specs::FolderTree::at_sink))]
    pub(crate) fn gap(&mut self, count: u64) -> bool
        requires { (at_sink self.old).stage ≡ InFile }
        ensures all { IsTrue result → at_sink self.new ≡ grown (replicate count 0) (at_sink self.old) }
        ensures none { result ≡ false → at_sink self.new ≡ at_sink self.old }
    {
        let Some(file) = &mut self.file else {
            unreachable!()
        };
        file.gap(&mut self.buffer, count)
    }

    /// Stores the file's last bytes and closes it, or says that it could not: then it can be tried again.
    #[tactic(auto, unfolding(crate::specs::FolderTree::at_sink))]
    pub(crate) fn finish(&mut self) -> bool
        requires { (at_sink self.old).stage ≡ InFile }
        ensures closed { IsTrue result → at_sink self.new ≡ finished (at_sink self.old) }
        ensures same { result ≡ false → at_sink self.new ≡ at_sink self.old }
    {
        let Some(file) = &mut self.file else {
            unreachable!()
        };
        if !file.finish(&mut self.buffer) {
            return false;
        }
        self.trail = self.trail.with(&DoneBy(Step::Closed, file.history()));
        self.file = None;
        true
    }

    /// Stores what waits of the unfinished file, or says that it could not: then it can be tried again.
    #[tactic(auto, unfolding(crate::specs::FolderTree::at_sink, crate::specs::FolderTree::at_waits))]
    pub(crate) fn flush(&mut self) -> bool
        ensures same { at_sink self.new ≡ at_sink self.old }
        ensures stored { IsTrue result → at_waits self.new ≡ false }
    {
        match &mut self.file {
            Some(file) => file.finish(&mut self.buffer),
            None => true,
        }
    }
}
