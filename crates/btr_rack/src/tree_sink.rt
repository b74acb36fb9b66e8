// A sink of folders and files, as the engine sees it.
ghost use Rattle.std.specs.Prelude.{◌≡◌, ◌≢◌, ◌<◌, Bool, false, [], replicate, OnOk, IfErr};
ghost use Rattle.btr_rack.specs.Out.{CallAccount, HasCountLeft, Counts};
ghost use Rattle.btr_rack.specs.Name.{IsGoodName};
ghost use Rattle.btr_rack.specs.Sink.{Sink, NotStarted, BetweenFiles, InFile, is_in_file, Steps, Grows, IsSoundSink, started, entered, left, begun, finished};

use crate::SinkError;

/// A sink of folders and files. They are made one after the other: a file is put together by `file`, `put` and
/// `gap`, and is finished by `done`. A call that answers `Failed` is counted.
pub trait TreeSink {
    /// Where the sink stands, and what was written, where it tells that.
    ghost sink: { Self → Sink };

    /// How often a call failed, and whether one is to fail or to want memory.
    ghost account: { Self → CallAccount };

    /// Some of what was written isn't stored yet.
    ghost waits: { Self → Bool };

    /// Begins in the destination folder.
    fn start(&mut self, name: &str) -> Result<(), SinkError>
        requires { (sink self.old).stage ≡ NotStarted }
        ensures step { Steps (started name.now) (sink self.old) (sink self.new) result }
        ensures account { Counts (account self.old) (account self.new) result };

    /// Makes a folder and enters it, at most 512 below the destination.
    fn dir(&mut self, name: &str) -> Result<(), SinkError>
        requires between { (sink self.old).stage ≡ BetweenFiles }
        requires good { IsGoodName name.now }
        requires above { (sink self.old).depth < 512 }
        ensures step { Steps (entered name.now) (sink self.old) (sink self.new) result }
        ensures account { Counts (account self.old) (account self.new) result };

    /// Leaves a folder.
    fn up(&mut self) -> Result<(), SinkError>
        requires between { (sink self.old).stage ≡ BetweenFiles }
        requires below { 0 < (sink self.old).depth }
        ensures step { Steps left (sink self.old) (sink self.new) result }
        ensures account { Counts (account self.old) (account self.new) result };

    /// Begins an empty file.
    fn file(&mut self, name: &str) -> Result<(), SinkError>
        requires between { (sink self.old).stage ≡ BetweenFiles }
        requires good { IsGoodName name.now }
        ensures step { Steps (begun name.now) (sink self.old) (sink self.new) result }
        ensures account { Counts (account self.old) (account self.new) result };

    /// Appends bytes to the file. After a refusal a first part of them may stand there.
    fn put(&mut self, bytes: &[u8]) -> Result<(), SinkError>
        requires begun { (sink self.old).stage ≡ InFile }
        requires some { bytes.now ≢ [] }
        ensures step { Grows bytes.now (sink self.old) (sink self.new) result }
        ensures account { Counts (account self.old) (account self.new) result };

    /// Appends zeros to the file. After a refusal some of them may stand there.
    fn gap(&mut self, count: u64) -> Result<(), SinkError>
        requires begun { (sink self.old).stage ≡ InFile }
        requires some { 0 < count }
        ensures step { Grows (replicate count 0) (sink self.old) (sink self.new) result }
        ensures account { Counts (account self.old) (account self.new) result };

    /// Finishes the file.
    fn done(&mut self) -> Result<(), SinkError>
        requires { (sink self.old).stage ≡ InFile }
        ensures step { Steps finished (sink self.old) (sink self.new) result }
        ensures account { Counts (account self.old) (account self.new) result };

    /// Stores what waits. Whatever it answers, what was written stays as it was, and the file unfinished.
    fn flush(&mut self) -> Result<(), SinkError>
        ensures same { sink self.new ≡ sink self.old }
        ensures stored { OnOk result (waits self.new ≡ false) }
        ensures refused { IfErr result (λ error. error ≡ SinkError.Failed) }
        ensures account { Counts (account self.old) (account self.new) result };

    /// Only of an unfinished file something waits.
    ghost settled: { (s : Self) → is_in_file (sink s).stage ≡ false → waits s ≡ false };

    /// A file is unfinished exactly in a file, and nothing was written before the start.
    ghost sound: { (s : Self) → IsSoundSink (sink s) };

    /// The count of faults of a sure sink is below its type's last value.
    ghost count_left: { (s : Self) → HasCountLeft (account s) };
}
