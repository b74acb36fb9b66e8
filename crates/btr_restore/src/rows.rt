// The calls of the sink, which a dry run leaves out.
ghost use Rattle.std.specs.Prelude.{◌≡◌, ◌<◌, false, OnOk};
ghost use Rattle.btr_rack.specs.Name.{IsGoodName};
ghost use Rattle.btr_rack.specs.Sink.{NotStarted, BetweenFiles, InFile, started, entered, left, begun, finished};
ghost use Rattle.btr_restore.specs.Running.{KeepsSink, WroteRow};
ghost use Rattle.btr_listing.specs.Step.{Start, Dir, Up, File, Done};

use crate::telling::sink_stop;
use btr_files::RestorePlan;
use btr_rack::TreeSink;
use btr_volume::Stop;

/// Begins in the destination.
pub fn start_in<T: TreeSink>(plan: &RestorePlan, name: &str, tree: &mut T) -> Result<(), Stop>
    requires fresh { plan.now.dry ≡ false → (T.sink tree.old).stage ≡ NotStarted }
    ensures wrote { WroteRow plan.now (Start name.now) T.sink T.account tree.old tree.new result }
    ensures after { plan.now.dry ≡ false → OnOk result (T.sink tree.new ≡ started name.now (T.sink tree.old)) }
    ensures dry { KeepsSink plan.now.dry tree.old tree.new }
{
    if plan.dry {
        return Ok(());
    }
    match tree.start(name) {
        Ok(()) => Ok(()),
        Err(error) => Err(sink_stop(error)),
    }
}

/// Makes a directory and enters it.
pub(crate) fn make_dir<T: TreeSink>(
    plan: &RestorePlan,
    name: &str,
    tree: &mut T,
) -> Result<(), Stop>
    requires between { plan.now.dry ≡ false → (T.sink tree.old).stage ≡ BetweenFiles }
    requires good { IsGoodName name.now }
    requires above { plan.now.dry ≡ false → (T.sink tree.old).depth < 512 }
    ensures wrote { WroteRow plan.now (Dir name.now) T.sink T.account tree.old tree.new result }
    ensures after { plan.now.dry ≡ false → OnOk result (T.sink tree.new ≡ entered name.now (T.sink tree.old)) }
    ensures dry { KeepsSink plan.now.dry tree.old tree.new }
{
    if plan.dry {
        return Ok(());
    }
    match tree.dir(name) {
        Ok(()) => Ok(()),
        Err(error) => Err(sink_stop(error)),
    }
}

/// Leaves a directory.
pub fn leave_dir<T: TreeSink>(plan: &RestorePlan, tree: &mut T) -> Result<(), Stop>
    requires between { plan.now.dry ≡ false → (T.sink tree.old).stage ≡ BetweenFiles }
    requires below { plan.now.dry ≡ false → 0 < (T.sink tree.old).depth }
    ensures wrote { WroteRow plan.now Up T.sink T.account tree.old tree.new result }
    ensures after { plan.now.dry ≡ false → OnOk result (T.sink tree.new ≡ left (T.sink tree.old)) }
    ensures dry { KeepsSink plan.now.dry tree.old tree.new }
{
    if plan.dry {
        return Ok(());
    }
    match tree.up() {
        Ok(()) => Ok(()),
        Err(error) => Err(sink_stop(error)),
    }
}

/// Begins a file.
pub(crate) fn make_file<T: TreeSink>(
    plan: &RestorePlan,
    name: &str,
    tree: &mut T,
) -> Result<(), Stop>
    requires between { plan.now.dry ≡ false → (T.sink tree.old).stage ≡ BetweenFiles }
    requires good { IsGoodName name.now }
    ensures wrote { WroteRow plan.now (File name.now) T.sink T.account tree.old tree.new result }
    ensures after { plan.now.dry ≡ false → OnOk result (T.sink tree.new ≡ begun name.now (T.sink tree.old)) }
    ensures dry { KeepsSink plan.now.dry tree.old tree.new }
{
    if plan.dry {
        return Ok(());
    }
    match tree.file(name) {
        Ok(()) => Ok(()),
        Err(error) => Err(sink_stop(error)),
    }
}

/// Finishes a file.
pub(crate) fn close_file<T: TreeSink>(plan: &RestorePlan, tree: &mut T) -> Result<(), Stop>
    requires begun { plan.now.dry ≡ false → (T.sink tree.old).stage ≡ InFile }
    ensures wrote { WroteRow plan.now Done T.sink T.account tree.old tree.new result }
    ensures after { plan.now.dry ≡ false → OnOk result (T.sink tree.new ≡ finished (T.sink tree.old)) }
    ensures dry { KeepsSink plan.now.dry tree.old tree.new }
{
    if plan.dry {
        return Ok(());
    }
    match tree.done() {
        Ok(()) => Ok(()),
        Err(error) => Err(sink_stop(error)),
    }
}
