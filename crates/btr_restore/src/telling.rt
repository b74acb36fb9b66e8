// What restore tells, and what it counts.
ghost use Rattle.std.specs.Prelude.{◌≡◌, ◌||◌};
ghost use Rattle.btr_rack.specs.Sink.{Sink};
ghost use Rattle.btr_listing.specs.Causes.{cause_text};
ghost use Rattle.btr_prog.specs.Prog.{Return};
ghost use Rattle.btr_restore.specs.Journey.{told, skip, unverified};
ghost use Rattle.btr_listing.specs.Lines.{more};
ghost use Rattle.btr_volume.specs.Stops.{stops_out, stops_sink};
ghost use Rattle.btr_restore.specs.Running.{WroteLines};
ghost use Rattle.btr_restore.specs.Treating.{IsOver, came};

use crate::treated::Treated;
use btr_files::{Counts, RestorePlan};
use btr_listing::{Cause, put_line, put_skip};
use btr_rack::{Out, SinkError};
use btr_volume::Stop;

/// A count with one more; it stands still at its last value.
pub fn more(n: u64) -> u64
    ensures { result ≡ more n }
{
    n.saturating_add(1)
}

/// The stop that a refusal of the output is.
pub fn out_stop(error: SinkError) -> Stop
    ensures { result ≡ stops_out error }
{
    match error {
        SinkError::Failed => Stop::Out,
        SinkError::Memory => Stop::Memory,
    }
}

/// The stop that a refusal of the sink is.
pub fn sink_stop(error: SinkError) -> Stop
    ensures { result ≡ stops_sink error }
{
    match error {
        SinkError::Failed => Stop::Sink,
        SinkError::Memory => Stop::Memory,
    }
}

// Whether it is told what was entered or finished.
fn tells(plan: &RestorePlan) -> bool
    ensures { result ≡ (plan.now.verbose || plan.now.dry) }
{
    plan.verbose || plan.dry
}

/// Names what was entered or finished, if that is asked for.
pub(crate) fn tell<O: Out>(
    plan: &RestorePlan,
    word: &'static [u8],
    path: &[u8],
    out: &mut O,
) -> Result<(), Stop>
    ensures { WroteLines (told plan.now word.now path.now (Return tt))
        O.text O.account out.old out.new result }
{
    if !tells(plan) {
        return Ok(());
    }
    match put_line(word, path, out) {
        Ok(()) => Ok(()),
        Err(error) => Err(out_stop(error)),
    }
}

/// Names an entry that is left out, and counts it.
pub fn leave_out<O: Out>(
    cause: Cause,
    path: &[u8],
    counts: &mut Counts,
    out: &mut O,
) -> Result<Treated, Stop>
    ensures wrote { WroteLines (skip (cause_text cause) path.now counts.old)
        O.text O.account out.old out.new (came counts.new result) }
    ensures over { IsOver result }
{
    match put_skip(cause, path, out) {
        Ok(()) => {
            counts.skipped = more(counts.skipped);
            Ok(Treated::Over)
        }
        Err(error) => Err(out_stop(error)),
    }
}

/// Names a file of which some sector was read without a checksum.
pub fn tell_unverified<O: Out>(plain: bool, path: &[u8], out: &mut O) -> Result<(), Stop>
    ensures { WroteLines (unverified plain path.now (Return tt))
        O.text O.account out.old out.new result }
{
    if !plain {
        return Ok(());
    }
    match put_line(b"unverified", path, out) {
        Ok(()) => Ok(()),
        Err(error) => Err(out_stop(error)),
    }
}
