// How a text ends.
ghost use Rattle.std.specs.Prelude.{◌≡◌};
ghost use Rattle.btr_rack.specs.Out.{CallAccount};
ghost use Rattle.btr_rack.specs.Rack.{Seen};
ghost use Rattle.btr_read.specs.Layout.{Layout};
ghost use Rattle.btr_dump.specs.Showing.{Grows, Finishes};
ghost use Rattle.btr_dump.specs.Stops.{stop_of, is_cut, StopCounts, DumpStopCause};

use btr_rack::{Out, SinkError};
use btr_text::TextBuffer;
use btr_volume::Stop;

/// What a refusal of the output makes of a command.
pub(crate) fn stop_of(refusal: SinkError) -> Stop
    ensures { result ≡ stop_of refusal }
{
    match refusal {
        SinkError::Failed => Stop::Out,
        SinkError::Memory => Stop::Memory,
    }
}

// Whether the output refused on the way, so that nothing waits any more.
fn is_cut(shown: &Result<(), Stop>) -> bool
    ensures { result ≡ is_cut shown.now }
{
    matches!(shown, Err(Stop::Out | Stop::Memory))
}

/// Puts what waits of a text, and answers what showing it came to, unless the output refuses; where it did on the way, nothing is put.
pub(crate) fn finish<O: Out>(
    shown: Result<(), Stop>,
    mut text: TextBuffer,
    out: &mut O,
) -> Result<(), Stop>
    ensures text { Finishes (O.text out.old) (O.text out.new) text shown result }
    ensures grows { Grows (O.text out.old) (O.text out.new) }
    ensures account { (begun : CallAccount)
        → StopCounts begun (O.account out.old) shown → StopCounts begun (O.account out.new) result }
    ensures cause { (layout : Layout) (before now : Seen)
        → DumpStopCause layout before now shown → DumpStopCause layout before now result }
{
    if is_cut(&shown) {
        return shown;
    }
    match text.flush(out) {
        Ok(()) => shown,
        Err(refusal) => Err(stop_of(refusal)),
    }
}
