//! The listing.
ghost use Rattle.btr_prog.specs.Calls.{Calls};
ghost use Rattle.btr_prog_example.specs.Blocks.{Agreed, copies};
ghost use Rattle.btr_prog_example.specs.Listing.{shown, listing};
ghost use Rattle.btr_prog_example.specs.Answers.{PutsRows, PutsPage};

use crate::blocks::{Blocks, Stop, Want};
use crate::sink::Sink;

/// PutsRows the bytes of a page and its end, where it has bytes. Answers whether it has.
fn put_page<S: Sink>(sink: &mut S, bytes: &[u8]) -> Result<bool, Stop>
    ensures { PutsPage bytes.now (S.rows sink.old) (S.rows sink.new) result }
{
    if bytes.is_empty() {
        return Ok(false);
    }
    match sink.put(bytes) {
        Ok(()) => {}
        Err(_) => return Err(Stop::Sink),
    }
    match sink.end() {
        Ok(()) => Ok(true),
        Err(_) => Err(Stop::Sink),
    }
}

/// Shows a page. Answers whether it has bytes.
fn show<B: Blocks, S: Sink>(blocks: &mut B, sink: &mut S, page: u8) -> Result<bool, Stop>
    ensures { Calls Agreed (B.seen blocks.old) (B.seen blocks.new)
        (λ sure held. PutsRows (copies sure held) (shown page) (S.rows sink.old) (S.rows sink.new) result) }
{
    let bytes = blocks.read(Want::Page(page))?;
    put_page(sink, &bytes)
}

/// Shows the pages of a catalogue in order, up to the first that is empty. Answers the last one shown, 0 where there is none.
///
/// Whatever it answers, what was put follows a run of the listing: all its rows, or those before the block that is lost, or
/// those before some place, where the sink refused perhaps with a first part of a row.
pub fn list<B: Blocks, S: Sink>(blocks: &mut B, sink: &mut S, catalogue: u8) -> Result<u8, Stop>
    ensures { Calls Agreed (B.seen blocks.old) (B.seen blocks.new)
        (λ sure held. PutsRows (copies sure held) (listing catalogue) (S.rows sink.old) (S.rows sink.new) result) }
{
    let pages = blocks.read(Want::Catalogue(catalogue))?;
    let mut last = 0;
    for page in &pages {
        let more = show(blocks, sink, *page)?;
        if !more {
            return Ok(last);
        }
        last = *page;
    }
    Ok(last)
}
