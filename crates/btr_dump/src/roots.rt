// The lines of the roots.
ghost use Rattle.std.specs.Prelude.{◌≡◌, ◌<◌, ◌≤◌, ◌++◌};
ghost use Rattle.btr_rack.specs.Out.{Counts};
ghost use Rattle.btr_rack.specs.Rack.{OnlyReads};
ghost use Rattle.btr_read.specs.Serves.{Serves};
ghost use Rattle.btr_read.specs.Store.{SameLoans, free_count};
ghost use Rattle.btr_text.specs.Pieces.{text_of};
ghost use Rattle.btr_text.specs.Text.{WritesOut as WritesText};
ghost use Rattle.btr_volume.specs.Looking.{SameVolume};
ghost use Rattle.btr_volume.specs.Tree.{root_root, named_root};
ghost use Rattle.btr_volume.specs.Table.{chunk_root};
ghost use Rattle.btr_dump.specs.Pieces as spec;
ghost use Rattle.btr_dump.specs.Showing.{Grows, WritesShown, PutsShown};
ghost use Rattle.btr_dump.specs.Stops.{StopCounts, DumpStopCause};

use crate::cursor::{Cursor, show_rest};
use crate::ending::{finish, stop_of};
use crate::lines::{root_line, write_item};
use btr_base::{FIRST_KEY, LAST_KEY};
use btr_rack::{Out, Rack, SinkError};
use btr_read::Store;
use btr_super::Super;
use btr_text::{Piece, TextBuffer};
use btr_volume::{Stop, Volume, chunk_root, root_root};
use btr_walk::{RootPlace, Scan, next};

fn top_line(id: u64, place: &RootPlace) -> [Piece<'static>; 11]
    ensures { text_of result ≡ spec.root_line (named_root id place.now) }
{
    root_line(id, 0, place.addr, u64::from(place.level), place.generation)
}

// The lines of the root tree and of the chunk tree.
fn write_tops<O: Out>(s: &Super, text: &mut TextBuffer, out: &mut O) -> Result<(), SinkError>
    ensures text { WritesText (O.text out.old) (O.text out.new) text.old text.new
        (spec.root_line (named_root 1 (root_root s.now)) ++ spec.root_line (named_root 3 (chunk_root s.now))) result }
    ensures account { Counts (O.account out.old) (O.account out.new) result }
{
    text.push_all(&top_line(1, &root_root(s)), out)?;
    text.push_all(&top_line(3, &chunk_root(s)), out)
}

// The lines of the items of a scan that are still to be shown.
struct RootLines {
    scan: Scan,
}

impl Cursor for RootLines {
    ghost use Rattle.btr_walk.specs.Advancing.{loan_of};
    ghost use Rattle.btr_walk.specs.Going.{IsOn};
    ghost use Rattle.btr_walk.specs.ScanEnds.{IsScanReady, left_of, rank_of};
    ghost use Rattle.btr_dump.specs.Pieces.{item_lines};

    ghost ready = { λ rack store lines. IsScanReady rack store lines.scan };

    ghost loan = { λ lines. loan_of lines.scan.leaf };

    ghost room = { 4 };

    ghost rank = { λ lines. rank_of lines.scan };

    ghost on = { λ B seen lines. IsOn lines.scan.lo lines.scan.hi B seen lines.scan.place };

    ghost left = { λ B store lines. item_lines (left_of B store lines.scan) };

    fn show_next<R: Rack, O: Out>(
        &mut self,
        rack: &mut R,
        store: &mut Store,
        text: &mut TextBuffer,
        out: &mut O,
    ) -> Result<bool, Stop> {
        match next(store, &mut self.scan, rack) {
            Err(fault) => Err(Stop::Tree(fault)),
            Ok(None) => Ok(false),
            Ok(Some(found)) => {
                write_item(&found, text, out)?;
                Ok(true)
            }
        }
    }
}

// Shows all roots.
fn show_roots<R: Rack, O: Out>(
    s: &Super,
    rack: &mut R,
    store: &mut Store,
    text: &mut TextBuffer,
    out: &mut O,
) -> Result<(), Stop>
    requires serves { Serves (R.seen rack.old) store.old }
    requires room { 4 ≤ free_count store.old }
    ensures serves { Serves (R.seen rack.new) store.new }
    ensures reads { OnlyReads (R.seen rack.old) (R.seen rack.new) }
    ensures loans { SameLoans store.old store.new }
    ensures account { StopCounts (O.account out.old) (O.account out.new) result }
    ensures cause { DumpStopCause store.old.layout (R.seen rack.old) (R.seen rack.new) result }
    ensures grows { Grows (O.text out.old) (O.text out.new) }
    ensures content { WritesShown store.old (R.seen rack.old) (R.seen rack.new) (spec.roots_shown s.now)
        (O.text out.old) (O.text out.new) text.old text.new result }
{
    match write_tops(s, text, out) {
        Ok(()) => {}
        Err(refusal) => return Err(stop_of(refusal)),
    }
    let mut lines = RootLines {
        scan: Scan::new(&root_root(s), FIRST_KEY, LAST_KEY),
    };
    let shown = show_rest(&mut lines, rack, store, text, out);
    let RootLines { scan } = lines;
    scan.finish(store);
    shown
}

/// Puts a line for each tree: where its root block stands. First the root tree and the chunk tree, as the superblock has them, and
/// then each ROOT_ITEM of the root tree in the order of the keys. It takes no memory of its own. Four slots are free, and after it
/// as many as before.
///
/// `Tree`: a block of the root tree is `Lost`, `Unread`, `Unmapped`, `Crosses` or `Malformed`, or a ROOT_ITEM breaks its form, and so its
/// leaf is `Malformed`; then the lines of the items before it were put. `Out` and `Memory` are the output's refusals: then a first part
/// of the text was put.
pub fn list_roots<R: Rack, O: Out>(rack: &mut R, vol: &mut Volume, out: &mut O) -> Result<(), Stop>
    requires serves { Serves (R.seen rack.old) vol.old.store }
    requires room { 4 ≤ free_count vol.old.store }
    ensures serves { Serves (R.seen rack.new) vol.new.store }
    ensures reads { OnlyReads (R.seen rack.old) (R.seen rack.new) }
    ensures same { SameVolume vol.old vol.new }
    ensures account { StopCounts (O.account out.old) (O.account out.new) result }
    ensures cause { DumpStopCause vol.old.store.layout (R.seen rack.old) (R.seen rack.new) result }
    ensures grows { Grows (O.text out.old) (O.text out.new) }
    ensures content { PutsShown vol.old.store (R.seen rack.old) (R.seen rack.new) (spec.roots_shown vol.old.sup)
        (O.text out.old) (O.text out.new) result }
{
    let mut text = TextBuffer::new();
    let shown = show_roots(&vol.sup, rack, &mut vol.store, &mut text, out);
    finish(shown, text, out)
}
