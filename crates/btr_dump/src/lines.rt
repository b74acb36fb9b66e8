// Lines of a text.
ghost use Rattle.std.specs.Prelude.{◌≡◌};
ghost use Rattle.btr_rack.specs.Rack.{Seen};
ghost use Rattle.btr_read.specs.Layout.{Layout};
ghost use Rattle.btr_text.specs.Pieces.{text_of};
ghost use Rattle.btr_walk.specs.Showing.{item_of};
ghost use Rattle.btr_dump.specs.Pieces.{piece, root_text, item_line};
ghost use Rattle.btr_dump.specs.Showing.{WritesAlways};
ghost use Rattle.btr_dump.specs.Stops.{StopCounts, DumpStopCause};

use crate::ending::stop_of;
use btr_items::{ItemFault, RootItem, item};
use btr_rack::Out;
use btr_text::{Piece, TextBuffer};
use btr_volume::Stop;
use btr_walk::{Found, TreeFault};

/// Writes a line.
pub(crate) fn write_line<O: Out>(
    line: &[Piece<'_>],
    text: &mut TextBuffer,
    out: &mut O,
) -> Result<(), Stop>
    ensures text { WritesAlways (piece (text_of line.now)) (O.text out.old) (O.text out.new) text.old text.new result }
    ensures account { StopCounts (O.account out.old) (O.account out.new) result }
    ensures cause { (layout : Layout) (before now : Seen) → DumpStopCause layout before now result }
{
    match text.push_all(line, out) {
        Ok(()) => Ok(()),
        Err(refusal) => Err(stop_of(refusal)),
    }
}

/// The line of a root.
pub(crate) fn root_line(
    id: u64,
    offset: u64,
    addr: u64,
    level: u64,
    generation: u64,
) -> [Piece<'static>; 11]
    ensures { text_of result ≡ root_text id offset addr level generation }
{
    [
        Piece::Plain(b"tree "),
        Piece::Decimal(id),
        Piece::Plain(b" offset "),
        Piece::Decimal(offset),
        Piece::Plain(b" bytenr "),
        Piece::Decimal(addr),
        Piece::Plain(b" level "),
        Piece::Decimal(level),
        Piece::Plain(b" generation "),
        Piece::Decimal(generation),
        Piece::Plain(b"\n"),
    ]
}

/// Writes the line of the root that an item describes, if it is a ROOT_ITEM.
pub(crate) fn write_item<O: Out>(
    found: &Found<'_>,
    text: &mut TextBuffer,
    out: &mut O,
) -> Result<(), Stop>
    ensures text { WritesAlways (item_line (item_of found.now))
        (O.text out.old) (O.text out.new) text.old text.new result }
    ensures account { StopCounts (O.account out.old) (O.account out.new) result }
    ensures cause { (layout : Layout) (before now : Seen) → DumpStopCause layout before now result }
{
    if found.key.kind != item::ROOT_ITEM {
        return Ok(());
    }
    match RootItem::read(found.body) {
        Err(ItemFault) => Err(Stop::Tree(TreeFault::Malformed(found.block))),
        Ok(root) => {
            let line = root_line(
                found.key.objectid,
                found.key.offset,
                root.bytenr,
                root.level,
                root.generation,
            );
            write_line(&line, text, out)
        }
    }
}
