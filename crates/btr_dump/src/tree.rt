// A tree.
ghost use Rattle.std.specs.Prelude.{◌≡◌, ◌<◌, ◌≤◌};
ghost use Rattle.btr_prog.specs.Prog.{exec};
ghost use Rattle.btr_rack.specs.Rack.{OnlyReads};
ghost use Rattle.btr_read.specs.Serves.{Serves};
ghost use Rattle.btr_read.specs.Store.{SameLoans, free_count};
ghost use Rattle.btr_text.specs.Pieces.{text_of};
ghost use Rattle.btr_volume.specs.Looking.{SameVolume};
ghost use Rattle.btr_walk.specs.Reading.{TellsOf};
ghost use Rattle.btr_dump.specs.Pieces.{tree_text, tree_shown, asked_tree};
ghost use Rattle.btr_dump.specs.Showing.{Grows, ShowsText, PutsAsked, WritesShown, PutsShown};
ghost use Rattle.btr_dump.specs.Stops.{StopCounts, DumpStopCause};

use crate::block::write_held;
use crate::cursor::{Cursor, show_rest};
use crate::ending::{finish, stop_of};
use crate::kind::kind_in;
use btr_base::SumKind;
use btr_rack::{Out, Rack};
use btr_read::Store;
use btr_text::{Piece, TextBuffer};
use btr_volume::{Stop, TreeRoot, Volume};
use btr_walk::{BlockScan, next_block};

// The line before the blocks of a tree.
fn tree_line(id: u64, offset: u64) -> [Piece<'static>; 5]
    ensures { text_of result ≡ tree_text id offset }
{
    [
        Piece::Plain(b"tree "),
        Piece::Decimal(id),
        Piece::Plain(b" offset "),
        Piece::Decimal(offset),
        Piece::Plain(b"\n"),
    ]
}

// The blocks of a tree that are still to be shown.
struct TreeBlocks {
    kind: SumKind,
    scan: BlockScan,
}

impl Cursor for TreeBlocks {
    ghost use Rattle.btr_walk.specs.Preorder.{IsAmong, IsReadyFor, blocks_left, blocks_rank};
    ghost use Rattle.btr_dump.specs.Pieces.{blocks_shown};

    ghost ready = { λ rack store blocks. IsReadyFor rack store blocks.scan };

    ghost loan = { λ blocks. blocks.scan.loan };

    ghost room = { 4 };

    ghost rank = { λ blocks. blocks_rank blocks.scan };

    ghost on = { λ B seen blocks. IsAmong B seen blocks.scan.place };

    ghost left = { λ B store blocks. blocks_shown blocks.kind (blocks_left B blocks.scan) };

    fn show_next<R: Rack, O: Out>(
        &mut self,
        rack: &mut R,
        store: &mut Store,
        text: &mut TextBuffer,
        out: &mut O,
    ) -> Result<bool, Stop> {
        match next_block(store, &mut self.scan, rack) {
            Err(fault) => Err(Stop::Tree(fault)),
            Ok(None) => Ok(false),
            Ok(Some(found)) => {
                write_held(self.kind, found.addr, found.bytes, text, out)?;
                Ok(true)
            }
        }
    }
}

/// ShowsText a tree: its line, and the text of each of its blocks.
pub(crate) fn show_tree<R: Rack, O: Out>(
    kind: SumKind,
    root: &TreeRoot,
    rack: &mut R,
    store: &mut Store,
    text: &mut TextBuffer,
    out: &mut O,
) -> Result<(), Stop>
    requires serves { Serves (R.seen rack.old) store.old }
    requires room { 4 ≤ free_count store.old }
    ensures serves { Serves (R.seen rack.new) store.new }
    ensures reads { OnlyReads (R.seen rack.old) (R.seen rack.new) }
    ensures loans { SameLoans store.old store.new }
    ensures account { StopCounts (O.account out.old) (O.account out.new) result }
    ensures cause { DumpStopCause store.old.layout (R.seen rack.old) (R.seen rack.new) result }
    ensures grows { Grows (O.text out.old) (O.text out.new) }
    ensures content { WritesShown store.old (R.seen rack.old) (R.seen rack.new) (tree_shown kind root.now)
        (O.text out.old) (O.text out.new) text.old text.new result }
{
    match text.push_all(&tree_line(root.id, root.offset), out) {
        Ok(()) => {}
        Err(refusal) => return Err(stop_of(refusal)),
    }
    let mut blocks = TreeBlocks {
        kind,
        scan: BlockScan::new(&root.place),
    };
    let shown = show_rest(&mut blocks, rack, store, text, out);
    let TreeBlocks { kind: _, scan } = blocks;
    scan.finish(store);
    shown
}

// Puts a tree.
fn put_tree<R: Rack, O: Out>(
    kind: SumKind,
    root: &TreeRoot,
    rack: &mut R,
    store: &mut Store,
    out: &mut O,
) -> Result<(), Stop>
    requires serves { Serves (R.seen rack.old) store.old }
    requires room { 4 ≤ free_count store.old }
    ensures serves { Serves (R.seen rack.new) store.new }
    ensures reads { OnlyReads (R.seen rack.old) (R.seen rack.new) }
    ensures loans { SameLoans store.old store.new }
    ensures account { StopCounts (O.account out.old) (O.account out.new) result }
    ensures cause { DumpStopCause store.old.layout (R.seen rack.old) (R.seen rack.new) result }
    ensures grows { Grows (O.text out.old) (O.text out.new) }
    ensures content { PutsShown store.old (R.seen rack.old) (R.seen rack.new) (tree_shown kind root.now)
        (O.text out.old) (O.text out.new) result }
{
    let mut text = TextBuffer::new();
    let shown = show_tree(kind, root, rack, store, &mut text, out);
    finish(shown, text, out)
}

/// Puts the tree of an id: the line `tree ID offset O`, and then the text of each of its blocks, each before its children. The
/// root tree 1 and the chunk tree 3 are the superblock's, all others have the ROOT_ITEM with the greatest offset. It takes no memory of
/// its own. Four slots are free, and after it as many as before.
///
/// `NoTree`: the root tree has no ROOT_ITEM of the id; then nothing was put. `Tree`: a block on the way down the root tree or of the
/// tree is `Lost`, `Unread`, `Unmapped` or `Crosses`, or `Malformed` where it breaks a rule or doesn't fit its place, or the ROOT_ITEM
/// breaks its form; then the text of all before it was put. `Out` and `Memory` are the output's refusals: then a first part of the
/// text was put.
pub fn dump_tree<R: Rack, O: Out>(
    id: u64,
    rack: &mut R,
    vol: &mut Volume,
    out: &mut O,
) -> Result<(), Stop>
    requires serves { Serves (R.seen rack.old) vol.old.store }
    requires room { 4 ≤ free_count vol.old.store }
    ensures serves { Serves (R.seen rack.new) vol.new.store }
    ensures reads { OnlyReads (R.seen rack.old) (R.seen rack.new) }
    ensures same { SameVolume vol.old vol.new }
    ensures account { StopCounts (O.account out.old) (O.account out.new) result }
    ensures cause { DumpStopCause vol.old.store.layout (R.seen rack.old) (R.seen rack.new) result }
    ensures grows { Grows (O.text out.old) (O.text out.new) }
    ensures content { TellsOf vol.old.store (R.seen rack.old) (R.seen rack.new)
        (λ Is B. PutsAsked Is (exec B (asked_tree vol.old.sup id)) (O.text out.old) (O.text out.new) result) }
{
    match vol.tree(id, rack) {
        Err(fault) => Err(Stop::Tree(fault)),
        Ok(None) => Err(Stop::NoTree(id)),
        Ok(Some(root)) => put_tree(kind_in(&vol.sup), &root, rack, &mut vol.store, out),
    }
}
