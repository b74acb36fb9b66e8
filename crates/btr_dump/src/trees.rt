// All trees.
ghost use Rattle.std.specs.Prelude.{◌≡◌, ◌≤◌, List};
ghost use Rattle.btr_rack.specs.Rack.{OnlyReads};
ghost use Rattle.btr_read.specs.Serves.{Serves};
ghost use Rattle.btr_read.specs.Store.{SameLoans, free_count};
ghost use Rattle.btr_read.specs.declared.want.Want.{Want};
ghost use Rattle.btr_walk.specs.Going.{IsOn};
ghost use Rattle.btr_walk.specs.Reading.{HasCause, Tells, unread_by};
ghost use Rattle.btr_walk.specs.ScanEnds.{IsScanReady, without_leaf, rank_of};
ghost use Rattle.btr_walk.specs.Showing.{item_of};
ghost use Rattle.btr_volume.specs.Looking.{SameVolume};
ghost use Rattle.btr_dump.specs.Pieces.{item_root, top_trees, all_trees};
ghost use Rattle.btr_dump.specs.Showing.{Grows, WritesShown, PutsShown};
ghost use Rattle.btr_dump.specs.Stops.{StopCounts, DumpStopCause};
ghost use Rattle.btr_dump.specs.Trees.{ItemRankFalls, NextItemBy};

use crate::cursor::{Cursor, show_rest};
use crate::ending::finish;
use crate::kind::kind_in;
use crate::tree::show_tree;
use btr_base::{FIRST_KEY, LAST_KEY, SumKind};
use btr_items::{ItemFault, item};
use btr_rack::{Out, Rack};
use btr_read::Store;
use btr_super::Super;
use btr_text::TextBuffer;
use btr_volume::{Stop, TreeRoot, Volume, chunk_root, named_root, root_at, root_root};
use btr_walk::{Found, Scan, TreeFault, next};

// What the next item of a scan describes.
#[derive(Clone, Copy)]
enum NextItem {
    // There is no item any more.
    End,
    // No tree.
    Other,
    // The tree with this root.
    Tree(TreeRoot),
}

// The root that an item describes, if it is a ROOT_ITEM and keeps its form.
#[tactic(auto, unfolding(crate::specs::Pieces::item_root))]
fn root_in(found: &Found<'_>) -> Option<TreeRoot>
    ensures { result ≡ item_root (item_of found.now) }
{
    if found.key.kind != item::ROOT_ITEM {
        return None;
    }
    match root_at(found.key, found.body) {
        Ok(root) => Some(root),
        Err(ItemFault) => None,
    }
}

// What the next item of a scan describes.
fn next_item<R: Rack>(
    scan: &mut Scan,
    rack: &mut R,
    store: &mut Store,
) -> Result<NextItem, TreeFault>
    requires ready { IsScanReady (R.seen rack.old) store.old scan.old }
    requires room { 4 ≤ free_count (without_leaf store.old scan.old) }
    ensures ready { IsScanReady (R.seen rack.new) store.new scan.new }
    ensures reads { OnlyReads (R.seen rack.old) (R.seen rack.new) }
    ensures others { SameLoans (without_leaf store.old scan.old) (without_leaf store.new scan.new) }
    ensures rank_falls { ItemRankFalls (rank_of scan.old) (rank_of scan.new) result }
    ensures cause { HasCause store.old.layout (R.seen rack.old) (R.seen rack.new) result }
    ensures content { Tells store.old.layout (R.seen rack.old) (R.seen rack.new)
        (λ B. (seen : List Want) → IsOn scan.old.lo scan.old.hi B seen scan.old.place
        → NextItemBy (unread_by store.old.layout (R.seen rack.old) (R.seen rack.new))
        B seen store.old store.new scan.old scan.new result) }
{
    match next(store, scan, rack)? {
        None => Ok(NextItem::End),
        Some(found) => match root_in(&found) {
            Some(root) => Ok(NextItem::Tree(root)),
            None => Ok(NextItem::Other),
        },
    }
}

// The trees that the items of a scan describe and that are still to be shown.
struct ItemTrees {
    kind: SumKind,
    scan: Scan,
}

impl Cursor for ItemTrees {
    ghost use Rattle.btr_walk.specs.Advancing.{loan_of};
    ghost use Rattle.btr_walk.specs.ScanEnds.{left_of};
    ghost use Rattle.btr_dump.specs.Pieces.{item_trees};

    ghost ready = { λ rack store trees. IsScanReady rack store trees.scan };

    ghost loan = { λ trees. loan_of trees.scan.leaf };

    ghost room = { 5 };

    ghost rank = { λ trees. rank_of trees.scan };

    ghost on = { λ B seen trees. IsOn trees.scan.lo trees.scan.hi B seen trees.scan.place };

    ghost left = { λ B store trees. item_trees trees.kind (left_of B store trees.scan) };

    fn show_next<R: Rack, O: Out>(
        &mut self,
        rack: &mut R,
        store: &mut Store,
        text: &mut TextBuffer,
        out: &mut O,
    ) -> Result<bool, Stop> {
        match next_item(&mut self.scan, rack, store) {
            Err(fault) => Err(Stop::Tree(fault)),
            Ok(NextItem::End) => Ok(false),
            Ok(NextItem::Other) => Ok(true),
            Ok(NextItem::Tree(root)) => {
                show_tree(self.kind, &root, rack, store, text, out)?;
                Ok(true)
            }
        }
    }
}

// Shows the root tree and the chunk tree.
fn show_tops<R: Rack, O: Out>(
    s: &Super,
    rack: &mut R,
    store: &mut Store,
    text: &mut TextBuffer,
    out: &mut O,
) -> Result<(), Stop>
    requires serves { Serves (R.seen rack.old) store.old }
    requires room { 4 ≤ free_count store.old }
    ensures serves { Serves (R.seen rack.new) store.new }
    ensures reads { OnlyReads (R.seen rack.old) (R.seen rack.new) }
    ensures loans { SameLoans store.old store.new }
    ensures account { StopCounts (O.account out.old) (O.account out.new) result }
    ensures cause { DumpStopCause store.old.layout (R.seen rack.old) (R.seen rack.new) result }
    ensures grows { Grows (O.text out.old) (O.text out.new) }
    ensures content { WritesShown store.old (R.seen rack.old) (R.seen rack.new) (top_trees s.now)
        (O.text out.old) (O.text out.new) text.old text.new result }
{
    let kind = kind_in(s);
    show_tree(kind, &named_root(1, root_root(s)), rack, store, text, out)?;
    show_tree(kind, &named_root(3, chunk_root(s)), rack, store, text, out)
}

// Shows all trees.
fn show_all<R: Rack, O: Out>(
    s: &Super,
    rack: &mut R,
    store: &mut Store,
    text: &mut TextBuffer,
    out: &mut O,
) -> Result<(), Stop>
    requires serves { Serves (R.seen rack.old) store.old }
    requires room { 5 ≤ free_count store.old }
    ensures serves { Serves (R.seen rack.new) store.new }
    ensures reads { OnlyReads (R.seen rack.old) (R.seen rack.new) }
    ensures loans { SameLoans store.old store.new }
    ensures account { StopCounts (O.account out.old) (O.account out.new) result }
    ensures cause { DumpStopCause store.old.layout (R.seen rack.old) (R.seen rack.new) result }
    ensures grows { Grows (O.text out.old) (O.text out.new) }
    ensures content { WritesShown store.old (R.seen rack.old) (R.seen rack.new) (all_trees s.now)
        (O.text out.old) (O.text out.new) text.old text.new result }
{
    show_tops(s, rack, store, text, out)?;
    let mut trees = ItemTrees {
        kind: kind_in(s),
        scan: Scan::new(&root_root(s), FIRST_KEY, LAST_KEY),
    };
    let shown = show_rest(&mut trees, rack, store, text, out);
    let ItemTrees { kind: _, scan } = trees;
    scan.finish(store);
    shown
}

/// Puts all trees, each with its line `tree ID offset O` and the text of each of its blocks, a block before its children: the root
/// tree and the chunk tree, as the superblock has them, and then the tree of each ROOT_ITEM of the root tree in the order of the keys.
/// A ROOT_ITEM that breaks its form has no tree. It takes no memory of its own. Five slots are free, and after it as many as before.
///
/// `Tree`: a block of a tree is `Lost`, `Unread`, `Unmapped` or `Crosses`, or `Malformed` where it breaks a rule or doesn't fit its
/// place; then the text of all before it was put. `Out` and `Memory` are the output's refusals: then a first part of the text was put.
pub fn dump_all<R: Rack, O: Out>(rack: &mut R, vol: &mut Volume, out: &mut O) -> Result<(), Stop>
    requires serves { Serves (R.seen rack.old) vol.old.store }
    requires room { 5 ≤ free_count vol.old.store }
    ensures serves { Serves (R.seen rack.new) vol.new.store }
    ensures reads { OnlyReads (R.seen rack.old) (R.seen rack.new) }
    ensures same { SameVolume vol.old vol.new }
    ensures account { StopCounts (O.account out.old) (O.account out.new) result }
    ensures cause { DumpStopCause vol.old.store.layout (R.seen rack.old) (R.seen rack.new) result }
    ensures grows { Grows (O.text out.old) (O.text out.new) }
    ensures content { PutsShown vol.old.store (R.seen rack.old) (R.seen rack.new) (all_trees vol.old.sup)
        (O.text out.old) (O.text out.new) result }
{
    let mut text = TextBuffer::new();
    let shown = show_all(&vol.sup, rack, &mut vol.store, &mut text, out);
    finish(shown, text, out)
}
